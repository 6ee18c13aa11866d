// Parts and bytes of a text, for the test programs that read their cases.
#![tactic(auto)]

ghost use Rattle.std.specs.Prelude.{◌≡◌, get_or};
ghost use Rattle.fields.specs.Parts.{part_of};

// The bytes from a up to b, none where that is no part.
#[tactic(auto, unfolding(crate::specs::Parts::part_of))]
pub fn part(s: &[u8], a: usize, b: usize) -> &[u8]
    ensures { result.now ≡ part_of s.now a b }
{
    s.get(a..b).unwrap_or(&[])
}

// The byte at a place, 0 past the end.
pub fn byte_at(s: &[u8], i: usize) -> u8
    ensures { result ≡ get_or s.now i 0 }
{
    s.get(i).copied().unwrap_or(0)
}
