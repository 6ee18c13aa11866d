// Names: the one rule that formulas and sheets share.
#![tactic(auto)]

ghost use Rattle.std.specs.Prelude.{◌≡◌};
ghost use Rattle.names.specs.Names.{letter, digit, name_byte, all_of, well_named};

// A name has at most so many characters.
pub const LONGEST: usize = 8;

// A lowercase letter.
#[tactic(auto, unfolding(crate::specs::Names::letter))]
pub fn is_letter(b: u8) -> bool
    ensures { result ≡ letter b }
{
    b.is_ascii_lowercase()
}

#[tactic(auto, unfolding(crate::specs::Names::digit))]
pub fn is_digit(b: u8) -> bool
    ensures { result ≡ digit b }
{
    b.is_ascii_digit()
}

// Lowercase letters or digits only.
fn all_characters(s: &[u8]) -> bool
    ensures { result ≡ all_of name_byte s.now }
{
    s.iter().all(|b| is_letter(*b) || is_digit(*b))
}

// A name as callers give it, unpadded.
#[tactic(auto, unfolding(crate::specs::Names::well_named))]
pub fn well_named(name: &[u8]) -> bool
    ensures { result ≡ well_named name.now }
{
    match name {
        [first, rest @ ..] => name.len() <= LONGEST && is_letter(*first) && all_characters(rest),
        [] => false,
    }
}
