// Names as a sheet holds them: compared, and read from a field of bytes.
#![tactic(auto)]

ghost use Rattle.std.specs.Prelude.{◌≡◌, ◌==◌, length, take_while, zip};
ghost use Rattle.format.specs.Names.{same, zeros, unpadded, field_fits};

// How many bytes at the front are shared. It ends at the first that differs.
fn shared_bytes(a: &[u8], b: &[u8]) -> usize
    ensures { result ≡ length (take_while (λ x. x.0 == x.1) (zip a.now b.now)) }
{
    a.iter().zip(b).take_while(|(x, y)| x == y).count()
}

// Two byte strings are alike.
#[tactic(auto, using(crate::proofs::Holding::same_counted))]
pub fn alike(a: &[u8], b: &[u8]) -> bool
    ensures { result ≡ same a.now b.now }
{
    a.len() == b.len() && shared_bytes(a, b) == a.len()
}

// Every byte is zero.
fn all_zero(s: &[u8]) -> bool
    ensures { result ≡ zeros s.now }
{
    s.iter().all(|b| *b == 0)
}

// The name in a name field: the part before the first zero byte.
pub fn name_in(field: &[u8]) -> &[u8]
    ensures { result.now ≡ unpadded field.now }
{
    slices::part_before(field, 0)
}

// A name field holds this name: the part before its first zero byte is the name, which is not cut out to be compared. The names of a sheet
// are compared two by two, and mostly differ at once, so no call is made that compares more.
#[tactic(auto, using(crate::proofs::Holding::holds_counted))]
pub fn holds(field: &[u8], name: &[u8]) -> bool
    ensures { result ≡ same (unpadded field.now) name.now }
{
    shared_bytes(name, field) == name.len()
        && field.get(name.len()).is_none_or(|b| *b == 0)
        && !name.contains(&0)
}

// A name field: a name, then zero bytes.
#[tactic(auto, using(crate::proofs::Holding::fits_is, format::proofs::Steps::unpadded_within))]
pub fn field_fits(field: &[u8]) -> bool
    ensures { result ≡ field_fits field.now }
{
    let name = name_in(field);
    names::well_named(name) && all_zero(&field[name.len()..])
}
