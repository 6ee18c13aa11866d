// What a program takes from its input: two lines, and the sheet after them.
#![tactic(auto)]

ghost use Rattle.std.specs.Prelude.{◌≡◌, length, take, replicate};
ghost use Rattle.inputs.specs.Input.{limit, counted, first_line, second_line, sheet_in, PartOfInput};

// The most bytes of the input that count.
pub const BYTES: usize = 65536;

// A buffer for the input: zeros, as many as bytes count.
pub fn buffer() -> [u8; BYTES]
    ensures value { result ≡ replicate limit 0 }
    ensures limit_value { limit ≡ length result }
{
    [0; BYTES]
}

// The first n bytes of an input, or all of it. Its type has the bytes that count.
fn first(input: &[u8; BYTES], n: usize) -> &[u8]
    ensures { PartOfInput counted input.now n result.now }
{
    &input[..n.min(BYTES)]
}

// The first line of the first n bytes of an input.
pub fn first_line(input: &[u8; BYTES], n: usize) -> &[u8]
    ensures { PartOfInput first_line input.now n result.now }
{
    texts::first_line(first(input, n))
}

// Their second line; nothing when there is none.
pub fn second_line(input: &[u8; BYTES], n: usize) -> &[u8]
    ensures { PartOfInput second_line input.now n result.now }
{
    let text = first(input, n);
    let after = texts::after_line(text);
    texts::first_line(after)
}

// What follows these: the sheet.
pub fn sheet(input: &[u8; BYTES], n: usize) -> &[u8]
    ensures { PartOfInput sheet_in input.now n result.now }
{
    let text = first(input, n);
    let after = texts::after_line(text);
    texts::after_line(after)
}
