// Where the reader of a formula is: the next byte, and the fault of a text that was read to its end. The text is lent as the first
// bytes of an array of 1,024 and the mark is lent too, so that a reader that calls another holds neither on the stack.
#![tactic(auto)]

pub mod kind;

ghost use Rattle.std.specs.Prelude.{◌≡◌, drop, max};
ghost use Rattle.marks.specs.Marks.{lent, next_mark, mark_fault};

// Whether all is well, the bytes passed, the parts put out, and the largest depth and length of a part.
#[derive(Clone, Copy)]
pub struct Mark {
    pub ok: bool,
    pub at: usize,
    pub parts: usize,
    pub deepest: usize,
    pub longest: usize,
}

// The most parts that a formula has, the largest depth, and M, the largest length.
pub const MOST_PARTS: usize = 32;

const MOST_DEPTH: usize = 16;

const MOST_LENGTH: usize = signals::M as usize;

// The next byte; 0 at the end and for a bad mark.
#[tactic(auto, unfolding(crate::specs::Marks::next_mark, crate::specs::Marks::lent))]
pub fn next(text: &[u8; 1024], bytes: usize, m: &Mark) -> u8
    ensures { result ≡ next_mark (lent text.now bytes) m.now }
{
    if m.ok && m.at < bytes && m.at < 1024 {
        text[m.at]
    } else {
        0
    }
}

// The bytes of the text from the place on.
pub fn rest(text: &[u8; 1024], bytes: usize, at: usize) -> &[u8]
    ensures { result.now ≡ drop at (lent text.now bytes) }
{
    let end = bytes.min(1024);
    &text[at.min(end)..end]
}

// The larger of two numbers.
pub fn larger(a: usize, b: usize) -> usize
    ensures { result ≡ max a b }
{
    a.max(b)
}

// The fault of a text of so many bytes that was read up to the mark: 11, 8, 12, 0 for none.
#[tactic(auto, unfolding(crate::specs::Marks::mark_fault))]
pub fn fault_of(m: &Mark, bytes: usize) -> u32
    ensures { result ≡ mark_fault m.now bytes }
{
    if !m.ok || m.at < bytes {
        11
    } else if MOST_LENGTH < m.longest {
        8
    } else if MOST_PARTS < m.parts || MOST_DEPTH < m.deepest {
        12
    } else {
        0
    }
}
