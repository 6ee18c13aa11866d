// What begins a factor of a formula at a mark of its text: a prefix, an open bracket, or a block's word with its bracket; and where none
// stands, how much is there of one.
#![tactic(auto)]

ghost use Rattle.std.specs.Prelude.{◌≡◌, ◌==◌, drop, length, take_while, zip};
ghost use Rattle.grammar.specs.Reader.{prefix_kind, word_reach, block_kind};
ghost use Rattle.marks.specs.Marks.{lent};
ghost use Rattle.openings.specs.Opening.{open_kind, open_bytes, reach_mark};

use marks::{Mark, kind, next, rest};

// The kind of !, ^ and ~; 0 for any other byte.
#[tactic(auto, unfolding(grammar::specs::Reader::prefix_kind))]
fn prefix_kind(b: u8) -> u64
    ensures { result ≡ prefix_kind b }
{
    match b {
        b'!' => kind::NOT,
        b'^' => kind::RISING,
        b'~' => kind::FALLING,
        _ => 0,
    }
}

// How many bytes of the word stand at the front.
fn shared_bytes(bytes: &[u8], word: &[u8]) -> usize
    ensures { result ≡ length (take_while (λ x. x.0 == x.1) (zip bytes.now word.now)) }
{
    bytes.iter().zip(word).take_while(|(a, b)| a == b).count()
}

// The kind of the block whose word and bracket are at the front; 0 where none are.
#[tactic(auto, unfolding(grammar::specs::Reader::block_kind))]
fn block_kind(bytes: &[u8]) -> u64
    ensures { result ≡ block_kind bytes.now }
{
    if bytes.starts_with(b"SR(") {
        kind::SR
    } else if bytes.starts_with(b"RS(") {
        kind::RS
    } else if bytes.starts_with(b"TON(") {
        kind::TON
    } else if bytes.starts_with(b"TOF(") {
        kind::TOF
    } else if bytes.starts_with(b"TP(") {
        kind::TP
    } else {
        0
    }
}

// The kind of what is next and begins a factor: !, ^, ~, an open bracket, or a block's word and bracket; 0 where none is.
pub fn opening(text: &[u8; 1024], bytes: usize, m: &Mark) -> u64
    ensures { result ≡ open_kind (lent text.now bytes) m.now }
{
    match next(text, bytes, m) {
        b'(' => kind::BRACKET,
        b'A'..=b'Z' => block_kind(rest(text, bytes, m.at)),
        b => prefix_kind(b),
    }
}

// How many bytes such an opening has.
#[tactic(auto, unfolding(crate::specs::Opening::open_bytes, grammar::specs::Reader::block_bytes))]
pub fn opening_bytes(first: u64) -> usize
    ensures { result ≡ open_bytes first }
{
    match first {
        0 => 0,
        1..=kind::FALLING | kind::BRACKET => 1,
        kind::TON | kind::TOF => 4,
        _ => 3,
    }
}

// How many bytes are there of a block's word and bracket.
fn word_reach(bytes: &[u8]) -> usize
    ensures { result ≡ word_reach bytes.now }
{
    shared_bytes(bytes, b"SR(")
        .max(shared_bytes(bytes, b"RS("))
        .max(shared_bytes(bytes, b"TON("))
        .max(shared_bytes(bytes, b"TOF("))
        .max(shared_bytes(bytes, b"TP("))
}

// Where no factor stands at the mark, how many bytes are there of one: 8 of a name that is too long, else those of a block's word and
// bracket.
pub fn reach(text: &[u8; 1024], bytes: usize, m: &Mark) -> usize
    ensures { result ≡ reach_mark (lent text.now bytes) m.now }
{
    if !m.ok {
        0
    } else if names::is_letter(next(text, bytes, m)) {
        names::LONGEST
    } else {
        word_reach(rest(text, bytes, m.at))
    }
}
