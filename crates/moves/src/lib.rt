// The steps of the formula reader that read no sum: each changes a mark, and none makes a bad mark good.
#![tactic(auto)]

ghost use Rattle.std.specs.Prelude.{◌≡◌};
ghost use Rattle.marks.specs.Marks.{lent};
ghost use Rattle.openings.specs.Opening.{open_kind};
ghost use Rattle.moves.specs.Moves.{failed, strayed, begun, is_next, passed, expected};
ghost use Rattle.moves.specs.Moves.{length_passed, length_ticks};
ghost use Rattle.moves.specs.Moves.{stored_at, put_words, put_code, leaf_words, leaf_code};

use marks::{MOST_PARTS, Mark, larger, next};
use openings::{opening, opening_bytes, reach};
use tokens::{leaf_end, leaf_word, length_end, ticks};

// Makes a mark bad.
fn fail(m: &mut Mark)
    ensures { m.new ≡ failed m.old }
{
    m.ok = false;
}

// Makes a mark bad where no factor stands, after what is there of one.
fn stray(text: &[u8; 1024], bytes: usize, m: &mut Mark)
    ensures { m.new ≡ strayed (lent text.now bytes) m.old }
{
    let there = reach(text, bytes, m);
    m.at += there;
    fail(m);
}

// Passes what is next and begins a factor, and gives its kind; 0 where none is, the mark then staying.
pub fn begin(text: &[u8; 1024], bytes: usize, m: &mut Mark) -> u64
    ensures { (m.new ≡ begun (lent text.now bytes) m.old)
        × (result ≡ open_kind (lent text.now bytes) m.old) }
{
    let first = opening(text, bytes, m);
    m.at += opening_bytes(first);
    first
}

// Passes the byte `b` if it is next; 0, which stands for none, never is.
#[tactic(auto, unfolding(crate::specs::Moves::passed, crate::specs::Moves::is_next))]
pub fn pass(text: &[u8; 1024], bytes: usize, m: &mut Mark, b: u8) -> bool
    ensures { (m.new ≡ passed (lent text.now bytes) b m.old)
        × (result ≡ is_next (lent text.now bytes) b m.old) }
{
    let is_next = 0 < b && next(text, bytes, m) == b;
    if is_next {
        m.at += 1;
    }
    is_next
}

// Passes the byte `b`; where it is not next, the mark is made bad.
#[tactic(auto, unfolding(crate::specs::Moves::passed, crate::specs::Moves::expected))]
pub fn expect(text: &[u8; 1024], bytes: usize, m: &mut Mark, b: u8)
    ensures { m.new ≡ expected (lent text.now bytes) b m.old }
{
    if !pass(text, bytes, m, b) {
        fail(m);
    }
}

// Passes a length, and gives its ticks; 0 where none is next, the mark then made bad.
pub fn pass_length(text: &[u8; 1024], bytes: usize, m: &mut Mark) -> usize
    ensures { (m.new ≡ length_passed (lent text.now bytes) m.old)
        × (result ≡ length_ticks (lent text.now bytes) m.old) }
{
    let end = length_end(text, bytes, m);
    if 0 < end {
        let n = ticks(text, m.at, end);
        m.at = end;
        n
    } else {
        fail(m);
        0
    }
}

// Stores a code word, where its place is one of the first 32.
#[tactic(auto, unfolding(crate::specs::Moves::stored_at))]
fn store(code: &mut [u64; 32], place: usize, word: u64)
    ensures { code.new ≡ stored_at code.old place word }
{
    if place < MOST_PARTS {
        code[place] = word;
    }
}

// Puts a part's code word out, where the mark is good: of more than 32 parts only the first are stored, and up to 1,024 are counted.
#[tactic(auto, unfolding(crate::specs::Moves::is_counted, crate::specs::Moves::put_words, crate::specs::Moves::put_code))]
pub fn put(code: &mut [u64; 32], m: &mut Mark, word: u64, deep: usize, ticks: usize)
    ensures { (m.new ≡ put_words m.old deep ticks)
        × (code.new ≡ put_code m.old word code.old) }
{
    if m.ok {
        store(code, m.parts, word);
        if m.parts < 1024 {
            m.parts += 1;
            m.deepest = larger(m.deepest, deep);
            m.longest = larger(m.longest, ticks);
        }
    }
}

// Passes 0, 1 or a name and puts its part out; where none is next, the mark is made bad, after what is there of a factor.
#[tactic(auto, unfolding(crate::specs::Moves::leaf_words, crate::specs::Moves::leaf_code))]
pub fn leaf(text: &[u8; 1024], bytes: usize, code: &mut [u64; 32], m: &mut Mark, deep: usize)
    ensures { (m.new ≡ leaf_words (lent text.now bytes) m.old deep)
        × (code.new ≡ leaf_code (lent text.now bytes) m.old code.old) }
{
    let end = leaf_end(text, bytes, m);
    if 0 < end {
        let word = leaf_word(text, bytes, m, end);
        m.at = end;
        put(code, m, word, deep, 0);
    } else {
        stray(text, bytes, m);
    }
}
