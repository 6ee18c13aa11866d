// What stands in the text of a formula at a mark: a length and its ticks, a constant or a name and its code word.
#![tactic(auto)]

ghost use Rattle.std.specs.Prelude.{◌≡◌, ◌+◌, ◌-◌, min, length, drop, take_while};
ghost use Rattle.grammar.specs.Reader.{run};
ghost use Rattle.texts.specs.Lengths.{capped};
ghost use Rattle.marks.specs.Marks.{lent, next_mark};
ghost use Rattle.tokens.specs.Tokens.{class_of, length_end, leaf_end, leaf_word, number_at};

use marks::{Mark, kind, next, rest};

// M + 1, which stands for every length above M.
const TOO_LONG: usize = signals::M as usize + 1;

// A byte of a name, or of a length.
#[tactic(auto, unfolding(names::specs::Names::name_byte))]
fn belongs(letters: bool, b: u8) -> bool
    ensures { result ≡ class_of letters b }
{
    (letters && names::is_letter(b)) || names::is_digit(b)
}

// How many bytes at the front belong.
fn run(letters: bool, bytes: &[u8]) -> usize
    ensures { result ≡ length (take_while (class_of letters) bytes.now) }
{
    bytes.iter().take_while(|b| belongs(letters, **b)).count()
}

// The place after the run of such bytes from `at` on.
fn run_end(text: &[u8; 1024], bytes: usize, at: usize, letters: bool) -> usize
    ensures { result ≡ at + run (class_of letters) (drop at (lent text.now bytes)) }
{
    at + run(letters, rest(text, bytes, at))
}

// The place after the length that is next; 0 where none is.
#[tactic(auto, unfolding(crate::specs::Tokens::length_end))]
pub fn length_end(text: &[u8; 1024], bytes: usize, m: &Mark) -> usize
    ensures { result ≡ length_end (lent text.now bytes) m.now }
{
    let at = m.at;
    match next(text, bytes, m) {
        b'0' => at + 1,
        first if names::is_digit(first) => run_end(text, bytes, at, false),
        _ => 0,
    }
}

// The number that the bytes from `from` up to `to` write, M + 1 for every one above M.
pub fn ticks(text: &[u8; 1024], from: usize, to: usize) -> usize
    ensures { result ≡ capped (number_at text.now from (min to 1024 - from)) }
{
    let mut n = 0;
    for i in from..to.min(1024) {
        n = (n * 10 + usize::from(text[i].saturating_sub(b'0'))).min(TOO_LONG);
    }
    n
}

// The place after the constant or name that is next; 0 where none is.
#[tactic(auto, unfolding(crate::specs::Tokens::leaf_end))]
pub fn leaf_end(text: &[u8; 1024], bytes: usize, m: &Mark) -> usize
    ensures { result ≡ leaf_end (lent text.now bytes) m.now }
{
    let at = m.at;
    match next(text, bytes, m) {
        b'0' | b'1' => at + 1,
        b if names::is_letter(b) => {
            let end = run_end(text, bytes, at, true);
            if end - at <= names::LONGEST { end } else { 0 }
        }
        _ => 0,
    }
}

// The code word of a constant or name that is next and ends at `end`, or at 1,024 where that is less.
#[tactic(auto, unfolding(crate::specs::Tokens::leaf_word, grammar::specs::Formula::name_word))]
pub fn leaf_word(text: &[u8; 1024], bytes: usize, m: &Mark, end: usize) -> u64
    ensures { result ≡ leaf_word (next_mark (lent text.now bytes) m.now)
        (min m.now.at 1024) (min end 1024) }
{
    match next(text, bytes, m) {
        b'0' => kind::DOWN,
        b'1' => kind::UP,
        _ => {
            let from = m.at.min(1024);
            let count = end.min(1024).saturating_sub(from);
            (from as u64 * 16 + count as u64) * 16 + kind::NAME
        }
    }
}
