// Words of a list, their dates and values: the word of a date, whether it changes something, dates added and compared.
#![tactic(auto)]

ghost use Rattle.std.specs.Prelude.{◌≡◌, min};
ghost use Rattle.signals.specs.Signal.{num};
ghost use Rattle.signals.specs.Answers.{sum_of};
ghost use Rattle.signals.specs.Words.{word, changes_nothing};

use signals::{Date, Length, M, Sum};

// Date plus length: faults 9, then 8.
pub fn date_plus_length(date: Date, length: Length) -> Sum
    ensures { result ≡ sum_of date.0 length.0 }
{
    if M < date.0 {
        return Sum::Refused(9);
    }
    if M < length.0 {
        return Sum::Refused(8);
    }
    let sum = date.0 + length.0;
    if M < sum {
        Sum::PastM(sum)
    } else {
        Sum::On(Date(sum))
    }
}

// The word of a date and its two values, in 64 bits so that it is exact for every date; up to M it fits in 32.
#[tactic(auto, unfolding(signals::specs::Words::word))]
pub fn word_of(date: Date, at: bool, after: bool) -> u64
    ensures { result ≡ word date.0 at after }
{
    4 * u64::from(date.0) + 2 * u64::from(at) + u64::from(after)
}

// Both values of the word equal the value before it.
#[tactic(auto, using(crate::proofs::Unchanged::both_up, crate::proofs::Unchanged::both_down))]
pub fn changes_nothing(before: bool, w: u32) -> bool
    ensures { result ≡ changes_nothing before w }
{
    w % 4 == if before { 3 } else { 0 }
}

// The earlier of two dates, or NEVER where both are: the loops keep them as numbers.
pub fn earlier(a: u32, b: u32) -> u32
    ensures { result ≡ min a b }
{
    a.min(b)
}

// A value as the index of its row or column in a table: 0 for down, 1 for up.
pub fn index(v: bool) -> usize
    ensures { result ≡ num v }
{
    usize::from(v)
}
