// Reading: the reader that goes along a list's words.
#![tactic(auto)]

ghost use Rattle.std.specs.Prelude.{◌≡◌, ◌-◌};
ghost use Rattle.signals.specs.Passing.{held_value};
ghost use Rattle.reading.specs.Reading.{next_date, held_on, step_past};
ghost use Rattle.reading.specs.Along.{along_to};

use signals::Date;

// The date where no word is left: above every sum of a date and a length.
pub const NEVER: u32 = 4294967295;

// What passing a date finds: the values before, at and after it, and the number of words passed.
#[derive(Clone, Copy)]
pub struct Step {
    pub before: bool,
    pub at: bool,
    pub after: bool,
    pub passed: usize,
}

// The value after the words passed.
#[tactic(auto, unfolding(signals::specs::Passing::held_value, signals::specs::Words::value_after))]
fn held_value_at(words: &[u32], passed: usize) -> bool
    ensures { result ≡ held_value words.now passed }
{
    words
        .get(passed.saturating_sub(1))
        .is_some_and(|w| w % 2 == 1)
}

// The date of the next word.
#[tactic(auto, unfolding(crate::specs::Reading::next_date, signals::specs::Words::date_of))]
fn next_date_at(words: &[u32], passed: usize) -> Date
    ensures { result.0 ≡ next_date words.now passed }
{
    Date(words.get(passed).map_or(NEVER, |w| w / 4))
}

// A date without a word: the value held goes on.
fn held_on(before: bool, passed: usize) -> Step
    ensures { result ≡ held_on before passed }
{
    Step {
        before,
        at: before,
        after: before,
        passed,
    }
}

// Past a date: a word of that date is passed. The value before it is read where it is given, so that it costs nothing where a caller
// leaves it aside; and at each of the other two, so that it is not tested again to be there where a word is left. (By a
// `match` with a guard a column of moments takes a quarter longer.)
fn past_at(words: &[u32], passed: usize, date: Date) -> Step
    ensures { result ≡ step_past words.now passed date.0 }
{
    if let Some(w) = words.get(passed) {
        if w / 4 == date.0 {
            return Step {
                before: held_value_at(words, passed),
                at: w / 2 % 2 == 1,
                after: w % 2 == 1,
                passed: passed + 1,
            };
        }
        return held_on(held_value_at(words, passed), passed);
    }
    held_on(held_value_at(words, passed), passed)
}

// A reader goes along a list's words and knows how many it has passed.
#[derive(Clone, Copy)]
pub struct Reader<'a> {
    pub words: &'a [u32],
    pub passed: usize,
}

// A reader that has passed so many words.
pub fn reader_at<'a>(words: &'a [u32], passed: usize) -> Reader<'a>
    ensures { (result.words ≡ words.entry) × (result.passed ≡ passed) }
{
    Reader { words, passed }
}

impl<'a> Reader<'a> {
    // How many words are passed.
    pub fn count(self) -> usize
        ensures { result ≡ self.entry.passed }
    {
        self.passed
    }

    // The value after the words passed.
    pub fn held(self) -> bool
        ensures { result ≡ held_value self.entry.words.now self.entry.passed }
    {
        held_value_at(self.words, self.passed)
    }

    // The date of the next word.
    pub fn next_date(self) -> Date
        ensures { result.0 ≡ next_date self.entry.words.now self.entry.passed }
    {
        next_date_at(self.words, self.passed)
    }

    // Past a date.
    pub fn past(self, date: Date) -> Step
        ensures { result ≡ step_past self.entry.words.now self.entry.passed date.0 }
    {
        past_at(self.words, self.passed, date)
    }
}

// The date of the next word.
pub fn next_date(words: &[u32], passed: usize) -> Date
    ensures { result.0 ≡ next_date words.now passed }
{
    reader_at(words, passed).next_date()
}

// Past a date: a word of that date is passed.
pub fn past(words: &[u32], passed: usize, date: Date) -> Step
    ensures { result ≡ step_past words.now passed date.0 }
{
    reader_at(words, passed).past(date)
}

// Along the words: those dated before a date are passed, so that the next is not dated before it.
pub fn along(words: &[u32], passed: usize, date: Date) -> usize
    ensures { result ≡ along_to words.now passed date.0 }
{
    let mut count = passed;
    let mut next = next_date(words, count);
    while next.0 < date.0 {
        let step = past(words, count, next);
        count = step.passed;
        next = next_date(words, count);
    }
    count
}
