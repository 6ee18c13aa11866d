// Where a list stands, and its words read there: on a sheet, in the work area, or in one of two lists that are lent beside them.
#![tactic(auto)]

ghost use Rattle.std.specs.Prelude.{◌≡◌, ◌<◌, length};
ghost use Rattle.slices.specs.Bytes.{Bytes, Words};
ghost use Rattle.sources.specs.Sources.{next_word, sheet_word, cursor_at, start_of, past_on, apart_from};

use reading::{NEVER, Step};
use signals::Date;

// What a list stands in.
#[derive(Clone, Copy)]
pub enum Memory {
    Sheet,
    Work,
    Left,
    Right,
}

// A list that stands somewhere: its first byte on the sheet, or its first word elsewhere, and how many words it has, as far as they are
// there.
#[derive(Clone, Copy)]
pub struct Source {
    pub memory: Memory,
    pub at: u32,
    pub count: u32,
}

// What lists stand in beside the work area: a sheet, and two rows of words that are lent. The ghost fields say what the types of its slices
// say: its bytes and words fit.
#[derive(Clone, Copy)]
pub struct Lent<'a> {
    pub sheet: &'a [u8],
    pub left: &'a [u32],
    pub right: &'a [u32],
    ghost bytes: { Bytes sheet.now },
    ghost left_words: { Words left.now },
    ghost right_words: { Words right.now },
}

// Stands for the next word where none is left: its date is above every sum of a date and a length.
pub const NONE: u64 = 17179869180;

// The word at a place of words.
#[tactic(auto, unfolding(crate::specs::Sources::next_word))]
fn word_in(words: &[u32], at: usize) -> u64
    ensures { result ≡ next_word words.now at }
{
    words.get(at).map_or(NONE, |word| u64::from(*word))
}

// The word whose bytes begin at a place of a sheet.
#[tactic(auto, using(crate::proofs::SourceWords::bytes_whole), unfolding(crate::specs::Sources::sheet_word))]
fn word_on(sheet: &[u8], at: usize) -> u64
    requires { at < 1099511627776 }
    ensures { result ≡ sheet_word sheet.now at }
{
    if sheet.len() < at + 4 {
        return NONE;
    }
    u64::from(u32::from_le_bytes([sheet[at], sheet[at + 1], sheet[at + 2], sheet[at + 3]]))
}

// None of the places that the list claims is among so many words of the work area from a place on.
pub fn apart(list: Source, at: u32, room: u32) -> bool
    ensures { result ≡ apart_from list at room }
{
    match list.memory {
        Memory::Work => {
            u64::from(list.at) + u64::from(list.count) <= u64::from(at)
                || u64::from(at) + u64::from(room) <= u64::from(list.at)
        }
        Memory::Sheet | Memory::Left | Memory::Right => true,
    }
}

// A reader of a list where it stands: the low 32 bits of the next word, its date, which is NEVER where none is left, the last word passed,
// whose low bit is the value held, and how many words are passed. Its fields leave no padding between them, which would be copied too.
#[derive(Clone, Copy)]
pub struct Cursor {
    pub word: u32,
    pub date: u32,
    pub last: u64,
    pub passed: usize,
}

// What passing a date finds, and the reader past it.
#[derive(Clone, Copy)]
pub struct Passed {
    pub step: Step,
    pub next: Cursor,
}

impl<'a> Lent<'a> {
    // Any slices are lent so: what the ghost fields say, their types say.
    pub fn new(sheet: &'a [u8], left: &'a [u32], right: &'a [u32]) -> Self
        ensures { (result.sheet.now ≡ sheet.now) × (result.left.now ≡ left.now) × (result.right.now ≡ right.now) }
    {
        Lent { sheet, left, right }
    }
}

impl Lent<'_> {
    ghost use Rattle.sources.specs.Lending.{list_in};

    // The next word of a list of which so many are passed, or that stands for none.
    pub fn next_word(self, work: &[u32], list: Source, passed: usize) -> u64
        ensures { result ≡ next_word (list_in self.entry work.now list) passed }
    {
        if list.count as usize <= passed {
            return NONE;
        }
        let at = list.at as usize;
        match list.memory {
            Memory::Sheet => word_on(self.sheet, at + 4 * passed),
            Memory::Work => word_in(work, at + passed),
            Memory::Left => word_in(self.left, at + passed),
            Memory::Right => word_in(self.right, at + passed),
        }
    }

    // The reader of a list of which so many words are passed, the last of them given.
    pub fn cursor_at(self, work: &[u32], list: Source, passed: usize, last: u64) -> Cursor
        ensures { result ≡ cursor_at (list_in self.entry work.now list) passed last }
    {
        let word = self.next_word(work, list, passed);
        Cursor {
            word: (word % 4294967296) as u32,
            date: (word / 4 % 4294967296) as u32,
            last,
            passed,
        }
    }

    // The reader past the first word.
    pub fn start(self, work: &[u32], list: Source) -> Cursor
        ensures { result ≡ start_of (list_in self.entry work.now list) }
    {
        let first = self.next_word(work, list, 0);
        self.cursor_at(work, list, 1, first)
    }

    // Past a date: a word of that date is passed, and only then the next one is read.
    pub fn past(self, work: &[u32], list: Source, at: Cursor, date: Date) -> Passed
        ensures { result ≡ past_on (list_in self.entry work.now list) at date.0 }
    {
        let held = at.last % 2 == 1;
        if at.date == date.0 {
            let passed = at.passed % 4294967296 + 1;
            return Passed {
                step: Step {
                    before: held,
                    at: at.word / 2 % 2 == 1,
                    after: at.word % 2 == 1,
                    passed,
                },
                next: self.cursor_at(work, list, passed, u64::from(at.word)),
            };
        }
        Passed {
            step: Step {
                before: held,
                at: held,
                after: held,
                passed: at.passed,
            },
            next: at,
        }
    }

    // How many words the list has.
    #[tactic(auto, using(crate::proofs::SourceWords::length_on_sheet))]
    pub fn length_of(self, work: &[u32], list: Source) -> usize
        ensures { result ≡ length (list_in self.entry work.now list) }
    {
        let count = list.count as usize;
        let at = list.at as usize;
        match list.memory {
            Memory::Sheet => count.min(self.sheet.len().saturating_sub(at) / 4),
            Memory::Work => count.min(work.len().saturating_sub(at)),
            Memory::Left => count.min(self.left.len().saturating_sub(at)),
            Memory::Right => count.min(self.right.len().saturating_sub(at)),
        }
    }
}

// The reader of a list that is the whole of a slice, so many of its words passed, the last of them given: nothing is to be chosen where a
// word is read.
pub fn reader_in(words: &[u32], passed: usize, last: u64) -> Cursor
    ensures { result ≡ cursor_at words.now passed last }
{
    if passed < words.len() {
        let word = words[passed];
        return Cursor {
            word,
            date: word / 4,
            last,
            passed,
        };
    }
    Cursor {
        word: 4294967292,
        date: NEVER,
        last,
        passed,
    }
}

// That past the first word of a slice.
pub fn start_in(words: &[u32]) -> Cursor
    ensures { result ≡ start_of words.now }
{
    if 0 < words.len() {
        return reader_in(words, 1, words[0] as u64);
    }
    reader_in(words, 1, 17179869180)
}

// Past a date in a slice: a word of that date is passed, and only then the next one is read.
pub fn past_in(words: &[u32], at: Cursor, date: u32) -> Passed
    ensures { result ≡ past_on words.now at date }
{
    let held = at.last % 2 == 1;
    if at.date == date {
        let word = at.word;
        let count = at.passed % 4294967296 + 1;
        return Passed {
            step: Step {
                before: held,
                at: word / 2 % 2 == 1,
                after: word % 2 == 1,
                passed: count,
            },
            next: reader_in(words, count, word as u64),
        };
    }
    Passed {
        step: Step {
            before: held,
            at: held,
            after: held,
            passed: at.passed,
        },
        next: Cursor {
            word: at.word,
            date: at.date,
            last: at.last,
            passed: at.passed,
        },
    }
}
