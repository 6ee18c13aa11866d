// Finding a signal among those of a sheet, by its name.
#![tactic(auto)]

ghost use Rattle.std.specs.Prelude.{◌≡◌, drop};
ghost use Rattle.format.specs.Reading.{signal_size};
ghost use Rattle.format.specs.Calls.{place_among};

use format::Place;

// Where on a sheet the first signal stands.
pub const FIRST_AT: usize = 7;

// Where in a signal its word count and its words stand, and the bytes of a word.
pub const WORD_COUNT_AT: usize = 8;

pub const WORDS_AT: usize = 10;

pub const WORD_BYTES: usize = 4;

// The number of bytes of the signal at the front of these bytes, by its word count.
pub fn signal_size(rest: &[u8]) -> usize
    ensures { result ≡ signal_size rest.now }
{
    WORDS_AT + WORD_BYTES * slices::read16(rest, WORD_COUNT_AT)
}

// Where the words of the signal with this name stand, among the first `count` signals, as far as they are whole.
pub fn find(sheet: &[u8], count: usize, name: &[u8]) -> Place
    ensures { result ≡ place_among name.now 7 count (drop 7 sheet.now) }
{
    if sheet.len() < FIRST_AT {
        return Place::Refused(13);
    }
    let mut at = FIRST_AT;
    for _ in 0..count {
        let rest = &sheet[at..];
        if rest.len() < WORDS_AT {
            return Place::Refused(13);
        }
        let size = signal_size(rest);
        if rest.len() < size {
            return Place::Refused(13);
        }
        if name_fields::holds(&rest[..WORD_COUNT_AT], name) {
            return Place::At {
                start: at + WORDS_AT,
                count: size - WORDS_AT,
            };
        }
        at += size;
    }
    Place::Refused(13)
}
