// Numbers and lines in texts: a number written in decimal, a length read, a text's first line and what follows it.
#![tactic(auto)]

ghost use Rattle.std.specs.Prelude.{◌≡◌, ◌+◌, ◌*◌, ◌-◌, ◌≤◌, length, drop};
ghost use Rattle.names.specs.Names.{digit, all_of};
ghost use Rattle.texts.specs.Decimal.{decimal, PutNumber};
ghost use Rattle.texts.specs.Lengths.{is_length, value, capped, length_read};
ghost use Rattle.texts.specs.LineFeeds.{to_line_feed, past_line_feed};

use signals::{Length, M};

// M + 1, which stands for every number above M.
const TOO_LONG: u32 = M + 1;

// Why a text is read as no length: it is not written as one, or it is above M.
#[derive(Clone, Copy, PartialEq, Eq, Debug)]
pub enum NotRead {
    NotALength,
    AboveM,
}

// The bytes before the first line feed; all of them when there is none.
pub fn first_line(text: &[u8]) -> &[u8]
    ensures { result.now ≡ to_line_feed text.now }
{
    slices::part_before(text, b'\n')
}

// The bytes after the first line feed; none when there is none.
pub fn after_line(text: &[u8]) -> &[u8]
    ensures { result.now ≡ past_line_feed text.now }
{
    slices::part_after(text, b'\n')
}

// Puts a number's decimal digits at the end of the array, and says where they begin.
fn last_digits(n: u32, text: &mut [u8; 10]) -> usize
    requires { length text.old ≡ 10 }
    ensures { (result ≤ 9) × (length text.new ≡ 10) × (drop result text.new ≡ decimal n) }
{
    let mut left = n / 10;
    let mut at: usize = 9;
    text[at] = b'0' + (n % 10) as u8;
    while 0 < left {
        at -= 1;
        text[at] = b'0' + (left % 10) as u8;
        left /= 10;
    }
    at
}

// Writes a number in decimal into the output at a place, nothing where it does not fit, and says how many digits it has.
pub fn put_number(out: &mut [u8], at: usize, n: u32) -> usize
    ensures { PutNumber out.old at n result out.new }
{
    let mut text = [0u8; 10];
    let from = last_digits(n, &mut text);
    slices::put(out, at, &text[from..]);
    10 - from
}

// Digits only.
fn all_digits(text: &[u8]) -> bool
    ensures { result ≡ all_of digit text.now }
{
    text.iter().all(|b| names::is_digit(*b))
}

// Written as a length is: decimal, without needless leading zeros.
#[tactic(auto, unfolding(crate::specs::Lengths::is_length))]
fn is_length(text: &[u8]) -> bool
    ensures { result ≡ is_length text.now }
{
    match text {
        [first, rest @ ..] => names::is_digit(*first)
            && (rest.is_empty() || *first != b'0')
            && all_digits(rest),
        [] => false,
    }
}

// One digit more, M + 1 for every number above M.
#[tactic(auto, unfolding(crate::specs::Lengths::capped))]
fn one_more(n: u32, b: u8) -> u32
    ensures { result ≡ capped (n * 10 + (b - 48)) }
{
    (u64::from(n) * 10 + u64::from(b.saturating_sub(b'0'))).min(u64::from(TOO_LONG)) as u32
}

// The number that digits write, M + 1 for every one above M.
fn ticks(text: &[u8]) -> u32
    ensures { result ≡ capped (value text.now) }
{
    text.iter().fold(0, |n, b| one_more(n, *b))
}

// Reads a text as a length.
#[tactic(auto, unfolding(crate::specs::Lengths::length_read, crate::specs::Lengths::capped))]
pub fn read_length(text: &[u8]) -> Result<Length, NotRead>
    ensures { result ≡ length_read text.now }
{
    if !is_length(text) {
        return Err(NotRead::NotALength);
    }
    let n = ticks(text);
    if M < n {
        return Err(NotRead::AboveM);
    }
    Ok(Length(n))
}
