// The page that the program `uptime` prints for what it reads: a line for each stretch, then the total, or the line of a refusal.
#![tactic(auto)]

ghost use Rattle.std.specs.Prelude.{◌≤◌, ◌≡◌, [], ◌∷◌, length, take};
ghost use Rattle.signals.specs.Words.{most_words};
ghost use Rattle.signals.specs.declared.Verdict.TheVariants.{Refused};
ghost use Rattle.texts.specs.Decimal.{decimal};
ghost use Rattle.verdict_line.specs.Line.{line_of};
ghost use Rattle.verdict_line.specs.Written.{Filled};
ghost use Rattle.verdict_line.specs.Putting.{pushed_all};
ghost use Rattle.uptime_page.specs.Printing.{most_bytes, PageOfInput};
ghost use Rattle.uptime_page.specs.Words.{word_parts, words_page, horizon_in, page_on};

use inputs::BYTES;
use signals::{M, Verdict, WORDS};
use stretches::UpTime;
use verdict_line::Text;

// No page has more bytes: 128 lines of two numbers of ten digits, and the total's.
pub const PAGE: usize = 2833;

// A page: as many bytes as the count says, those past them being zeros.
pub type Page = Text<PAGE>;

// Pushes a stretch's line.
fn push_line(page: &mut Page, first: u32, ticks: u32)
    ensures { take page.new.«count» page.new.«bytes»
        ≡ pushed_all most_bytes (take page.old.«count» page.old.«bytes»)
        (decimal first ∷ (32 ∷ []) ∷ decimal ticks ∷ (10 ∷ []) ∷ []) }
{
    page.push_number(first);
    page.push(b" ");
    page.push_number(ticks);
    page.push(b"\n");
}

// Pushes the lines of words, two a line.
fn push_lines(page: &mut Page, words: &[u32])
    ensures { take page.new.«count» page.new.«bytes»
        ≡ pushed_all most_bytes (take page.old.«count» page.old.«bytes») (word_parts words.now) }
{
    for pair in words.chunks_exact(2) {
        push_line(page, pair[0], pair[1]);
    }
}

// The page of stretches, told by their words, and their total.
fn page_for(words: &[u32], total: u32) -> Page
    requires { length words.now ≤ most_words }
    ensures { Filled most_bytes (words_page words.now total) result.«bytes» result.«count» }
{
    let mut page = Page::new();
    push_lines(&mut page, words);
    page.push(b"total ");
    page.push_number(total);
    page.push(b"\n");
    page
}

// The page of a refusal: its line.
fn refusal(fault: u32) -> Page
    ensures { Filled most_bytes (line_of (Refused fault)) result.«bytes» result.«count» }
{
    let line = verdict_line::line_for(Verdict::Refused(fault));
    let mut page = Page::new();
    page.push(line.as_slice());
    page
}

// The horizon that a text writes; M + 1, above every horizon, where it writes none.
fn horizon(text: &[u8]) -> u32
    ensures { result ≡ horizon_in text.now }
{
    texts::read_length(text).map_or(M + 1, |length| length.0)
}

// The page of a name's signal on a sheet before a horizon. There is room for the words of every list's stretches, so that it is never
// refused with 7.
fn page_on(sheet: &[u8], name: &[u8], h: u32) -> Page
    ensures { Filled most_bytes (page_on sheet.now name.now h) result.«bytes» result.«count» }
{
    let mut words = [0u32; WORDS];
    match uptimes::uptime(sheet, name, h, &mut words) {
        UpTime::Told { count, total } => page_for(&words[..count], total),
        UpTime::Refused(fault) => refusal(fault),
    }
}

// The page that the first n bytes of an input make: the name, the horizon and the sheet. The type of the input has the bytes that count,
// and the page has room for every one.
pub fn page_of(input: &[u8; BYTES], n: usize) -> Page
    ensures { PageOfInput input.now n result.«bytes» result.«count» }
{
    let name = inputs::first_line(input, n);
    let h = horizon(inputs::second_line(input, n));
    let sheet = inputs::sheet(input, n);
    page_on(sheet, name, h)
}
