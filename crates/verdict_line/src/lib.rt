// The line of a claim's answer: holds, fails at k or fails after k with how the failing run ends, or refused n; with its line feed.
#![tactic(auto)]

ghost use Rattle.std.specs.Prelude.{◌≡◌, [], ◌∷◌, take};
ghost use Rattle.texts.specs.Decimal.{decimal};
ghost use Rattle.verdict_line.specs.Written.{longest, LineOfVerdict};
ghost use Rattle.verdict_line.specs.Putting.{pushed_all, end_parts, answer_parts};

mod text;

use signals::{End, Verdict};
pub use text::Text;

// The bytes of the longest line, "fails after 1073741822 until before 1073741823" with its line feed.
pub const LONGEST: usize = 47;

// A line: as many bytes as the count says, those past them being zeros.
pub type Line = Text<LONGEST>;

// Pushes a text and a number in decimal.
fn push_words(line: &mut Line, text: &[u8], n: u32)
    ensures { take line.new.«count» line.new.«bytes»
        ≡ pushed_all longest (take line.old.«count» line.old.«bytes») (text.now ∷ decimal n ∷ []) }
{
    line.push(text);
    line.push_number(n);
}

// Pushes how a failing run ends.
#[tactic(auto, unfolding(crate::specs::Line::until_text, crate::specs::Line::until_before_text, crate::specs::Line::for_good_text))]
fn push_end(line: &mut Line, end: End)
    ensures { take line.new.«count» line.new.«bytes» ≡ pushed_all longest (take line.old.«count» line.old.«bytes») (end_parts end) }
{
    match end {
        End::At(k) => push_words(line, b" until ", k),
        End::Before(k) => push_words(line, b" until before ", k),
        End::Never => line.push(b" for good"),
    }
}

// Pushes the first failing moment, a text and its number, and how the failing run ends.
fn push_fails(line: &mut Line, text: &[u8], k: u32, end: End)
    ensures { take line.new.«count» line.new.«bytes»
        ≡ pushed_all longest (take line.old.«count» line.old.«bytes») (text.now ∷ decimal k ∷ end_parts end) }
{
    push_words(line, text, k);
    push_end(line, end);
}

// Pushes the line of a claim's answer, all but its line feed.
fn push_answer(line: &mut Line, verdict: Verdict)
    ensures { take line.new.«count» line.new.«bytes» ≡ pushed_all longest (take line.old.«count» line.old.«bytes») (answer_parts verdict) }
{
    match verdict {
        Verdict::Holds => line.push(b"holds"),
        Verdict::FailsAt(k, end) => push_fails(line, b"fails at ", k, end),
        Verdict::FailsAfter(k, end) => push_fails(line, b"fails after ", k, end),
        Verdict::Refused(n) => push_words(line, b"refused ", n),
    }
}

// The line of a claim's answer.
pub fn line_for(verdict: Verdict) -> Line
    ensures { LineOfVerdict verdict result.«bytes» result.«count» }
{
    let mut line = Line::new();
    push_answer(&mut line, verdict);
    line.push(b"\n");
    line
}
