// Dates, lengths, and the answers that the crates above share.
#![tactic(auto)]

// The largest date and the largest length.
pub const M: u32 = 1073741823;

// The most words that a list has.
pub const WORDS: usize = 256;

// A date counts ticks from the start.
#[derive(Clone, Copy)]
pub struct Date(pub u32);

// A length counts ticks between two dates.
#[derive(Clone, Copy)]
pub struct Length(pub u32);

// What a date plus a length is: a date, an exact sum past M, or refused with a fault number.
#[derive(Clone, Copy)]
pub enum Sum {
    On(Date),
    PastM(u32),
    Refused(u32),
}

// What a call that writes answers: how many words (for sheets, bytes) it wrote, or the fault number that refuses it.
#[derive(Clone, Copy)]
pub enum Written {
    Count(usize),
    Refused(u32),
}

// How the first unbroken run of failing moments ends: its last is the instant k, or the gap before the instant k; or it never ends.
#[derive(Clone, Copy)]
pub enum End {
    At(u32),
    Before(u32),
    Never,
}

// What a claim answers: it holds; fails first at the instant k, or in the gap k, which is after it, with the end of that run; is refused.
#[derive(Clone, Copy)]
pub enum Verdict {
    Holds,
    FailsAt(u32, End),
    FailsAfter(u32, End),
    Refused(u32),
}

// What a question about a signal answers: yes (up), no (down), or refused.
#[derive(Clone, Copy)]
pub enum Told {
    Yes,
    No,
    Refused(u32),
}
