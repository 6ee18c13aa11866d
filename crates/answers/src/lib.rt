// Test support: what a call answers, as it is shown, and whether the output follows.
#![tactic(auto)]

pub mod shown;

use building::SlotAnswer;
use signals::{End, Sum, Told, Verdict, Written};

// What a call says; a failing run with how it ends.
#[derive(Clone, Copy)]
pub enum Said {
    Number(u64),
    PastM(u32),
    Refused(u32),
    FailsAt(u32, End),
    FailsAfter(u32, End),
    Yes,
    No,
    Holds,
    TooLong,
    TooLate,
    NotBegun,
}

#[derive(Clone, Copy)]
pub struct Answer {
    pub said: Said,
    pub output: bool,
}

fn alone(said: Said) -> Answer {
    Answer {
        said,
        output: false,
    }
}

fn with_output(said: Said) -> Answer {
    Answer { said, output: true }
}

pub fn number(n: u32) -> Answer {
    alone(Said::Number(u64::from(n)))
}

pub fn yes(value: bool) -> Answer {
    alone(if value { Said::Yes } else { Said::No })
}

pub fn told(answer: Told) -> Answer {
    alone(match answer {
        Told::Yes => Said::Yes,
        Told::No => Said::No,
        Told::Refused(fault) => Said::Refused(fault),
    })
}

pub fn verdict(answer: Verdict) -> Answer {
    alone(match answer {
        Verdict::Holds => Said::Holds,
        Verdict::FailsAt(k, end) => Said::FailsAt(k, end),
        Verdict::FailsAfter(k, end) => Said::FailsAfter(k, end),
        Verdict::Refused(fault) => Said::Refused(fault),
    })
}

pub fn sum(answer: Sum) -> Answer {
    alone(match answer {
        Sum::On(date) => Said::Number(u64::from(date.0)),
        Sum::PastM(sum) => Said::PastM(sum),
        Sum::Refused(fault) => Said::Refused(fault),
    })
}

// A number, and the output after it.
pub fn counted(n: u64) -> Answer {
    with_output(Said::Number(n))
}

pub fn written(answer: Written) -> Answer {
    with_output(match answer {
        Written::Count(count) => Said::Number(count as u64),
        Written::Refused(fault) => Said::Refused(fault),
    })
}

pub fn slot(answer: SlotAnswer) -> Answer {
    with_output(match answer {
        SlotAnswer::Stands(count) => Said::Number(count as u64),
        SlotAnswer::TooLong => Said::TooLong,
        SlotAnswer::TooLate => Said::TooLate,
        SlotAnswer::NotBegun => Said::NotBegun,
    })
}
