// What came out, in the notation of the arguments; bytes in hexadecimal.
use crate::{Answer, Said};
use notation::head;
use signals::End;
use std::{fmt, io};

#[derive(Clone, Copy)]
struct Until(End);

impl fmt::Display for Until {
    fn fmt<W: fmt::Write>(&self, f: &mut fmt::Formatter<W>) -> fmt::Result {
        match self.0 {
            End::At(last) => write!(f, " until {last}"),
            End::Before(last) => write!(f, " until before {last}"),
            End::Never => write!(f, " for good"),
        }
    }
}

impl fmt::Display for Said {
    fn fmt<W: fmt::Write>(&self, f: &mut fmt::Formatter<W>) -> fmt::Result {
        match *self {
            Said::Number(n) => write!(f, " {n}"),
            Said::PastM(sum) => write!(f, " past M {sum}"),
            Said::Refused(fault) => write!(f, " refused {fault}"),
            Said::FailsAt(k, end) => write!(f, " fails at {k}{}", Until(end)),
            Said::FailsAfter(k, end) => write!(f, " fails after {k}{}", Until(end)),
            Said::Yes => write!(f, " yes"),
            Said::No => write!(f, " no"),
            Said::Holds => write!(f, " holds"),
            Said::TooLong => write!(f, " too long"),
            Said::TooLate => write!(f, " too late"),
            Said::NotBegun => write!(f, " not begun"),
        }
    }
}

pub fn number(rt: &impl Print, n: u64) -> io::Result<()> {
    print!(rt; " {n}")
}

pub fn answer(rt: &impl Print, answer: Answer) -> io::Result<()> {
    rt.print(answer.said)
}

// An answer, and the output where it has one.
pub fn with_words(rt: &impl Print, shown: Answer, out: &[u32]) -> io::Result<()> {
    answer(rt, shown)?;
    if shown.output {
        rt.write_all(b",")?;
        words(rt, out)?;
    }
    Ok(())
}

// By how much the second word is above the first.
fn rise(list: &[u32]) -> u32 {
    match list {
        [first, second, ..] => second.wrapping_sub(*first),
        _ => 0,
    }
}

// How many words there are from the first on that rise by the same.
fn run(list: &[u32]) -> usize {
    let by = rise(list);
    let rises = list.iter().zip(list.iter().skip(1));
    rises
        .take_while(|(a, b)| b.wrapping_sub(**a) == by)
        .count()
        .saturating_add(1)
}

// How many words the first piece has: a run has four words or more.
fn piece_len(list: &[u32]) -> usize {
    let n = run(list);
    if 3 < n { n } else { 1 }
}

// The first n words as one piece.
fn piece(rt: &impl Print, list: &[u32], n: usize) -> io::Result<()> {
    rt.print(head(list))?;
    if n < 2 {
        return Ok(());
    }
    let by = rise(list);
    if by != 0 {
        print!(rt; "+{by}")?;
    }
    print!(rt; "*{n}")
}

// What stands before so many words or bytes.
fn opened(rt: &impl Print, n: usize) -> io::Result<()> {
    rt.print(if n == 0 { " -" } else { " " })
}

// All words, - for none.
fn words(rt: &impl Print, list: &[u32]) -> io::Result<()> {
    opened(rt, list.len())?;
    let mut done: usize = 0;
    for i in 0..list.len() {
        if done <= i {
            if 0 < i {
                rt.write_all(b",")?;
            }
            let rest = &list[i..];
            let n = piece_len(rest);
            piece(rt, rest, n)?;
            done = i.saturating_add(n);
        }
    }
    Ok(())
}

// All bytes, - for none; those of more than 128 as how many they are and a number made of all of them.
fn bytes(rt: &impl Print, out: &[u8]) -> io::Result<()> {
    opened(rt, out.len())?;
    if 128 < out.len() {
        let sum = out
            .iter()
            .fold(0u64, |sum, b| sum % 4294967291 * 65599 + u64::from(*b));
        return print!(rt; "{} bytes: {sum}", out.len());
    }
    for b in out {
        print!(rt; "{b:02x}")?;
    }
    Ok(())
}

pub fn with_bytes(rt: &impl Print, shown: Answer, out: &[u8]) -> io::Result<()> {
    answer(rt, shown)?;
    if shown.output {
        rt.write_all(b",")?;
        bytes(rt, out)?;
    }
    Ok(())
}
