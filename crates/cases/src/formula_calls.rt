// The formula reader, formula calls, claims; the line and the page of the programs.
use answers::shown::{answer, number, with_words};
use answers::{verdict, written};
use evaluation::WORK_WORDS;
use fields::part;
use notation::{Ends, Space, argument};
use signals::Written;
use std::io;

// The calls.
#[derive(Clone, Copy, PartialEq, Eq, Debug)]
pub enum Call {
    Read,
    Evaluate,
    Claim,
    Report,
    Page,
}

// The call of a name.
pub fn call_of(name: &[u8]) -> Option<Call> {
    match name {
        b"read" => Some(Call::Read),
        b"evaluate" => Some(Call::Evaluate),
        b"claim" => Some(Call::Claim),
        b"report" => Some(Call::Report),
        b"page" => Some(Call::Page),
        _ => None,
    }
}

// The name of a code word, by its place in the text and its length; or its value, where that is not 0.
fn shown_value(rt: &impl Print, text: &[u8], kind: u64, value: u64) -> io::Result<()> {
    if kind == 2 {
        let from = (value / 16 % 65536) as usize;
        rt.write_all(part(text, from, from + (value % 16) as usize))
    } else if 0 < value {
        number(rt, value)
    } else {
        Ok(())
    }
}

fn shown_part(rt: &impl Print, text: &[u8], word: u64) -> io::Result<()> {
    let kind = word % 16;
    rt.write_all(notation::name(
        b" 0, 1, , !, ^, ~, TON, TOF, TP, ., +, SR, RS",
        kind as usize,
    ))?;
    shown_value(rt, text, kind, word / 16)
}

fn parts(rt: &impl Print, text: &[u8], code: &[u64; 32], count: usize) -> io::Result<()> {
    for word in code.iter().take(count) {
        shown_part(rt, text, *word)?;
    }
    Ok(())
}

// The parts of a text or its fault, and where reading it stops.
fn read(rt: &impl Print, text: &[u8]) -> io::Result<()> {
    let mut code = [7u64; 32];
    let read = formulas::read(text, &mut code);
    match read {
        Written::Count(count) => parts(rt, text, &code, count)?,
        Written::Refused(_) => answer(rt, written(read))?,
    }
    rt.write_all(b" at")?;
    number(rt, formulas::judge(text, &mut code).place as u64)
}

fn evaluated(
    rt: &impl Print,
    sheet: &[u8],
    text: &[u8],
    work: &mut [u32],
    out: &mut [u32],
) -> io::Result<()> {
    with_words(
        rt,
        written(evaluation::evaluate(sheet, text, work, out)),
        out,
    )
}

fn evaluate(rt: &impl Print, sheet: &[u8], text: &[u8], n: usize, room: usize) -> io::Result<()> {
    let mut work = [0u32; WORK_WORDS];
    let mut out = [7u32; 401];
    if n <= WORK_WORDS && room <= 401 {
        evaluated(rt, sheet, text, &mut work[0..n], &mut out[0..room])?;
    }
    Ok(())
}

fn claim(rt: &impl Print, sheet: &[u8], f: &[u8], g: &[u8], n: usize) -> io::Result<()> {
    let mut work = [0u32; WORK_WORDS];
    if n <= WORK_WORDS {
        answer(rt, verdict(evaluation::claim(sheet, f, g, &mut work[0..n])))?;
    }
    Ok(())
}

// The line of an input, without the line feed.
fn report(rt: &impl Print, input: &Space, n: usize) -> io::Result<()> {
    let line = claim_line::line_of(input, n);
    let bytes = line.bytes;
    let count = line.count;
    rt.write_all(b" ")?;
    rt.write_all(slices::part_before(&bytes[..count], b'\n'))
}

// The page of an input, with | for a line feed.
fn page(rt: &impl Print, input: &Space, n: usize) -> io::Result<()> {
    let page = uptime_page::page_of(input, n);
    let bytes = page.bytes;
    let count = page.count;
    rt.write_all(b" ")?;
    for b in part(&bytes, 0, count) {
        rt.write_all(&[if *b == b'\n' { b'|' } else { *b }])?;
    }
    Ok(())
}

pub fn shown(rt: &impl Print, call: Call, space: &Space, ends: &Ends) -> io::Result<()> {
    let first = argument(space, ends, 0);
    let second = argument(space, ends, 1);
    let third = notation::number(space, ends, 2) as usize;
    let fourth = notation::number(space, ends, 3) as usize;
    match call {
        Call::Read => read(rt, first),
        Call::Evaluate => evaluate(rt, first, second, third, fourth),
        Call::Claim => claim(rt, first, second, argument(space, ends, 2), fourth),
        Call::Report => report(rt, space, notation::length(ends)),
        Call::Page => page(rt, space, notation::length(ends)),
    }
}
