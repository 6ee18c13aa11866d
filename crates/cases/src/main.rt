// Runs the cases of standard input, a line each: a call and its arguments (the crate notation). Empty lines and those that begin with # are
// skipped. Prints each case, an equals sign and what came out. `keep BYTES` keeps a sheet for the lines after it, `grow` appends and keeps
// what came out; @ stands for what is kept. tests/models/cases.py makes the lines a second time, by documents 01 and 02.
#![tactic(auto)]

use fields::part;
use notation::{Ends, Space, Words, argument, arguments, list, number, words};
use slices::{part_after, part_before};
use std::io;

mod formula_calls;

// A call on lists, with as many words of output.
fn on_words(
    rt: &impl Print,
    call: list_calls::Call,
    digits: &[u8],
    a: &[u32],
    b: &[u32],
    c: &[u32],
    room: usize,
) -> io::Result<()> {
    let mut out = [7u32; 401];
    if let Some(out) = out.get_mut(..room) {
        list_calls::shown(rt, call, digits, a, b, c, out)?;
    }
    Ok(())
}

fn on_lists(
    rt: &impl Print,
    call: list_calls::Call,
    space: &Space,
    all: &Words,
    ends: &Ends,
) -> io::Result<()> {
    let room = list_calls::room_at(call).map_or(0, |i| number(space, ends, i));
    on_words(
        rt,
        call,
        argument(space, ends, 0),
        list(all, ends, 0),
        list(all, ends, 1),
        list(all, ends, 2),
        room as usize,
    )
}

// A call on a sheet, with as many bytes of output; how many bytes are kept after `keep` and `grow`.
fn on_sheets(
    rt: &impl Print,
    call: sheet_calls::Call,
    space: &Space,
    all: &Words,
    ends: &Ends,
    kept: &mut Space,
) -> io::Result<Option<usize>> {
    let sheet = argument(space, ends, 0);
    let name = argument(space, ends, 1);
    let room = number(space, ends, sheet_calls::room_at(call)) as usize;
    sheet_calls::kept(rt, call, sheet, name, list(all, ends, 2), room, kept)
}

// A list's values at moments.
fn on_moments(rt: &impl Print, space: &Space, all: &Words, ends: &Ends) -> io::Result<()> {
    column_calls::values(
        rt,
        list(all, ends, 0),
        list(all, ends, 1),
        number(space, ends, 2) as usize,
    )
}

// The names of the calls, in a row.
const NAMES: &[u8] =
    b",list_fault,value_at,value_in,equal,implies,date_plus_length,tidy,not,rising,falling,sr,rs,ton,tof,tp,connective,\
    not_in,rising_in,falling_in,sr_in,rs_in,ton_in,tof_in,tp_in,connective_in,read,evaluate,claim,report,page,\
    sheet_fault,lookup_fault,lookup,locate,well_named,uptime,begin,append,grow,keep,values,";

// The name of a call: names joined by commas, as they stand in that row, are their first.
fn call_name(name: &[u8]) -> &[u8] {
    let in_the_row = NAMES.windows(name.len().saturating_add(2)).any(|row| {
        row.starts_with(b",")
            && row.get(1..).is_some_and(|rest| rest.starts_with(name))
            && row.ends_with(b",")
    });
    if in_the_row {
        part_before(name, b',')
    } else {
        name
    }
}

// A call, `keep` for a name that is none; how many bytes are kept after it.
fn called(
    rt: &impl Print,
    name: &[u8],
    space: &Space,
    all: &Words,
    ends: &Ends,
    kept: &mut Space,
    n: usize,
) -> io::Result<usize> {
    let name = call_name(name);
    if let Some(call) = list_calls::call_of(name) {
        on_lists(rt, call, space, all, ends)?;
    } else if let Some(call) = formula_calls::call_of(name) {
        formula_calls::shown(rt, call, space, ends)?;
    } else if name == b"values".as_slice() {
        on_moments(rt, space, all, ends)?;
    } else {
        let call = sheet_calls::call_of(name).unwrap_or(sheet_calls::Call::Keep);
        return Ok(on_sheets(rt, call, space, all, ends, kept)?.unwrap_or(n));
    }
    Ok(n)
}

// The case with its arguments; how many bytes are kept after it.
fn read(
    rt: &impl Print,
    name: &[u8],
    text: &[u8],
    kept: &mut Space,
    n: usize,
) -> io::Result<usize> {
    let mut space = [0u8; 65536];
    let mut ends = [0usize; 16];
    arguments(text, part(kept, 0, n), &mut space, &mut ends);
    let all = words(&space);
    called(rt, name, &space, &all, &ends, kept, n)
}

fn case(rt: &impl Print, line: &[u8], kept: &mut Space, n: usize) -> io::Result<usize> {
    rt.write_all(line)?;
    rt.write_all(b" =")?;
    let then = read(rt, part_before(line, b' '), part_after(line, b' '), kept, n)?;
    rt.write_all(b"\n")?;
    Ok(then)
}

fn lines(rt: &impl Print, text: &[u8], kept: &mut Space) -> io::Result<()> {
    let mut n: usize = 0;
    for line in text.split(|b| *b == b'\n') {
        if !line.is_empty() && !line.starts_with(b"#") {
            n = case(rt, line, kept, n)?;
        }
    }
    Ok(())
}

fn main(rt: HostRuntime) -> io::Result<()> {
    let mut input = [0u8; 65536];
    let mut kept = [0u8; 65536];
    let n = standard_input::fill(rt.stdin(), &mut input)?;
    lines(&rt, &input[..n], &mut kept)
}
