// Test support: the calls on sheets.
#![tactic(auto)]

use answers::shown::{answer, with_bytes, with_words};
use answers::{counted, number, shown, written, yes};
use fields::part;
use format::Place;
use notation::{Space, copied, head};
use signals::Written;
use std::io;
use stretches::UpTime;

// The calls.
#[derive(Clone, Copy, PartialEq, Eq, Debug)]
pub enum Call {
    SheetFault,
    LookupFault,
    Lookup,
    Locate,
    WellNamed,
    Uptime,
    Begin,
    Append,
    Grow,
    Keep,
}

// The call of a name.
pub fn call_of(name: &[u8]) -> Option<Call> {
    match name {
        b"sheet_fault" => Some(Call::SheetFault),
        b"lookup_fault" => Some(Call::LookupFault),
        b"lookup" => Some(Call::Lookup),
        b"locate" => Some(Call::Locate),
        b"well_named" => Some(Call::WellNamed),
        b"uptime" => Some(Call::Uptime),
        b"begin" => Some(Call::Begin),
        b"append" => Some(Call::Append),
        b"grow" => Some(Call::Grow),
        b"keep" => Some(Call::Keep),
        _ => None,
    }
}

// Where the words begin, and how many bytes they have.
fn place(rt: &impl Print, found: Place) -> io::Result<()> {
    match found {
        Place::At { start, count } => {
            shown::number(rt, start as u64)?;
            shown::number(rt, count as u64)
        }
        Place::Refused(fault) => answer(rt, written(Written::Refused(fault))),
    }
}

fn looked_up(rt: &impl Print, sheet: &[u8], name: &[u8]) -> io::Result<()> {
    let found = lookups::lookup(sheet, name);
    with_bytes(rt, counted(found.len() as u64), found)
}

// How many words, the total, the output.
fn up_time_in(
    rt: &impl Print,
    sheet: &[u8],
    name: &[u8],
    h: u32,
    out: &mut [u32],
) -> io::Result<()> {
    match uptimes::uptime(sheet, name, h, out) {
        UpTime::Told { count, total } => {
            shown::number(rt, count as u64)?;
            with_words(rt, counted(u64::from(total)), out)
        }
        UpTime::Refused(fault) => with_words(rt, written(Written::Refused(fault)), out),
    }
}

fn up_time(rt: &impl Print, sheet: &[u8], name: &[u8], h: u32, room: usize) -> io::Result<()> {
    let mut out = [7u32; 401];
    if let Some(out) = out.get_mut(..room) {
        up_time_in(rt, sheet, name, h, out)?;
    }
    Ok(())
}

// What `grow` writes is kept; how many bytes that is.
fn write_in(
    rt: &impl Print,
    call: Call,
    sheet: &[u8],
    name: &[u8],
    list: &[u32],
    out: &mut [u8],
    kept: &mut Space,
) -> io::Result<usize> {
    let answer = if call == Call::Begin {
        appending::begin(out)
    } else {
        appending::append(sheet, name, list, out)
    };
    with_bytes(rt, written(answer), out)?;
    match answer {
        Written::Count(n) if call == Call::Grow => {
            copied(part(out, 0, n), kept);
            Ok(n)
        }
        _ => Ok(0),
    }
}

// As many bytes of the output as there is room for.
fn write_to(
    rt: &impl Print,
    call: Call,
    sheet: &[u8],
    name: &[u8],
    list: &[u32],
    room: usize,
    kept: &mut Space,
) -> io::Result<usize> {
    // An output of sevens, so that what a call leaves is seen.
    let mut out = [7u8; 65536];
    match out.get_mut(..room) {
        Some(out) => write_in(rt, call, sheet, name, list, out, kept),
        None => Ok(0),
    }
}

fn keep(rt: &impl Print, sheet: &[u8], kept: &mut Space) -> io::Result<usize> {
    copied(sheet, kept);
    shown::number(rt, sheet.len() as u64)?;
    Ok(sheet.len())
}

// How many bytes are kept after `keep` and `grow`.
pub fn kept(
    rt: &impl Print,
    call: Call,
    sheet: &[u8],
    name: &[u8],
    list: &[u32],
    room: usize,
    kept: &mut Space,
) -> io::Result<Option<usize>> {
    match call {
        Call::SheetFault => answer(rt, number(sheets::sheet_fault(sheet)))?,
        Call::LookupFault => answer(rt, number(lookups::lookup_fault(sheet, name)))?,
        Call::Lookup => looked_up(rt, sheet, name)?,
        Call::Locate => place(rt, lookups::locate(sheet, name))?,
        Call::WellNamed => answer(rt, yes(names::well_named(sheet)))?,
        Call::Uptime => up_time(rt, sheet, name, head(list), room)?,
        Call::Begin | Call::Append => {
            write_to(rt, call, sheet, name, list, room, kept)?;
        }
        Call::Grow => return Ok(Some(write_to(rt, call, sheet, name, list, room, kept)?)),
        Call::Keep => return Ok(Some(keep(rt, sheet, kept)?)),
    }
    Ok(None)
}

// Which argument is the length of the output.
pub fn room_at(call: Call) -> usize {
    if call == Call::Begin { 0 } else { 3 }
}
