// Test support: the calls on lists: questions, tidying, the operations into an output and in a slot that is lent.
#![tactic(auto)]

use answers::shown::with_words;
use answers::{Answer, number, slot, sum, told, verdict, written};
use building::SlotAnswer;
use fields::byte_at;
use notation::head;
use showing::Operation;
use signals::{Date, Length};
use sources::{Lent, Memory, Source};
use std::io;

// The calls.
#[derive(Clone, Copy, PartialEq, Eq, Debug)]
pub enum Call {
    ListFault,
    ValueAt,
    ValueIn,
    Equal,
    Implies,
    DatePlusLength,
    Tidy,
    Not,
    Rising,
    Falling,
    Sr,
    Rs,
    Ton,
    Tof,
    Tp,
    Connective,
    NotIn,
    RisingIn,
    FallingIn,
    SrIn,
    RsIn,
    TonIn,
    TofIn,
    TpIn,
    ConnectiveIn,
}

// The call of a name.
pub fn call_of(name: &[u8]) -> Option<Call> {
    match name {
        b"list_fault" => Some(Call::ListFault),
        b"value_at" => Some(Call::ValueAt),
        b"value_in" => Some(Call::ValueIn),
        b"equal" => Some(Call::Equal),
        b"implies" => Some(Call::Implies),
        b"date_plus_length" => Some(Call::DatePlusLength),
        b"tidy" => Some(Call::Tidy),
        b"not" => Some(Call::Not),
        b"rising" => Some(Call::Rising),
        b"falling" => Some(Call::Falling),
        b"sr" => Some(Call::Sr),
        b"rs" => Some(Call::Rs),
        b"ton" => Some(Call::Ton),
        b"tof" => Some(Call::Tof),
        b"tp" => Some(Call::Tp),
        b"connective" => Some(Call::Connective),
        b"not_in" => Some(Call::NotIn),
        b"rising_in" => Some(Call::RisingIn),
        b"falling_in" => Some(Call::FallingIn),
        b"sr_in" => Some(Call::SrIn),
        b"rs_in" => Some(Call::RsIn),
        b"ton_in" => Some(Call::TonIn),
        b"tof_in" => Some(Call::TofIn),
        b"tp_in" => Some(Call::TpIn),
        b"connective_in" => Some(Call::ConnectiveIn),
        _ => None,
    }
}

// The table of four digits, row by row.
fn table(digits: &[u8]) -> [[bool; 2]; 2] {
    [
        [byte_at(digits, 0) == b'1', byte_at(digits, 1) == b'1'],
        [byte_at(digits, 2) == b'1', byte_at(digits, 3) == b'1'],
    ]
}

// A whole list, lent as the one on the left or on the right.
fn whole(memory: Memory, words: &[u32]) -> Source {
    Source {
        memory,
        at: 0,
        count: (words.len() % 4294967296) as u32,
    }
}

fn merge_in(
    operation: Operation,
    t: [[bool; 2]; 2],
    a: &[u32],
    b: &[u32],
    out: &mut [u32],
) -> SlotAnswer {
    let none = [0u8; 1];
    let first = whole(Memory::Left, a);
    let second = whole(Memory::Right, b);
    let lent = Lent::new(&none[..0], a, b);
    merging::merge_at(operation, t, lent, out, first, second, 0)
}

fn delay_in(level: bool, d: u32, a: &[u32], out: &mut [u32]) -> SlotAnswer {
    let none = [0u8; 1];
    let list = whole(Memory::Left, a);
    let lent = Lent::new(&none[..0], a, a);
    delay_parts::delay_at(level, Length(d), lent, out, list, 0)
}

fn pulse_in(d: u32, a: &[u32], out: &mut [u32]) -> SlotAnswer {
    let none = [0u8; 1];
    let list = whole(Memory::Left, a);
    let lent = Lent::new(&none[..0], a, a);
    pulse_parts::pulse_at(Length(d), lent, out, list, 0)
}

fn of_call(call: Call, digits: &[u8], a: &[u32], b: &[u32], c: &[u32], out: &mut [u32]) -> Answer {
    let d = head(a);
    let k = head(b);
    let t = table(digits);
    let none = [0u32; 1];
    let invert = [[true, true], [false, false]];
    match call {
        Call::ListFault => number(lists::list_fault(a)),
        Call::ValueAt => told(asking::value_at(a, k)),
        Call::ValueIn => told(asking::value_in(a, k)),
        Call::Equal => told(comparing::equal(a, b)),
        Call::Implies => verdict(comparing::implies(a, b)),
        Call::DatePlusLength => sum(words::date_plus_length(Date(d), Length(k))),
        Call::Tidy => written(tidying::tidy(a, out)),
        Call::Not => written(edges::not(a, out)),
        Call::Rising => written(edges::rising(a, out)),
        Call::Falling => written(edges::falling(a, out)),
        Call::Sr => written(combining::sr(a, b, out)),
        Call::Rs => written(combining::rs(a, b, out)),
        Call::Ton => written(delays::ton(Length(d), b, out)),
        Call::Tof => written(delays::tof(Length(d), b, out)),
        Call::Tp => written(pulses::tp(Length(d), b, out)),
        Call::Connective => written(combining::connective(t, b, c, out)),
        Call::NotIn => slot(merge_in(Operation::Connective, invert, a, &none, out)),
        Call::RisingIn => slot(merge_in(Operation::Rising, invert, a, &none, out)),
        Call::FallingIn => slot(merge_in(Operation::Falling, invert, a, &none, out)),
        Call::SrIn => slot(merge_in(Operation::SetWins, invert, a, b, out)),
        Call::RsIn => slot(merge_in(Operation::ResetWins, invert, a, b, out)),
        Call::TonIn => slot(delay_in(true, d, b, out)),
        Call::TofIn => slot(delay_in(false, d, b, out)),
        Call::TpIn => slot(pulse_in(d, b, out)),
        Call::ConnectiveIn => slot(merge_in(Operation::Connective, t, b, c, out)),
    }
}

pub fn shown(
    rt: &impl Print,
    call: Call,
    digits: &[u8],
    a: &[u32],
    b: &[u32],
    c: &[u32],
    out: &mut [u32],
) -> io::Result<()> {
    with_words(rt, of_call(call, digits, a, b, c, out), out)
}

// Which argument is the length of the output, where the call has one.
pub fn room_at(call: Call) -> Option<usize> {
    match call {
        Call::ListFault
        | Call::ValueAt
        | Call::ValueIn
        | Call::Equal
        | Call::Implies
        | Call::DatePlusLength => None,
        Call::Tidy
        | Call::Not
        | Call::Rising
        | Call::Falling
        | Call::NotIn
        | Call::RisingIn
        | Call::FallingIn => Some(1),
        Call::Connective | Call::ConnectiveIn => Some(3),
        _ => Some(2),
    }
}
