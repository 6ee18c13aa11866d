// The operation that a part's code word asks for, on its operands' lists where they stand, in a slot of the work area. Other code words are
// taken for these, so that every call has an answer.
#![tactic(auto)]

ghost use Rattle.std.specs.Prelude.{◌≡◌, true, length};
ghost use Rattle.merging.specs.Merging.{may_merge};
ghost use Rattle.applying.specs.PartCalls.{part_answer};
ghost use Rattle.applying.specs.Merges.{operation_of, table_for};
ghost use Rattle.applying.specs.Applied.{MergePart, TimerPart, PartMade, PartAt};

use building::{SlotAnswer, WORDS};
use code_words::CONSTANTS;
use marks::kind;
use showing::Operation;
use signals::{Length, Written};
use sources::{Lent, Memory, Source};

const AND: [[bool; 2]; 2] = [[false, false], [false, true]];

const OR: [[bool; 2]; 2] = [[false, true], [true, true]];

// The first operand inverted, whatever the second.
const INVERT: [[bool; 2]; 2] = [[true, true], [false, false]];

// The list that is always down.
const NONE: Source = Source {
    memory: Memory::Right,
    at: 0,
    count: 1,
};

// The merge that a kind asks for, and its table.
#[tactic(auto, unfolding(crate::specs::Merges::operation_of))]
fn operation_of(kind: u64) -> Operation
    ensures { result ≡ operation_of kind }
{
    match kind {
        kind::RISING => Operation::Rising,
        kind::FALLING => Operation::Falling,
        kind::SR => Operation::SetWins,
        0..kind::SR => Operation::Connective,
        _ => Operation::ResetWins,
    }
}

#[tactic(auto, unfolding(crate::specs::Merges::table_for))]
fn table_of(kind: u64) -> [[bool; 2]; 2]
    ensures { result ≡ table_for kind }
{
    match kind {
        kind::NOT => INVERT,
        kind::AND => AND,
        _ => OR,
    }
}

// A part's answer from what its operation gives in the slot: 5, 6, or its word count. The evaluator's operations all begin.
fn part_answer(given: SlotAnswer) -> Written
    ensures { result ≡ part_answer given }
{
    match given {
        SlotAnswer::Stands(count) => Written::Count(count),
        SlotAnswer::TooLong => Written::Refused(5),
        SlotAnswer::TooLate => Written::Refused(6),
        SlotAnswer::NotBegun => Written::Refused(5),
    }
}

// The merge of two lists.
fn merged_at(kind: u64, sheet: &[u8], work: &mut [u32], a: Source, b: Source, at: u32) -> Written
    requires { may_merge a b at (length work.old) ≡ true }
    ensures { MergePart kind sheet.now work.old a b at result work.new }
{
    let lent = Lent {
        sheet,
        left: &CONSTANTS,
        right: &CONSTANTS,
    };
    part_answer(merging::merge_at(operation_of(kind), table_of(kind), lent, work, a, b, at))
}

// The timer of a list.
fn timed_at(code: u64, sheet: &[u8], work: &mut [u32], a: Source, at: u32) -> Written
    requires { may_merge a a at (length work.old) ≡ true }
    ensures { TimerPart code sheet.now work.old a at result work.new }
{
    let ticks = (code / 16 % 4294967296) as u32;
    let d = Length(ticks);
    let kind = code % 16;
    let lent = Lent {
        sheet,
        left: &CONSTANTS,
        right: &CONSTANTS,
    };
    if (kind == kind::TON) | (kind == kind::TOF) {
        let on_delay = kind == kind::TON;
        return part_answer(delay_parts::delay_at(on_delay, d, lent, work, a, at));
    }
    part_answer(pulse_parts::pulse_at(d, lent, work, a, at))
}

// The operation: of the first list where it has one operand, as a merge with the list that is always down or as a timer; else of both.
fn operate(code: u64, sheet: &[u8], work: &mut [u32], a: Source, b: Source, at: u32) -> Written
    requires { may_merge a b at (length work.old) ≡ true }
    ensures { PartMade code sheet.now work.old a b at result work.new }
{
    let kind = code % 16;
    if kind::AND <= kind {
        return merged_at(kind, sheet, work, a, b, at);
    }
    if (kind == kind::NOT) | (kind == kind::RISING) | (kind == kind::FALLING) {
        return merged_at(kind, sheet, work, a, NONE, at);
    }
    timed_at(code, sheet, work, a, at)
}

// The operation on lists where they stand, in the slot of 256 words from a place of the work area on: 5, or 6, or the words that then stand
// there. Where a list is not apart from the slot or the slot does not fit, 5, and nothing is written.
pub fn apply(code: u64, sheet: &[u8], work: &mut [u32], a: Source, b: Source, at: u32) -> Written
    ensures { PartAt code sheet.now work.old a b at result work.new }
{
    if sources::apart(a, at, WORDS as u32)
        && sources::apart(b, at, WORDS as u32)
        && at as usize + WORDS <= work.len()
    {
        return operate(code, sheet, work, a, b, at);
    }
    Written::Refused(5)
}
