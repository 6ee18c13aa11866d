// The merge of two lists where they stand: connectives and latches; of a list and one that is always down, NOT and edges.
#![tactic(auto)]

ghost use Rattle.std.specs.Prelude.{◌≡◌, length};
ghost use Rattle.showing.specs.declared.Operation.TheVariants.{Connective};
ghost use Rattle.merging.specs.Merging.{MayMerge, BuiltAt, MergedAt};

use building::{Made, SlotAnswer, WORDS};
use reading::NEVER;
use showing::Operation;
use signals::Date;
use sources::{Lent, Source};

// The merge of two lists, built in the slot that begins at a place of the work area and has so many words: date by date, what the
// operation makes of both. The next words are read before the answer's is stored.
fn merge(
    operation: Operation,
    table: [[bool; 2]; 2],
    lent: Lent,
    work: &mut [u32],
    a: Source,
    b: Source,
    at: usize,
    room: usize,
) -> Made
    requires { MayMerge a b at room (length work.old) }
    ensures { let l = lent.entry in BuiltAt operation table l.sheet.now l.left.now l.right.now work.old a b at room result work.new }
{
    let end = at + room;
    let mut x = lent.start(work, a);
    let mut y = lent.start(work, b);
    let first = showing::first_shown(operation, table, x.last % 2 == 1, y.last % 2 == 1);
    let mut made = building::begin(&mut work[at..end], first.after);
    let mut carried = first.carried;
    let mut date = words::earlier(x.date, y.date);
    while date < NEVER {
        let on = Date(date);
        let u = lent.past(work, a, x, on);
        let v = lent.past(work, b, y, on);
        let shown = showing::date_shown(operation, table, carried, u.step, v.step);
        made = building::emit(&mut work[at..end], made, on, shown.at, shown.after);
        carried = shown.carried;
        x = u.next;
        y = v.next;
        date = words::earlier(x.date, y.date);
    }
    made
}

// The same for a connective: nothing is carried from date to date.
fn join(
    table: [[bool; 2]; 2],
    lent: Lent,
    work: &mut [u32],
    a: Source,
    b: Source,
    at: usize,
    room: usize,
) -> Made
    requires { MayMerge a b at room (length work.old) }
    ensures { let l = lent.entry in BuiltAt Connective table l.sheet.now l.left.now l.right.now work.old a b at room result work.new }
{
    let end = at + room;
    let mut x = lent.start(work, a);
    let mut y = lent.start(work, b);
    let first = showing::cell_of(table, x.last % 2 == 1, y.last % 2 == 1);
    let mut made = building::begin(&mut work[at..end], first);
    let mut date = words::earlier(x.date, y.date);
    while date < NEVER {
        let on = Date(date);
        let u = lent.past(work, a, x, on);
        let v = lent.past(work, b, y, on);
        let value = showing::cell_of(table, u.step.at, v.step.at);
        let after = showing::cell_of(table, u.step.after, v.step.after);
        made = building::emit(&mut work[at..end], made, on, value, after);
        x = u.next;
        y = v.next;
        date = words::earlier(x.date, y.date);
    }
    made
}

// The merge by the loop of its operation.
fn made_at(
    operation: Operation,
    table: [[bool; 2]; 2],
    lent: Lent,
    work: &mut [u32],
    a: Source,
    b: Source,
    at: usize,
    room: usize,
) -> Made
    requires { MayMerge a b at room (length work.old) }
    ensures { let l = lent.entry in BuiltAt operation table l.sheet.now l.left.now l.right.now work.old a b at room result work.new }
{
    match operation {
        Operation::Connective => join(table, lent, work, a, b, at, room),
        _ => merge(operation, table, lent, work, a, b, at, room),
    }
}

// The merge of two lists where they stand, its answer in the slot of 256 words of the work area from a place on. Refused, and nothing
// written, where a list is not apart from the slot or the slot does not fit.
pub fn merge_at(
    operation: Operation,
    table: [[bool; 2]; 2],
    lent: Lent,
    work: &mut [u32],
    a: Source,
    b: Source,
    at: u32,
) -> SlotAnswer
    ensures { let l = lent.entry in MergedAt operation table l.sheet.now l.left.now l.right.now work.old a b at result work.new }
{
    let from = at as usize;
    if sources::apart(a, at, WORDS as u32)
        && sources::apart(b, at, WORDS as u32)
        && from + WORDS <= work.len()
    {
        return building::finish(made_at(operation, table, lent, work, a, b, from, WORDS));
    }
    SlotAnswer::NotBegun
}
