// Connectives and latches: operations of two lists.
#![tactic(auto)]

ghost use Rattle.std.specs.Prelude.{◌≡◌, true, ◌+◌, ◌≤◌, min, length};
ghost use Rattle.signals.specs.Signal.{connective, SR, RS};
ghost use Rattle.signals.specs.Words.{most_words, pair_fault};
ghost use Rattle.operations.specs.Calls.{CallOfTwo};
ghost use Rattle.showing.specs.Showing.{merged, date_shown};
ghost use Rattle.showing.specs.declared.Operation.TheVariants.{Connective};
ghost use Rattle.merging.specs.Merging.{BuiltIn};

use building::{Made, SHORT, WORDS};
use reading::{NEVER, Step};
use showing::{Operation, Shown};
use signals::{Date, Written};

// What a date shows, by a connective alone or by any operation.
fn shown_at<const CONNECTIVE: bool>(
    operation: Operation,
    table: [[bool; 2]; 2],
    carried: bool,
    p: Step,
    q: Step,
) -> Shown
    requires { CONNECTIVE ≡ true → operation ≡ Connective }
    ensures { result ≡ date_shown operation table carried p.before p.at p.after q.at q.after }
{
    if CONNECTIVE {
        showing::date_shown(Operation::Connective, table, carried, p, q)
    } else {
        showing::date_shown(operation, table, carried, p, q)
    }
}

// The merge of two slices, built in a slot: date by date, what the operation makes of both. A connective's loop is made for itself, and
// carries nothing from date to date.
fn merge_words<const CONNECTIVE: bool>(
    operation: Operation,
    table: [[bool; 2]; 2],
    a: &[u32],
    b: &[u32],
    slot: &mut [u32],
) -> Made
    requires short { (length a.now ≤ most_words) × (length b.now ≤ most_words) }
    requires kind { CONNECTIVE ≡ true → operation ≡ Connective }
    ensures { BuiltIn operation table a.now b.now slot.old result slot.new }
{
    let mut x = sources::start_in(a);
    let mut y = sources::start_in(b);
    let first = showing::first_shown(operation, table, x.last % 2 == 1, y.last % 2 == 1);
    let mut made = building::begin(slot, first.after);
    let mut carried = first.carried;
    let mut date = words::earlier(x.date, y.date);
    while date < NEVER {
        let u = sources::past_in(a, x, date);
        let v = sources::past_in(b, y, date);
        let shown = shown_at::<CONNECTIVE>(operation, table, carried, u.step, v.step);
        made = building::emit(slot, made, Date(date), shown.at, shown.after);
        carried = shown.carried;
        x = u.next;
        y = v.next;
        date = words::earlier(x.date, y.date);
    }
    made
}

// The merge by the loop of its operation.
fn made_in(
    operation: Operation,
    table: [[bool; 2]; 2],
    a: &[u32],
    b: &[u32],
    slot: &mut [u32],
) -> Made
    requires { (length a.now ≤ most_words) × (length b.now ≤ most_words) }
    ensures { BuiltIn operation table a.now b.now slot.old result slot.new }
{
    match operation {
        Operation::Connective => merge_words::<true>(operation, table, a, b, slot),
        _ => merge_words::<false>(operation, table, a, b, slot),
    }
}

// The merge of two accepted lists, built in a slot that holds its answer, and delivered to an output. It has fewer words than both lists
// together.
fn delivered<const N: usize>(
    operation: Operation,
    table: [[bool; 2]; 2],
    a: &[u32],
    b: &[u32],
    out: &mut [u32],
) -> Written
    requires accepted { pair_fault a.now b.now ≡ 0 }
    requires held { min most_words (length a.now + length b.now) ≤ N }
    requires small { N ≤ most_words }
    ensures { CallOfTwo (merged operation table) a.now b.now out.old result out.new }
{
    let mut slot = [0u32; N];
    let made = made_in(operation, table, a, b, &mut slot);
    building::deliver(&slot, made, out)
}

// A merge of two lists that are judged first.
fn operate(
    operation: Operation,
    table: [[bool; 2]; 2],
    a: &[u32],
    b: &[u32],
    out: &mut [u32],
) -> Written
    ensures { CallOfTwo (merged operation table) a.now b.now out.old result out.new }
{
    let fault = lists::pair_fault(a, b);
    if fault != 0 {
        return Written::Refused(fault);
    }
    if a.len() + b.len() <= SHORT {
        delivered::<SHORT>(operation, table, a, b, out)
    } else {
        delivered::<WORDS>(operation, table, a, b, out)
    }
}

// The table given where the operation reads none.
const UNREAD: [[bool; 2]; 2] = [[true, true], [false, false]];

// A connective by its table, row by the first operand, column by the second: faults list, list, 5, 7.
pub fn connective(table: [[bool; 2]; 2], a: &[u32], b: &[u32], out: &mut [u32]) -> Written
    ensures { CallOfTwo (connective table) a.now b.now out.old result out.new }
{
    operate(Operation::Connective, table, a, b, out)
}

// The latch in which set wins: faults list, list, 5, 7.
pub fn sr(s: &[u32], r: &[u32], out: &mut [u32]) -> Written
    ensures { CallOfTwo SR s.now r.now out.old result out.new }
{
    operate(Operation::SetWins, UNREAD, s, r, out)
}

// The latch in which reset wins: faults list, list, 5, 7.
pub fn rs(s: &[u32], r: &[u32], out: &mut [u32]) -> Written
    ensures { CallOfTwo RS s.now r.now out.old result out.new }
{
    operate(Operation::ResetWins, UNREAD, s, r, out)
}
