// What the merge of two lists shows at gap 0 and at each date: a connective, an edge or a latch.
#![tactic(auto)]

ghost use Rattle.std.specs.Prelude.{◌≡◌};
ghost use Rattle.signals.specs.Signal.{cell};
ghost use Rattle.signals.specs.LatchSteps.{at_step, gap_step, shown};
ghost use Rattle.showing.specs.Showing.{latch_first, latch_shown, first_shown, date_shown};

use reading::Step;

// What the merge of two lists builds: a connective by its table, an edge of the first, or a latch.
#[derive(Clone, Copy, PartialEq, Eq, Debug)]
pub enum Operation {
    Connective,
    Rising,
    Falling,
    SetWins,
    ResetWins,
}

// What a date shows of the merge: its value at the date and after it, and the bit that a latch carries on.
#[derive(Clone, Copy, PartialEq, Eq, Debug)]
pub struct Shown {
    pub at: bool,
    pub after: bool,
    pub carried: bool,
}

// Row by the first operand, column by the second.
#[tactic(auto, unfolding(signals::specs::Signal::cell))]
pub fn cell_of(table: [[bool; 2]; 2], p: bool, q: bool) -> bool
    ensures { result ≡ cell table p q }
{
    table[words::index(p)][words::index(q)]
}

// A latch at an instant, from the bit carried in the gap before.
fn latch_at(set_wins: bool, s: bool, r: bool, q: bool) -> bool
    ensures { result ≡ at_step set_wins s r q }
{
    if set_wins { s | (q & !r) } else { !r & (s | q) }
}

// The bit carried in a gap, from the latch at the instant before.
fn carry(s: bool, r: bool, at: bool) -> bool
    ensures { result ≡ gap_step s r at }
{
    !r & (s | at)
}

// What a gap shows of the bit carried in it.
fn latch_in(set_wins: bool, s: bool, q: bool) -> bool
    ensures { result ≡ shown set_wins s q }
{
    (set_wins & s) | q
}

fn latch_date(set_wins: bool, q: bool, p: Step, r: Step) -> Shown
    ensures { result ≡ latch_shown set_wins q p.at p.after r.at r.after }
{
    let at = latch_at(set_wins, p.at, r.at, q);
    let carried = carry(p.after, r.after, at);
    Shown {
        at,
        after: latch_in(set_wins, p.after, carried),
        carried,
    }
}

fn latch_first(set_wins: bool, s: bool, r: bool) -> Shown
    ensures { result ≡ latch_first set_wins s r }
{
    let carried = carry(s, r, false);
    Shown {
        at: false,
        after: latch_in(set_wins, s, carried),
        carried,
    }
}

// What gap 0 shows, from the values there.
pub fn first_shown(operation: Operation, table: [[bool; 2]; 2], p: bool, q: bool) -> Shown
    ensures { result ≡ first_shown operation table p q }
{
    match operation {
        Operation::Connective => Shown {
            at: false,
            after: cell_of(table, p, q),
            carried: false,
        },
        Operation::Rising | Operation::Falling => Shown {
            at: false,
            after: false,
            carried: false,
        },
        Operation::SetWins => latch_first(true, p, q),
        Operation::ResetWins => latch_first(false, p, q),
    }
}

// What a date shows, from the bit carried before it and what passing it found of both operands.
pub fn date_shown(
    operation: Operation,
    table: [[bool; 2]; 2],
    carried: bool,
    p: Step,
    q: Step,
) -> Shown
    ensures { result ≡ date_shown operation table carried p.before p.at p.after q.at q.after }
{
    match operation {
        Operation::Connective => Shown {
            at: cell_of(table, p.at, q.at),
            after: cell_of(table, p.after, q.after),
            carried: false,
        },
        Operation::Rising => Shown {
            at: p.at && !p.before,
            after: false,
            carried: false,
        },
        Operation::Falling => Shown {
            at: !p.at && p.before,
            after: false,
            carried: false,
        },
        Operation::SetWins => latch_date(true, carried, p, q),
        Operation::ResetWins => latch_date(false, carried, p, q),
    }
}
