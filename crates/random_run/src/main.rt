// Random formulas on random sheets, called and claimed, against the second evaluator, which steps moment by moment.
// It prints how often each kind came, and how often the two differed.
#![tactic(auto)]

mod compared;
mod made;

use crate::compared::round;
use random_formulas::cells::{Cells, SEED, TALLY, at, whole};
use std::io;

fn rounds(cells: &mut Cells, many: usize) {
    cells[SEED] = 20261115;
    for _ in 0..many {
        round(cells);
    }
}

fn line(rt: &impl Print, label: &str, cells: &Cells, kind: usize) -> io::Result<()> {
    let n = at(cells, TALLY + kind % 32);
    println!(rt; "{label}{n}")
}

// The fault in the label is the number of its kind; formula calls have no fault 9.
fn told_fault(rt: &impl Print, cells: &Cells, fault: usize) -> io::Result<()> {
    if fault == 9 {
        return Ok(());
    }
    print!(rt; "formulas refused {fault}")?;
    line(rt, " ", cells, fault)
}

fn told_faults(rt: &impl Print, cells: &Cells) -> io::Result<()> {
    for fault in 5..19 {
        told_fault(rt, cells, fault)?;
    }
    Ok(())
}

fn told_claims(rt: &impl Print, cells: &Cells) -> io::Result<()> {
    line(rt, "claims that hold ", cells, 21)?;
    line(rt, "claims that fail at ", cells, 22)?;
    line(rt, "claims that fail after ", cells, 23)?;
    line(rt, "claims refused ", cells, 24)?;
    line(rt, "failing runs that end at an instant ", cells, 26)?;
    line(rt, "failing runs that end before one ", cells, 27)?;
    line(rt, "failing runs that never end ", cells, 28)
}

fn main(rt: HostRuntime) -> io::Result<()> {
    let mut cells = whole();
    rounds(&mut cells, 20000);
    line(&rt, "formulas answered ", &cells, 20)?;
    told_faults(&rt, &cells)?;
    told_claims(&rt, &cells)?;
    line(&rt, "mismatches ", &cells, 0)
}
