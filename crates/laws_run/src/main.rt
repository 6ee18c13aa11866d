// Each law of document 01 in both directions: random formulas and lengths for its letters, one side put in the place of a random
// leaf of a random tree, the other side in the same place, and the words and verdicts of the two formulas compared.
// Standard input has the texts of the law table in order, a line each.
#![tactic(auto)]

mod judged;
mod sides;

use crate::judged::judge;
use crate::sides::sides;
use random_calls::kept;
use random_formulas::cells::{Cells, NAMES, SEED, TALLY, whole};
use random_sheets::drawn::{ordinary_times, sheet, signals};
use slices::{part_after, part_before};
use std::io;

fn sheet_drawn(cells: &mut Cells) {
    signals(cells);
    sheet(cells, 3);
    kept(cells, 0);
}

// From one side to the other once.
fn applied(cells: &mut Cells, way: usize, from: &[u8], to: &[u8]) {
    sheet_drawn(cells);
    sides(cells, from, to);
    judge(cells, way);
}

fn both_ways(cells: &mut Cells, left: &[u8], right: &[u8]) {
    for _ in 0..50 {
        applied(cells, 1, left, right);
        applied(cells, 2, right, left);
    }
}

fn begun(cells: &mut Cells, number: u64) {
    cells[SEED] = number % 64 + 20261115;
    cells[NAMES] = 3;
    ordinary_times(cells);
    cells[TALLY] = 0;
    cells[TALLY + 1] = 0;
    cells[TALLY + 2] = 0;
}

fn line(rt: &impl Print, label: &str, n: u64) -> io::Result<()> {
    println!(rt; "{label}{n}")
}

// How often the law was applied from left to right, from right to left, and how often something differed.
fn told(rt: &impl Print, cells: &Cells, number: u64) -> io::Result<()> {
    print!(rt; "law {number}")?;
    line(rt, ": from the left ", cells[TALLY + 1])?;
    line(rt, "  from the right ", cells[TALLY + 2])?;
    line(rt, "  mismatches ", cells[TALLY])
}

fn law(
    rt: &impl Print,
    cells: &mut Cells,
    number: u64,
    left: &[u8],
    right: &[u8],
) -> io::Result<()> {
    begun(cells, number);
    both_ways(cells, left, right);
    told(rt, cells, number)
}

// Each line is a law.
fn run(rt: &impl Print, cells: &mut Cells, text: &[u8]) -> io::Result<()> {
    for (i, line) in text.split_inclusive(|b| *b == b'\n').enumerate() {
        let sides = part_before(line, b'\n');
        law(
            rt,
            cells,
            (i % 64) as u64 + 1,
            part_before(sides, b'='),
            part_after(sides, b'='),
        )?;
    }
    Ok(())
}

fn main(rt: HostRuntime) -> io::Result<()> {
    let mut cells = whole();
    let mut input = [0u8; 4096];
    let n = standard_input::fill(rt.stdin(), &mut input)?;
    run(&rt, &mut cells, &input[..n])
}
