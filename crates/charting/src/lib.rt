// One signal's values at a rising list of moments: one reader goes along the list while the moments rise.
#![tactic(auto)]

ghost use Rattle.std.specs.Prelude.{◌≡◌, false, cond, ◌++◌, ◌≤◌, length, drop};
ghost use Rattle.signals.specs.Signal.{num};
ghost use Rattle.signals.specs.Words.{list_fault};
ghost use Rattle.columns.specs.Numbers.{is_gap_number};
ghost use Rattle.columns.specs.Columns.{not_rising, moment_fault, moments_fault, column_words, words_passed, CallOfColumn};

use columns::Column;
use lists::list_fault;
use reading::{Step, along, past};
use signals::{Date, M};

// The most moments that a column has.
const MOMENTS: usize = 1000;

// 20: a moment is not after the one before it.
fn rising_fault(moments: &[u32]) -> u32
    ensures { result ≡ cond (not_rising moments.now) 20 0 }
{
    if moments.is_sorted_by(|a, b| *a < *b) {
        0
    } else {
        20
    }
}

// 9 of one moment: it is instant 0, or its date is above M.
#[tactic(auto, using(crate::proofs::Judging::moment_is))]
fn moment_fault(moment: u32) -> u32
    ensures { result ≡ moment_fault moment }
{
    if moment == 0 || M < moment / 2 { 9 } else { 0 }
}

// 9 of some moment.
fn moments_fault(moments: &[u32]) -> u32
    ensures { result ≡ moments_fault moments.now }
{
    for i in 0..moments.len() {
        let fault = moment_fault(moments[i]);
        if fault != 0 {
            return fault;
        }
    }
    0
}

// The word of a moment, by what passing its date finds: that of the gap is the value after the date, that of the instant the one at it.
#[tactic(auto, unfolding(columns::specs::Numbers::is_gap_number))]
fn word_of(moment: u32, step: Step) -> u32
    ensures { result ≡ num (cond (is_gap_number moment) step.after step.at) }
{
    let up = if moment % 2 == 1 { step.after } else { step.at };
    u32::from(up)
}

// The words of rising moments, by one reader of an accepted list; how many of the list's words the last moment passes.
fn fill(list: &[u32], moments: &[u32], out: &mut [u32]) -> usize
    requires list_value { list_fault list.now ≡ 0 }
    requires moments_value { not_rising moments.now ≡ false }
    requires moments_in_bounds { length moments.now ≤ length out.old }
    ensures value { result ≡ words_passed list.now moments.now }
    ensures out_after { out.new ≡ column_words list.now moments.now
        ++ drop (length moments.now) out.old }
{
    // how many words are dated before the moment's date: the word of that date stays ahead, since its gap may follow its instant
    let mut behind: usize = 1;
    let mut passed: usize = 0;
    for (i, &moment) in moments.iter().enumerate() {
        let date = Date(moment / 2);
        behind = along(list, behind, date);
        let step = past(list, behind, date);
        out[i] = word_of(moment, step);
        passed = step.passed;
    }
    passed
}

// The values of a list's signal at rising moments, a word 0 or 1 for each, and how many of the list's words the last one passes: faults
// list, 20, 9, 7.
pub fn values(list: &[u32], moments: &[u32], out: &mut [u32]) -> Column
    ensures { CallOfColumn list.now moments.now out.old result out.new }
{
    let listed = list_fault(list);
    if listed != 0 {
        return Column::Refused(listed);
    }
    if MOMENTS < moments.len() {
        return Column::Refused(20);
    }
    // both are judged of at most 1,000 moments, and 20 is told first
    let rising = rising_fault(moments);
    let dated = moments_fault(moments);
    if rising != 0 {
        return Column::Refused(rising);
    }
    if dated != 0 {
        return Column::Refused(dated);
    }
    if out.len() < moments.len() {
        return Column::Refused(7);
    }
    let passed = fill(list, moments, out);
    Column::Filled {
        count: moments.len(),
        passed,
    }
}
