// Formula calls and claims of two formulas on a sheet.
#![tactic(auto)]

ghost use Rattle.std.specs.Prelude.{◌≡◌, List, ◌++◌, ℕ, ◌≤◌, length, drop};
ghost use Rattle.building.specs.Building.{HandsOver};
ghost use Rattle.format.specs.Reading.{sheet_fault};
ghost use Rattle.calls.specs.Work.{CallOfFormula, CallOfClaim};
ghost use Rattle.sources.specs.Lending.{list_in};
ghost use Rattle.machine.specs.Machine.{Coded, Run, Judged, ClaimOn};

use code_words::CONSTANTS;
use signals::{Verdict, Written};
use sources::{Lent, Source};

// The work words that a call needs.
pub const WORK_WORDS: usize = working::WORK_WORDS;

// The words of a list where it stands, copied to the front of the output.
fn copy_words(lent: Lent, work: &[u32], list: Source, count: usize, out: &mut [u32])
    requires { (count ≡ length (list_in lent work.now list)) × (count ≤ length out.old) }
    ensures { out.new ≡ list_in lent.entry work.now list ++ drop count out.old }
{
    for i in 0..count {
        out[i] = (lent.next_word(work, list, i) % 4294967296) as u32;
    }
}

// A list where it stands, handed to the output if that is long enough, else 7.
fn hand_over(lent: Lent, work: &[u32], list: Source, out: &mut [u32]) -> Written
    ensures { HandsOver (list_in lent.entry work.now list) out.old result out.new }
{
    let count = lent.length_of(work, list);
    if out.len() < count {
        return Written::Refused(7);
    }
    copy_words(lent, work, list, count, out);
    Written::Count(count)
}

// A formula whose code words are read and placed, worked out: 18, then 5 or 6, then 7.
fn run_formula(sheet: &[u8], codes: &[u64], work: &mut [u32], out: &mut [u32]) -> Written
    requires { sheet_fault sheet.now ≡ 0 }
    ensures { (text : List ℕ) → Coded sheet.now text codes.now → Run sheet.now text
        work.old out.old result out.new work.new }
{
    let lent = Lent {
        sheet,
        left: &CONSTANTS,
        right: &CONSTANTS,
    };
    match working::work_out(sheet, codes, &codes[..0], work) {
        Ok(tops) => hand_over(lent, work, tops.top, out),
        Err(fault) => Written::Refused(fault),
    }
}

// The formula call: sheet faults; 10, 11, 8, 12, 13; 18; 5 or 6 at the first part that meets one; 7.
pub fn evaluate(sheet: &[u8], formula: &[u8], work: &mut [u32], out: &mut [u32]) -> Written
    ensures { CallOfFormula sheet.now formula.now work.old out.old
        result out.new work.new }
{
    let mut codes = [0u64; 32];
    match preparing::judge_and_prepare(sheet, formula, &mut codes) {
        Written::Count(n) => run_formula(sheet, &codes[..n], work, out),
        Written::Refused(refusal) => Written::Refused(refusal),
    }
}

// Two formulas whose code words are read and placed, worked out: 18, then F's parts before G's, then the verdict.
fn judge(sheet: &[u8], f_codes: &[u64], g_codes: &[u64], work: &mut [u32]) -> Verdict
    requires { sheet_fault sheet.now ≡ 0 }
    ensures { (f g : List ℕ) → Coded sheet.now f f_codes.now → Coded sheet.now g
        g_codes.now → Judged sheet.now f g work.old result work.new }
{
    let lent = Lent {
        sheet,
        left: &CONSTANTS,
        right: &CONSTANTS,
    };
    match working::work_out(sheet, f_codes, g_codes, work) {
        Ok(tops) => comparing::implies_at(lent, work, tops.below, tops.top),
        Err(fault) => Verdict::Refused(fault),
    }
}

// G read for a sheet, F being read: its 10, 11, 8, 12, 13, then 18, then the parts.
fn claim_on(sheet: &[u8], f_codes: &[u64], g: &[u8], work: &mut [u32]) -> Verdict
    requires { sheet_fault sheet.now ≡ 0 }
    ensures { (f : List ℕ) → Coded sheet.now f f_codes.now → ClaimOn sheet.now f
        g.now work.old result work.new }
{
    let mut g_codes = [0u64; 32];
    match preparing::prepare(sheet, g, &mut g_codes) {
        Written::Count(n) => judge(sheet, f_codes, &g_codes[..n], work),
        Written::Refused(refusal) => Verdict::Refused(refusal),
    }
}

// The claim of two formulas: sheet faults; F's 10, 11, 8, 12, 13; G's; 18; F's parts; G's parts; else the verdict.
pub fn claim(sheet: &[u8], f: &[u8], g: &[u8], work: &mut [u32]) -> Verdict
    ensures { CallOfClaim sheet.now f.now g.now work.old result work.new }
{
    let mut f_codes = [0u64; 32];
    match preparing::judge_and_prepare(sheet, f, &mut f_codes) {
        Written::Count(n) => claim_on(sheet, &f_codes[..n], g, work),
        Written::Refused(refusal) => Verdict::Refused(refusal),
    }
}
