// The exported static library: the calls of the library for C and Rust, each answer packed into one number.
#![tactic(auto)]

ghost use Rattle.std.specs.Prelude.{◌≡◌, [], length};
ghost use Rattle.signals.specs.Signal.{NOT, connective, rising, falling, SR, RS, TON, TOF, TP};
ghost use Rattle.signals.specs.Words.{list_fault};
ghost use Rattle.questions.specs.Questions.{value_at_of, value_in_of, equal_of, implies_of};
ghost use Rattle.format.specs.Reading.{sheet_fault};
ghost use Rattle.format.specs.Writing.{sheet_bytes};
ghost use Rattle.format.specs.Calls.{begin_fault, place_of};
ghost use Rattle.packing.specs.Packing.{pack_fault, pack_told, pack_verdict, pack_span, pack_place, pack_stop, table_in};
ghost use Rattle.grammar.specs.Formula.{formula_fault, stop_place};
ghost use Rattle.capi.specs.Exports.{Exported, ExportedOne, ExportedTwo, ExportedDelay, ExportedTidying, ExportedAppend};
ghost use Rattle.capi.specs.Exports.{ExportedColumn, ExportedUpTime, ExportedParts, ExportedFormula, ExportedClaim, ExportedSpan};

use signals::Length;

// The fault of a list.
#[unsafe(no_mangle)]
pub extern "C" fn sgl_list_fault(list: &[u32]) -> u32
    ensures { result ≡ pack_fault (list_fault list.now) }
{
    packing::pack_fault(lists::list_fault(list))
}

// Tidying.
#[unsafe(no_mangle)]
pub extern "C" fn sgl_tidy(list: &[u32], out: &mut [u32]) -> u32
    ensures { ExportedTidying list.now out.old result out.new }
{
    packing::pack_written(tidying::tidy(list, out))
}

// The value at the instant k.
#[unsafe(no_mangle)]
pub extern "C" fn sgl_value_at(list: &[u32], k: u32) -> u32
    ensures { result ≡ pack_told (value_at_of list.now k) }
{
    packing::pack_told(asking::value_at(list, k))
}

// The value in the gap k.
#[unsafe(no_mangle)]
pub extern "C" fn sgl_value_in(list: &[u32], k: u32) -> u32
    ensures { result ≡ pack_told (value_in_of list.now k) }
{
    packing::pack_told(asking::value_in(list, k))
}

// The values at rising moments, a word each, and how many words of the list the last one passes.
#[unsafe(no_mangle)]
pub extern "C" fn sgl_values(list: &[u32], moments: &[u32], out: &mut [u32]) -> u64
    ensures { ExportedColumn list.now moments.now out.old result out.new }
{
    packing::pack_column(charting::values(list, moments, out))
}

// Equality.
#[unsafe(no_mangle)]
pub extern "C" fn sgl_equal(a: &[u32], b: &[u32]) -> u32
    ensures { result ≡ pack_told (equal_of a.now b.now) }
{
    packing::pack_told(comparing::equal(a, b))
}

// Implication a to b.
#[unsafe(no_mangle)]
pub extern "C" fn sgl_implies(a: &[u32], b: &[u32]) -> u64
    ensures { result ≡ pack_verdict (implies_of a.now b.now) }
{
    packing::pack_verdict(comparing::implies(a, b))
}

// Implication a to b, with the end of the failing run.
#[unsafe(no_mangle)]
pub extern "C" fn sgl_implies_span(a: &[u32], b: &[u32]) -> u64
    ensures { result ≡ pack_span (implies_of a.now b.now) }
{
    packing::pack_span(comparing::implies(a, b))
}

// NOT.
#[unsafe(no_mangle)]
pub extern "C" fn sgl_not(a: &[u32], out: &mut [u32]) -> u32
    ensures { ExportedOne NOT a.now out.old result out.new }
{
    packing::pack_written(edges::not(a, out))
}

// A connective by its table.
#[unsafe(no_mangle)]
pub extern "C" fn sgl_connective(table: u32, a: &[u32], b: &[u32], out: &mut [u32]) -> u32
    ensures { ExportedTwo (connective (table_in table)) a.now b.now out.old result out.new }
{
    packing::pack_written(combining::connective(packing::table_in(table), a, b, out))
}

// Rising edges.
#[unsafe(no_mangle)]
pub extern "C" fn sgl_rising(a: &[u32], out: &mut [u32]) -> u32
    ensures { ExportedOne rising a.now out.old result out.new }
{
    packing::pack_written(edges::rising(a, out))
}

// Falling edges.
#[unsafe(no_mangle)]
pub extern "C" fn sgl_falling(a: &[u32], out: &mut [u32]) -> u32
    ensures { ExportedOne falling a.now out.old result out.new }
{
    packing::pack_written(edges::falling(a, out))
}

// The latch in which set wins.
#[unsafe(no_mangle)]
pub extern "C" fn sgl_sr(s: &[u32], r: &[u32], out: &mut [u32]) -> u32
    ensures { ExportedTwo SR s.now r.now out.old result out.new }
{
    packing::pack_written(combining::sr(s, r, out))
}

// The latch in which reset wins.
#[unsafe(no_mangle)]
pub extern "C" fn sgl_rs(s: &[u32], r: &[u32], out: &mut [u32]) -> u32
    ensures { ExportedTwo RS s.now r.now out.old result out.new }
{
    packing::pack_written(combining::rs(s, r, out))
}

// TON(d,f), the on-delay.
#[unsafe(no_mangle)]
pub extern "C" fn sgl_ton(d: u32, f: &[u32], out: &mut [u32]) -> u32
    ensures { ExportedDelay (TON d) d f.now out.old result out.new }
{
    packing::pack_written(delays::ton(Length(d), f, out))
}

// TOF(d,f), the off-delay.
#[unsafe(no_mangle)]
pub extern "C" fn sgl_tof(d: u32, f: &[u32], out: &mut [u32]) -> u32
    ensures { ExportedDelay (TOF d) d f.now out.old result out.new }
{
    packing::pack_written(delays::tof(Length(d), f, out))
}

// TP(d,f), the pulse timer.
#[unsafe(no_mangle)]
pub extern "C" fn sgl_tp(d: u32, f: &[u32], out: &mut [u32]) -> u32
    ensures { ExportedDelay (TP d) d f.now out.old result out.new }
{
    packing::pack_written(pulses::tp(Length(d), f, out))
}

// Begins a sheet.
#[unsafe(no_mangle)]
pub extern "C" fn sgl_begin(out: &mut [u8]) -> u32
    ensures { Exported (begin_fault (length out.old)) (sheet_bytes []) out.old result out.new }
{
    packing::pack_written(appending::begin(out))
}

// The fault of a sheet.
#[unsafe(no_mangle)]
pub extern "C" fn sgl_sheet_fault(sheet: &[u8]) -> u32
    ensures { result ≡ pack_fault (sheet_fault sheet.now) }
{
    packing::pack_fault(sheets::sheet_fault(sheet))
}

// Where the words of the signal with this name stand on a sheet.
#[unsafe(no_mangle)]
pub extern "C" fn sgl_lookup(sheet: &[u8], name: &[u8]) -> u64
    ensures { result ≡ pack_place (place_of sheet.now name.now) }
{
    packing::pack_place(lookups::locate(sheet, name))
}

// Appends a signal to a sheet.
#[unsafe(no_mangle)]
pub extern "C" fn sgl_append(sheet: &[u8], name: &[u8], list: &[u32], out: &mut [u8]) -> u32
    ensures { ExportedAppend sheet.now name.now list.now out.old
        result out.new }
{
    packing::pack_written(appending::append(sheet, name, list, out))
}

// The up stretches of a name's signal before a horizon, two words each, and their total.
#[unsafe(no_mangle)]
pub extern "C" fn sgl_uptime(sheet: &[u8], name: &[u8], h: u32, out: &mut [u32]) -> u64
    ensures { ExportedUpTime sheet.now name.now h out.old result out.new }
{
    packing::pack_uptime(uptimes::uptime(sheet, name, h, out))
}

// The fault of a formula, and how long a beginning of the text some formula begins with.
#[unsafe(no_mangle)]
pub extern "C" fn sgl_formula_fault(formula: &[u8]) -> u64
    ensures { result ≡ pack_stop (formula_fault formula.now) (stop_place formula.now) }
{
    let mut code = [0u64; 32];
    packing::pack_stop(formulas::judge(formula, &mut code))
}

// The parts of a formula, as code words in working-out order.
#[unsafe(no_mangle)]
pub extern "C" fn sgl_formula_parts(formula: &[u8], code: &mut [u64; 32]) -> u32
    ensures { ExportedParts formula.now code.old result code.new }
{
    packing::pack_written(formulas::read(formula, code))
}

// The list of a formula's signal on a sheet. Refused by check 18 or an earlier one it leaves the work area as it was; else that is free.
#[unsafe(no_mangle)]
pub extern "C" fn sgl_evaluate(
    sheet: &[u8],
    formula: &[u8],
    work: &mut [u32],
    out: &mut [u32],
) -> u32
    ensures { ExportedFormula sheet.now formula.now work.old out.old
        result out.new work.new }
{
    packing::pack_written(evaluation::evaluate(sheet, formula, work, out))
}

// The verdict of the claim f to g on a sheet; the work area as there.
#[unsafe(no_mangle)]
pub extern "C" fn sgl_claim(sheet: &[u8], f: &[u8], g: &[u8], work: &mut [u32]) -> u64
    ensures { ExportedClaim sheet.now f.now g.now work.old result work.new }
{
    packing::pack_verdict(evaluation::claim(sheet, f, g, work))
}

// The same with the end of the failing run.
#[unsafe(no_mangle)]
pub extern "C" fn sgl_claim_span(sheet: &[u8], f: &[u8], g: &[u8], work: &mut [u32]) -> u64
    ensures { ExportedSpan sheet.now f.now g.now work.old result work.new }
{
    packing::pack_span(evaluation::claim(sheet, f, g, work))
}
