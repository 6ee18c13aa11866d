// The formula reader: the fault of a formula and where reading it stops, or its parts as code words in working-out order.
#![tactic(auto)]

mod reader;

ghost use Rattle.std.specs.Prelude.{◌≡◌, ◌≤◌, ◌<◌, length, take};
ghost use Rattle.std.proofs.lemmas.List.Edits.{sets};
ghost use Rattle.marks.specs.Marks.{lent};
ghost use Rattle.formulas.specs.Calls.{CallOfRead, CallOfJudge};

use grammar::Stop;
use marks::{Mark, fault_of};
use signals::Written;
use slices::put;

// The most bytes that a formula has.
const MOST_BYTES: usize = 1024;

// Copies the first words.
fn copy(words: &[u64], count: usize, code: &mut [u64; 32])
    requires { (count ≤ length words.now) × (count ≤ 32) }
    ensures { code.new ≡ sets code.old 0 (take count words.now) }
{
    copying::copy(&words[..count], code);
}

// Reads the text that is the first bytes of a page, 1 to 1,024.
fn judge_page(page: &[u8; 1024], bytes: usize, code: &mut [u64; 32]) -> Stop
    requires { (length page.now ≡ 1024) × (0 < bytes) × (bytes ≤ 1024) }
    ensures { CallOfJudge (lent page.now bytes) code.old result code.new }
{
    let mut words = [0u64; 32];
    let mut m = Mark {
        ok: true,
        at: 0,
        parts: 0,
        deepest: 0,
        longest: 0,
    };
    reader::sum(page, bytes, &mut words, &mut m, 0);
    let fault = fault_of(&m, bytes);
    let place = m.at;
    if fault == 0 {
        let parts = m.parts;
        copy(&words, parts, code);
        return Stop {
            fault: 0,
            place,
            parts,
        };
    }
    Stop {
        fault,
        place,
        parts: 0,
    }
}

// Judges a text as a formula, faults 10, 11, 8, 12, and tells where reading it stops, 0 for one of over 1,024 bytes, which is not read;
// without a fault, writes a code word for each part in working-out order, and tells how many.
pub fn judge(text: &[u8], code: &mut [u64; 32]) -> Stop
    ensures { CallOfJudge text.now code.old result code.new }
{
    let bytes = text.len();
    if bytes == 0 || MOST_BYTES < bytes {
        return Stop {
            fault: 10,
            place: 0,
            parts: 0,
        };
    }
    let mut page = [0u8; 1024];
    put(&mut page, 0, text);
    judge_page(&page, bytes, code)
}

// Reads a formula: faults 10, 11, 8, 12; else how many code words it wrote, one for each part in working-out order.
pub fn read(text: &[u8], code: &mut [u64; 32]) -> Written
    ensures { CallOfRead text.now code.old result code.new }
{
    let stop = judge(text, code);
    if stop.fault == 0 {
        Written::Count(stop.parts)
    } else {
        Written::Refused(stop.fault)
    }
}
