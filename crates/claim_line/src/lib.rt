// The line that the program `claim` prints for what it reads: the claim of the input's parts, the line of its answer.
#![tactic(auto)]

ghost use Rattle.claim_line.specs.Printing.{LineOfInput};

use inputs::BYTES;
use verdict_line::Line;

// The line of the claim that the first n bytes of an input make. The type of the input has the bytes that count, and the line has those of
// the longest, so that it is never refused with 7; the work area is long enough, so that no claim is refused with 18.
pub fn line_of(input: &[u8; BYTES], n: usize) -> Line
    ensures { LineOfInput input.now n result.«bytes» result.«count» }
{
    let f = inputs::first_line(input, n);
    let g = inputs::second_line(input, n);
    let sheet = inputs::sheet(input, n);
    let mut work = [0u32; evaluation::WORK_WORDS];
    let verdict = evaluation::claim(sheet, f, g, &mut work);
    verdict_line::line_for(verdict)
}
