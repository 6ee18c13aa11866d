// Code words worked out one after the other on a stack of lists, each read where it stands: on the sheet, among the constants, or in a slot
// of the caller's work area. Other code words than a formula's are worked out as they are, so that every call has an answer.
#![tactic(auto)]

ghost use Rattle.std.specs.Prelude.{◌≡◌, ◌++◌, ◌<◌, ◌≤◌, ◌+◌, length, get_or};
ghost use Rattle.code_words.specs.CodeWords.{operands_of};
ghost use Rattle.signals.specs.Words.{most_words};
ghost use Rattle.signals.specs.Answers.{count_in};
ghost use Rattle.working.specs.Standing.{slot_made, from_above, Ready, StepMade, WorkedOut};

use signals::Written;
use sources::{Memory, Source};

// The work words that a stack needs.
pub const WORK_WORDS: usize = 8192;

// The most lists that another is put on.
const HIGHEST: usize = 17;

// Where the slots of the work area stand that a stack uses: one for each of its places and one above them; the last is never used.
const SLOTS: [u32; 20] = [
    0, 256, 512, 768, 1024, 1280, 1536, 1792, 2048, 2304, 2560, 2816, 3072, 3328, 3584, 3840, 4096,
    4352, 4608, 4864,
];

// A source of no words.
const NOWHERE: Source = Source {
    memory: Memory::Sheet,
    at: 0,
    count: 0,
};

// Where the topmost list of a stack and the one below it stand.
#[derive(Clone, Copy)]
pub struct Tops {
    pub top: Source,
    pub below: Source,
}

// The code word at a place of two rows.
fn code_at(first: &[u64], second: &[u64], i: usize) -> u64
    requires { i < length first.now + length second.now }
    ensures { result ≡ get_or (first.now ++ second.now) i 0 }
{
    let n = first.len();
    if i < n { first[i] } else { second[i - n] }
}

// Where an operation's answer in a slot stands, or its fault.
fn in_slot(answer: Written, at: u32) -> Result<Source, u32>
    requires { count_in answer ≤ most_words }
    ensures { result ≡ slot_made at answer }
{
    match answer {
        Written::Count(n) => Ok(Source {
            memory: Memory::Work,
            at,
            count: n as u32,
        }),
        Written::Refused(fault) => Err(fault),
    }
}

// One part worked out: a leaf's list stands where it is, and an operation's is made in the slot.
fn step(
    sheet: &[u8],
    work: &mut [u32],
    code: u64,
    taken: usize,
    a: Source,
    b: Source,
    at: u32,
) -> Result<Source, u32>
    requires { (taken ≡ operands_of code) × (1 ≤ taken → Ready a b at (length work.old)) }
    ensures { StepMade code taken sheet.now work.old a b at result work.new }
{
    if taken == 0 {
        return Ok(code_words::leaf(code));
    }
    in_slot(applying::apply(code, sheet, work, a, b, at), at)
}

// The list at a place of the stack from above, none where it has none.
#[tactic(auto, unfolding(crate::specs::Standing::from_above))]
fn from_above(stack: [Source; 20], height: usize, depth: usize) -> Source
    ensures { result ≡ from_above stack height depth }
{
    if depth < height && height - depth - 1 < 20 {
        return stack[height - depth - 1];
    }
    NOWHERE
}

// The code words of two rows worked out on one stack, whose lists then stand where the answer says, or the fault of the first that meets
// one. 18 without room for it.
pub fn work_out(sheet: &[u8], first: &[u64], second: &[u64], work: &mut [u32]) -> Result<Tops, u32>
    ensures { WorkedOut sheet.now (first.now ++ second.now) work.old result work.new }
{
    if work.len() < WORK_WORDS {
        return Err(18);
    }
    let mut stack = [NOWHERE; 20];
    let mut slots = SLOTS;
    let mut height: usize = 0;
    for i in 0..first.len() + second.len() {
        let code = code_at(first, second, i);
        let taken = code_words::operands(code);
        if height < taken {
            return Err(12);
        }
        let place = height - taken;
        if HIGHEST < place {
            return Err(12);
        }
        let at = slots[height];
        let last = place + taken / 2;
        let a = stack[place];
        let b = stack[last];
        let list = step(sheet, work, code, taken, a, b, at)?;
        stack[place] = list;
        let before = slots[place];
        slots[height] = before;
        slots[place] = at;
        height = place + 1;
    }
    Ok(Tops {
        top: from_above(stack, height, 0),
        below: from_above(stack, height, 1),
    })
}
