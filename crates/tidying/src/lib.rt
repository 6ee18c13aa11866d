// Tidying: lists that break only rule 4, made normal. It keeps no array: a first pass judges the dates and counts the words to be kept, and
// once they are known to fit they are written straight into the output.
#![tactic(auto)]

ghost use Rattle.std.specs.Prelude.{◌≡◌, ◌++◌, ◌≤◌, length, drop};
ghost use Rattle.lists.specs.Head.{head_fault};
ghost use Rattle.tidying.specs.Calls.{CallOfTidying};
ghost use Rattle.tidying.specs.Counting.{change, not_above, Counted};
ghost use Rattle.tidying.specs.Kept.{kept};

use building::hand_over;
use lists::head_fault;
use signals::Written;

// What the first pass counts: the words to be kept, the first one always, and those that are not dated above the word before.
#[derive(Clone, Copy)]
struct Counts {
    kept: u32,
    wrong: u32,
}

// 0 for a word that changes nothing, both its values being the one after the word before it, else 1.
#[tactic(auto, using(crate::proofs::Turns::same_bits), unfolding(crate::specs::Counting::change))]
fn changes(before: u32, w: u32) -> u32
    ensures { result ≡ change before w }
{
    u32::from(w % 4 != 3 * (before % 2))
}

// 1 for a word that is not dated above the word before it, else 0.
#[tactic(auto, unfolding(crate::specs::Counting::not_above, signals::specs::Words::date_of))]
fn not_above(before: u32, w: u32) -> u32
    ensures { result ≡ not_above before w }
{
    u32::from(w / 4 <= before / 4)
}

// The first pass. It does not stop at a date that is not above the last, so that no turn waits for the one before.
fn count_words(list: &[u32]) -> Counts
    requires { head_fault list.now ≡ 0 }
    ensures { Counted list.now result.kept result.wrong }
{
    let mut kept: u32 = 1;
    let mut wrong: u32 = 0;
    for i in 1..list.len() {
        kept += changes(list[i - 1], list[i]);
        wrong += not_above(list[i - 1], list[i]);
    }
    Counts { kept, wrong }
}

// The words to be kept, at the front of an output that has room for them. Each word is put at the next free place; one that changes nothing
// does not fill it, and the next is put over it. It ends when all are there, so that no place past them is written, and so makes one test
// a turn, where a `for` over the words would make two.
fn keep_words(list: &[u32], count: usize, out: &mut [u32])
    requires { (head_fault list.now ≡ 0) × (count ≡ length (kept list.now)) × (count ≤ length out.old) }
    ensures { out.new ≡ kept list.now ++ drop count out.old }
{
    out[0] = list[0];
    let mut place: usize = 1;
    let mut i: usize = 1;
    while place < count {
        let w = list[i];
        out[place] = w;
        place += changes(list[i - 1], w) as usize;
        i += 1;
    }
}

// Tidying: faults 1, 2, 3, then 7. A list whose every word is kept is handed over as it is.
pub fn tidy(list: &[u32], out: &mut [u32]) -> Written
    ensures { CallOfTidying list.now out.old result out.new }
{
    let fault = head_fault(list);
    if fault != 0 {
        return Written::Refused(fault);
    }
    let counts = count_words(list);
    if counts.wrong != 0 {
        return Written::Refused(3);
    }
    let count = counts.kept as usize;
    if count == list.len() {
        return hand_over(list, out);
    }
    if out.len() < count {
        return Written::Refused(7);
    }
    keep_words(list, count, out);
    Written::Count(count)
}
