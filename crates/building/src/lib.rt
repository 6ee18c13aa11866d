// How an answer is built word by word in a slot, judged, and handed over.
#![tactic(auto)]

ghost use Rattle.std.specs.Prelude.{◌≡◌, ◌++◌, ◌≤◌, length, drop};
ghost use Rattle.building.specs.Building.{idle, one_more, Begins, Emits, HandsOver, Delivers};
ghost use Rattle.building.specs.Slots.{made_answer};

use signals::{Date, M, Written};

// The most words that an answer has.
pub const WORDS: usize = signals::WORDS;

// The words of a slot in which a short answer is built: fewer are cleared for it.
pub const SHORT: usize = 32;

// The answer being built in a slot: the value after its last word, its words counted, and whether one is dated after M.
#[derive(Clone, Copy)]
pub struct Made {
    pub value: bool,
    pub count: u32,
    pub late: bool,
}

// Both values equal the value before.
#[tactic(auto, unfolding(crate::specs::Building::idle))]
fn idle_word(before: bool, at: bool, after: bool) -> bool
    ensures { result ≡ idle before at after }
{
    at == before && after == before
}

// The first word of an answer.
#[tactic(auto, using(crate::proofs::BuildingLaws::no_place), unfolding(crate::specs::Building::begun))]
pub fn begin(slot: &mut [u32], value: bool) -> Made
    ensures { Begins value slot.old result slot.new }
{
    if !slot.is_empty() {
        slot[0] = u32::from(value);
    }
    Made {
        value,
        count: 1,
        late: false,
    }
}

// A word of the given date and values, unless it changes nothing: counted always, stored while the slot has room and none
// is dated after M. The count goes round at 2^32, above the words of any answer. Made is given back field by field, so that the
// bytes between its fields are not copied in every turn of a loop.
#[tactic(auto, unfolding(crate::specs::Building::emitted, crate::specs::Building::emitted_in, crate::specs::Building::stores))]
pub fn emit(slot: &mut [u32], made: Made, date: Date, at: bool, after: bool) -> Made
    ensures { Emits made date.0 at after slot.old result slot.new }
{
    if idle_word(made.value, at, after) {
        return Made {
            value: made.value,
            count: made.count,
            late: made.late,
        };
    }
    let count = made.count.wrapping_add(1);
    if made.late || M < date.0 {
        return Made {
            value: after,
            count,
            late: true,
        };
    }
    let place = made.count as usize;
    if place < slot.len() {
        slot[place] = words::word_of(date, at, after) as u32;
    }
    Made {
        value: after,
        count,
        late: false,
    }
}

// Words copied to the front of the output.
#[tactic(auto, using(copying::proofs::Copying::copied_fits))]
fn copy_words(words: &[u32], out: &mut [u32])
    requires { length words.now ≤ length out.old }
    ensures { out.new ≡ words.now ++ drop (length words.now) out.old }
{
    copying::copy(words, out);
}

// A list handed to the output if that is long enough, else 7.
#[tactic(auto, unfolding(operations::specs::Calls::room_fault, signals::specs::Answers::written_of, signals::specs::Answers::output_of))]
pub fn hand_over(words: &[u32], out: &mut [u32]) -> Written
    ensures { HandsOver words.now out.old result out.new }
{
    if out.len() < words.len() {
        return Written::Refused(7);
    }
    copy_words(words, out);
    Written::Count(words.len())
}

// The answer in a slot, judged (5, 6, 7) and handed over.
#[tactic(auto, unfolding(crate::specs::Building::made_fault, signals::specs::Answers::written_of, signals::specs::Answers::output_of))]
pub fn deliver(slot: &[u32], made: Made, out: &mut [u32]) -> Written
    ensures { Delivers made slot.now out.old result out.new }
{
    let count = made.count as usize;
    if WORDS < count || slot.len() < count {
        return Written::Refused(5);
    }
    if made.late {
        return Written::Refused(6);
    }
    hand_over(&slot[..count], out)
}

// What a call in a lent slot gives: the answer's words, counted, stand in the slot; or it is over 256 words, or changes after M;
// or the call did not begin, for a fault of an operand or of the length, or for a slot under 256 words.
#[derive(Clone, Copy)]
pub enum SlotAnswer {
    Stands(usize),
    TooLong,
    TooLate,
    NotBegun,
}

// The answer built in a slot, judged.
#[tactic(auto, unfolding(crate::specs::Slots::made_answer))]
pub fn finish(made: Made) -> SlotAnswer
    ensures { result ≡ made_answer made }
{
    let count = made.count as usize;
    if WORDS < count {
        SlotAnswer::TooLong
    } else if made.late {
        SlotAnswer::TooLate
    } else {
        SlotAnswer::Stands(count)
    }
}
