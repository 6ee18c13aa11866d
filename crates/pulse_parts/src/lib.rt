// The pulse timer of a list where it stands, in a slot of the work area.
#![tactic(auto)]

ghost use Rattle.std.specs.Prelude.{◌≡◌, true, ◌+◌, ◌≤◌, length, drop};
ghost use Rattle.signals.specs.Words.{most_words};
ghost use Rattle.signals.specs.Passing.{held_value};
ghost use Rattle.sources.specs.Lending.{list_in};
ghost use Rattle.sources.specs.Sources.{apart_from, slot_in};
ghost use Rattle.lent_slots.specs.Lent.{through, EndsIn, BuiltAt};
ghost use Rattle.pulsing.specs.Turns.{state_of, past_word, finish, pulse_engine};

use building::{Made, SlotAnswer, WORDS};
use reading::NEVER;
use signals::{Date, Length};
use sources::{Lent, Source};

// The words of a list from the second on, then the end of the last pulse, in the slot from a place on.
fn pass_words(d: Length, lent: Lent, work: &mut [u32], f: Source, at: usize, begun: Made) -> Made
    requires { (at + most_words ≤ length work.old) × (apart_from f at most_words ≡ true) }
    ensures { EndsIn (finish (through (past_word d.0)
        (drop 1 (list_in lent.entry work.old f))
        (state_of (held_value (list_in lent.entry work.old f) 1) 0 begun
        (slot_in work.old at most_words)))) work.old at most_words result work.new }
{
    let end = at + WORDS;
    let mut due = Date(0);
    let mut made = begun;
    let mut reader = lent.start(work, f);
    while reader.date < NEVER {
        let date = Date(reader.date);
        let passed = lent.past(work, f, reader, date);
        let step = passed.step;
        let going = pulsing::pass(&mut work[at..end], d, due, made, date, step.before, step.at);
        due = going.due;
        made = going.made;
        reader = passed.next;
    }
    building::emit(&mut work[at..end], made, due, false, false)
}

// The pulses of a list, built in the slot from a place of the work area on.
fn run(d: Length, lent: Lent, work: &mut [u32], f: Source, at: usize) -> Made
    requires { (at + most_words ≤ length work.old) × (apart_from f at most_words ≡ true) }
    ensures { EndsIn (pulse_engine d.0 (list_in lent.entry work.old f)
        (slot_in work.old at most_words)) work.old at most_words result work.new }
{
    let end = at + WORDS;
    let made = building::begin(&mut work[at..end], false);
    pass_words(d, lent, work, f, at, made)
}

// TP of a list that stands anywhere, in a slot of the work area: no entry point, since the slot is scratch.
pub fn pulse_at(d: Length, lent: Lent, work: &mut [u32], f: Source, at: u32) -> SlotAnswer
    ensures { let l = lent.entry in BuiltAt (pulse_engine d.0) d.0 l.sheet.now l.left.now l.right.now work.old f at result work.new }
{
    if lent_slots::begins(d, f, at, work.len()) {
        return building::finish(run(d, lent, work, f, at as usize));
    }
    SlotAnswer::NotBegun
}
