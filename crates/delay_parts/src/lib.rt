// The delay of a list where it stands, in a slot of the work area.
#![tactic(auto)]

ghost use Rattle.std.specs.Prelude.{◌≡◌, true, ◌+◌, ◌≤◌, length, drop};
ghost use Rattle.signals.specs.Words.{most_words};
ghost use Rattle.sources.specs.Lending.{list_in};
ghost use Rattle.sources.specs.Sources.{apart_from, slot_in};
ghost use Rattle.lent_slots.specs.Lent.{EndsIn, BuiltAt};
ghost use Rattle.delaying.specs.Turns.{state_of, past_word, past_words};
ghost use Rattle.delay_parts.specs.DelayAt.{ended, delay_engine};

use building::{Made, SlotAnswer, WORDS};
use delaying::Going;
use signals::{Date, Length};
use sources::{Lent, Source};
use timing::Timer;

// Past a word: the change that comes before it, then the delay at its date and after it.
fn pass(slot: &mut [u32], level: bool, d: Length, timer: Timer, made: Made, word: u32) -> Going
    ensures { state_of result.timer result.made slot.new ≡ past_word level d.0 (state_of timer made slot.old) word }
{
    let date = Date(word / 4);
    let before = delaying::settle(slot, level, timer, made, date);
    let here = timing::on_level(level, word / 2 % 2 == 1);
    let next = timing::on_level(level, word % 2 == 1);
    let now_at = timing::follow(before.timer, d, date, true, here);
    let now_after = timing::follow(now_at, d, date, false, next);
    let at = timing::on_level(level, now_at.level);
    let after = timing::on_level(level, now_after.level);
    Going {
        timer: now_after,
        made: building::emit(slot, before.made, date, at, after),
    }
}

// The words of a list from the second on, then the change that is still pending, in the slot from a place on.
fn pass_words(
    level: bool,
    d: Length,
    lent: Lent,
    work: &mut [u32],
    f: Source,
    at: usize,
    first: Timer,
    begun: Made,
) -> Made
    requires { (at + most_words ≤ length work.old) × (apart_from f at most_words ≡ true) }
    ensures { EndsIn (ended (past_words level d.0
        (drop 1 (list_in lent.entry work.old f))
        (state_of first begun (slot_in work.old at most_words)))) work.old at most_words result work.new }
{
    let end = at + WORDS;
    let mut timer = first;
    let mut made = begun;
    let mut passed: usize = 1;
    let mut word = lent.next_word(work, f, 1);
    while word < sources::NONE {
        let going = pass(&mut work[at..end], level, d, timer, made, word as u32);
        timer = going.timer;
        made = going.made;
        passed += 1;
        word = lent.next_word(work, f, passed);
    }
    let going = delaying::settle(&mut work[at..end], level, timer, made, Date(reading::NEVER));
    going.made
}

// The delay of one level of a list, built in the slot from a place of the work area on.
fn run(level: bool, d: Length, lent: Lent, work: &mut [u32], f: Source, at: usize) -> Made
    requires { (at + most_words ≤ length work.old) × (apart_from f at most_words ≡ true) }
    ensures { EndsIn (delay_engine level d.0 (list_in lent.entry work.old f)
        (slot_in work.old at most_words)) work.old at most_words result work.new }
{
    let end = at + WORDS;
    let word = lent.next_word(work, f, 0);
    let value = timing::on_level(level, word % 2 == 1);
    let timer = timing::first(d, level, value);
    let shown = timing::on_level(level, timer.level);
    let made = building::begin(&mut work[at..end], shown);
    pass_words(level, d, lent, work, f, at, timer, made)
}

// The delay of one level of a list that stands anywhere, in a slot of the work area: no entry point, since the slot is scratch.
pub fn delay_at(
    level: bool,
    d: Length,
    lent: Lent,
    work: &mut [u32],
    f: Source,
    at: u32,
) -> SlotAnswer
    ensures { let l = lent.entry in BuiltAt (delay_engine level d.0) d.0 l.sheet.now l.left.now l.right.now work.old f at result work.new }
{
    if lent_slots::begins(d, f, at, work.len()) {
        return building::finish(run(level, d, lent, work, f, at as usize));
    }
    SlotAnswer::NotBegun
}
