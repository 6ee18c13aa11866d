// On-delay and off-delay: one engine that follows one level of its input.
#![tactic(auto)]

ghost use Rattle.std.specs.Prelude.{◌≡◌, ◌*◌, ◌≤◌, min, length};
ghost use Rattle.signals.specs.Words.{most_words, list_fault};
ghost use Rattle.signals.specs.Signal.{TON, TOF};
ghost use Rattle.operations.specs.Calls.{CallOfDelay};
ghost use Rattle.timing.specs.Delay.{delay_of};
ghost use Rattle.delaying.specs.Turns.{last_state, Ends};

use building::{Made, SHORT, WORDS};
use signals::{Date, Length, M, Written};

// The delay of one level of a list, built in a slot of any length. The loop has the body of the one in
// `delay_parts` once more: as a function called in both, it would be put into neither, and a trial took three times as long.
fn delay_words(level: bool, d: Length, f: &[u32], slot: &mut [u32]) -> Made
    requires { 1 ≤ length f.now }
    ensures { Ends (last_state level d.0 f.now slot.old) result slot.new }
{
    let value = timing::on_level(level, f[0] % 2 == 1);
    let mut timer = timing::first(d, level, value);
    let shown = timing::on_level(level, timer.level);
    let mut made = building::begin(slot, shown);
    for word in &f[1..] {
        let date = Date(word / 4);
        let before = delaying::settle(slot, level, timer, made, date);
        let here = timing::on_level(level, word / 2 % 2 == 1);
        let next = timing::on_level(level, word % 2 == 1);
        let now_at = timing::follow(before.timer, d, date, true, here);
        timer = timing::follow(now_at, d, date, false, next);
        let at = timing::on_level(level, now_at.level);
        let after = timing::on_level(level, timer.level);
        made = building::emit(slot, before.made, date, at, after);
    }
    let last = delaying::settle(slot, level, timer, made, Date(reading::NEVER));
    last.made
}

// The delay of an accepted list by an accepted length, built in a slot that holds its answer, and delivered to an output. It has at most
// two words for each word of the list.
fn delivered<const N: usize>(level: bool, d: Length, f: &[u32], out: &mut [u32]) -> Written
    requires accepted { list_fault f.now ≡ 0 }
    requires short { d.0 ≤ M }
    requires held { min most_words (2 * length f.now) ≤ N }
    requires small { N ≤ most_words }
    ensures { CallOfDelay (delay_of level d.0) d.0 f.now out.old result out.new }
{
    let mut slot = [0u32; N];
    let made = delay_words(level, d, f, &mut slot);
    building::deliver(&slot, made, out)
}

// A delay of a list that is judged first.
fn delay(level: bool, d: Length, f: &[u32], out: &mut [u32]) -> Written
    ensures { CallOfDelay (delay_of level d.0) d.0 f.now out.old result out.new }
{
    let fault = lists::list_fault(f);
    if fault != 0 {
        return Written::Refused(fault);
    }
    if M < d.0 {
        return Written::Refused(8);
    }
    if 2 * f.len() <= SHORT {
        delivered::<SHORT>(level, d, f, out)
    } else {
        delivered::<WORDS>(level, d, f, out)
    }
}

// TON(d,f), the on-delay: faults list, 8, 5, 6, 7.
pub fn ton(d: Length, f: &[u32], out: &mut [u32]) -> Written
    ensures { CallOfDelay (TON d.0) d.0 f.now out.old result out.new }
{
    delay(true, d, f, out)
}

// TOF(d,f), the off-delay: faults list, 8, 5, 6, 7. The engine follows the level down, and a run from gap 0 on does not wait.
pub fn tof(d: Length, f: &[u32], out: &mut [u32]) -> Written
    ensures { CallOfDelay (TOF d.0) d.0 f.now out.old result out.new }
{
    delay(false, d, f, out)
}
