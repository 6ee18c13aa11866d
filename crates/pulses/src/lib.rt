// The pulse timer TP of a list.
#![tactic(auto)]

ghost use Rattle.std.specs.Prelude.{◌≡◌, ◌*◌, ◌≤◌, min, length};
ghost use Rattle.signals.specs.Signal.{TP};
ghost use Rattle.signals.specs.Words.{most_words, list_fault};
ghost use Rattle.operations.specs.Calls.{CallOfDelay};
ghost use Rattle.lent_slots.specs.Lent.{ended_by};
ghost use Rattle.pulsing.specs.Turns.{pulse_engine};

use building::{Made, SHORT, WORDS};
use reading::NEVER;
use signals::{Date, Length, M, Written};

// The pulses of a slice's list, built in a slot of any length.
fn pulse_words(d: Length, f: &[u32], slot: &mut [u32]) -> Made
    requires { length f.now ≤ most_words }
    ensures { ended_by result slot.new ≡ pulse_engine d.0 f.now slot.old }
{
    let mut due = Date(0);
    let mut made = building::begin(slot, false);
    let mut reader = sources::start_in(f);
    while reader.date < NEVER {
        let date = Date(reader.date);
        let passed = sources::past_in(f, reader, reader.date);
        let step = passed.step;
        let going = pulsing::pass(slot, d, due, made, date, step.before, step.at);
        due = going.due;
        made = going.made;
        reader = passed.next;
    }
    building::emit(slot, made, due, false, false)
}

// The pulses of an accepted list for an accepted length, built in a slot that holds the answer, and delivered to an output. It has fewer
// than two words for each word of the list.
fn delivered<const N: usize>(d: Length, f: &[u32], out: &mut [u32]) -> Written
    requires accepted { list_fault f.now ≡ 0 }
    requires short { d.0 ≤ M }
    requires held { min most_words (2 * length f.now) ≤ N }
    requires small { N ≤ most_words }
    ensures { CallOfDelay (TP d.0) d.0 f.now out.old result out.new }
{
    let mut slot = [0u32; N];
    let made = pulse_words(d, f, &mut slot);
    building::deliver(&slot, made, out)
}

// TP(d,f), the pulse timer: faults list, 8, 5, 6, 7.
pub fn tp(d: Length, f: &[u32], out: &mut [u32]) -> Written
    ensures { CallOfDelay (TP d.0) d.0 f.now out.old result out.new }
{
    let fault = lists::list_fault(f);
    if fault != 0 {
        return Written::Refused(fault);
    }
    if M < d.0 {
        return Written::Refused(8);
    }
    if 2 * f.len() <= SHORT {
        delivered::<SHORT>(d, f, out)
    } else {
        delivered::<WORDS>(d, f, out)
    }
}
