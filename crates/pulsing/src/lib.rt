// How a pulse timer is built date by date: a rising instant at which no pulse is running starts one, and rises before its end are ignored.
#![tactic(auto)]

ghost use Rattle.std.specs.Prelude.{◌≡◌};
ghost use Rattle.signals.specs.Answers.{sum_of};
ghost use Rattle.timing.specs.Delay.{date_in};
ghost use Rattle.lent_slots.specs.Lent.{ended_by};
ghost use Rattle.pulsing.specs.Turns.{pulse_of, closed, starts_at, started_at, past_date};

use building::Made;
use signals::{Date, Length};

// A pulse timer on its way: the end of the last pulse, 0 where none has started, and the answer being built.
#[derive(Clone, Copy)]
pub struct Going {
    pub due: Date,
    pub made: Made,
}

// The end of a pulse that starts at a date.
fn end_of(date: Date, d: Length) -> Date
    ensures { result.0 ≡ date_in (sum_of date.0 d.0) }
{
    timing::date_in(words::date_plus_length(date, d))
}

// A date starts a pulse, by the input's values before it and at it: the input rises, and the last pulse has ended.
#[tactic(auto, unfolding(crate::specs::Turns::starts_at))]
fn starts(before: bool, at: bool, due: Date, date: Date) -> bool
    ensures { result ≡ starts_at before at due.0 date.0 }
{
    at && !before && due.0 <= date.0
}

// The end of the last pulse, where it comes before a date: one that starts there joins it.
#[tactic(auto, unfolding(crate::specs::Turns::closed))]
fn close(slot: &mut [u32], due: Date, next: Date, made: Made) -> Made
    ensures { ended_by result slot.new ≡ closed due.0 next.0 (ended_by made slot.old) }
{
    if due.0 < next.0 {
        return building::emit(slot, made, due, false, false);
    }
    made
}

// A pulse starts at a date, none at all where its length is 0.
#[tactic(auto, unfolding(crate::specs::Turns::started_at))]
fn start(slot: &mut [u32], d: Length, due: Date, date: Date, made: Made) -> Made
    ensures { ended_by result slot.new ≡ started_at d.0 due.0 date.0 (ended_by made slot.old) }
{
    let ended = close(slot, due, date, made);
    let up = 0 < d.0;
    building::emit(slot, ended, date, up, up)
}

// Past a date, with the values of the input before it and at it.
#[tactic(auto, unfolding(crate::specs::Turns::past_date))]
pub fn pass(
    slot: &mut [u32],
    d: Length,
    due: Date,
    made: Made,
    date: Date,
    before: bool,
    at: bool,
) -> Going
    ensures { pulse_of result.due.0 result.made slot.new
        ≡ past_date d.0 before at date.0 (pulse_of due.0 made slot.old) }
{
    if starts(before, at, due, date) {
        return Going {
            due: end_of(date, d),
            made: start(slot, d, due, date, made),
        };
    }
    Going { due, made }
}
