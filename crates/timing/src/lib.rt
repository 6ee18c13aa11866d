// A delay's state, and how it follows its input from moment to moment.
#![tactic(auto)]

ghost use Rattle.std.specs.Prelude.{◌≡◌};
ghost use Rattle.timing.specs.Delay.{date_in, pending, reached, risen, timer_next, first_timer, on_level};

use signals::{Date, Length, Sum};

// A delay's state: its level now, and the pending change if there is one: its date, and whether it comes at the instant
// or after it.
#[derive(Clone, Copy)]
pub struct Timer {
    pub level: bool,
    pub waiting: bool,
    pub due: Date,
    pub at: bool,
}

// The date of a sum, past M too.
pub fn date_in(sum: Sum) -> Date
    ensures { result.0 ≡ date_in sum }
{
    match sum {
        Sum::On(date) => date,
        Sum::PastM(date) => Date(date),
        Sum::Refused(_) => Date(reading::NEVER),
    }
}

// A delay that waits for its length from the instant of a date, or from the gap after it.
#[tactic(auto, unfolding(crate::specs::Delay::pending))]
fn pending_from(date: Date, at: bool, d: Length) -> Timer
    ensures { result ≡ pending date.0 at d.0 }
{
    Timer {
        level: false,
        waiting: true,
        due: date_in(words::date_plus_length(date, d)),
        at,
    }
}

// The pending change has come by the instant of the date, or by the gap after it.
#[tactic(auto, unfolding(crate::specs::Delay::reached))]
fn has_come(timer: Timer, date: Date, at: bool) -> bool
    ensures { result ≡ reached timer date.0 at }
{
    timer.due.0 == date.0 && (!at || timer.at)
}

// The delay with its pending change made if it has come. Else it is given back field by field, as in `follow`, so that the bytes between
// the fields are not copied in every turn of a loop.
#[tactic(auto, unfolding(crate::specs::Delay::risen))]
fn rise(timer: Timer, date: Date, at: bool) -> Timer
    ensures { result ≡ risen timer date.0 at }
{
    if has_come(timer, date, at) {
        return Timer {
            level: true,
            waiting: false,
            due: date,
            at,
        };
    }
    Timer {
        level: timer.level,
        waiting: timer.waiting,
        due: timer.due,
        at: timer.at,
    }
}

// The delay at the next moment, the instant of the date or the gap after it, where its input has the value.
#[tactic(auto, unfolding(crate::specs::Delay::timer_next))]
pub fn follow(timer: Timer, d: Length, date: Date, at: bool, value: bool) -> Timer
    ensures { result ≡ timer_next timer d.0 date.0 at value }
{
    if value {
        if timer.level {
            return Timer {
                level: timer.level,
                waiting: timer.waiting,
                due: timer.due,
                at: timer.at,
            };
        }
        if timer.waiting {
            return rise(timer, date, at);
        }
        return rise(pending_from(date, at, d), date, at);
    }
    Timer {
        level: false,
        waiting: false,
        due: date,
        at,
    }
}

// The delay in gap 0: a run from there on waits for the length, or does not.
#[tactic(auto, unfolding(crate::specs::Delay::first_timer))]
pub fn first(d: Length, waits: bool, value: bool) -> Timer
    ensures { result ≡ first_timer waits d.0 value }
{
    if value && waits {
        return rise(pending_from(Date(0), true, d), Date(0), false);
    }
    Timer {
        level: value,
        waiting: false,
        due: Date(0),
        at: true,
    }
}

// Whether a value is the level; and the value that is or is not the level.
pub fn on_level(level: bool, value: bool) -> bool
    ensures { result ≡ on_level level value }
{
    level == value
}
