// How a delay is built word by word: the change that is pending before a word comes first.
#![tactic(auto)]

ghost use Rattle.std.specs.Prelude.{◌≡◌};
ghost use Rattle.delaying.specs.Turns.{state_of, settled};

use building::Made;
use signals::Date;
use timing::Timer;

// A delay on its way: its state, and the answer being built.
#[derive(Clone, Copy)]
pub struct Going {
    pub timer: Timer,
    pub made: Made,
}

// The pending change, where it comes before a date, put into the slot. All is given back field by field, so that the bytes between the
// fields are not copied in every turn of the loop.
#[tactic(auto, unfolding(crate::specs::Turns::settled))]
pub fn settle(slot: &mut [u32], level: bool, timer: Timer, made: Made, next: Date) -> Going
    ensures { state_of result.timer result.made slot.new ≡ settled level next.0 (state_of timer made slot.old) }
{
    if timer.waiting && timer.due.0 < next.0 {
        let here = timing::on_level(level, timer.at);
        return Going {
            timer: Timer {
                level: true,
                waiting: false,
                due: timer.due,
                at: timer.at,
            },
            made: building::emit(slot, made, timer.due, here, level),
        };
    }
    Going {
        timer: Timer {
            level: timer.level,
            waiting: timer.waiting,
            due: timer.due,
            at: timer.at,
        },
        made: Made {
            value: made.value,
            count: made.count,
            late: made.late,
        },
    }
}
