// Whether an engine with a length may build its answer in a slot of the work area.
#![tactic(auto)]

ghost use Rattle.std.specs.Prelude.{◌≡◌};
ghost use Rattle.lent_slots.specs.Lent.{may_build};

use building::WORDS;
use signals::{Length, M};
use sources::Source;

// The length is at most M, and the slot of 256 words is in the work area, apart from the operand.
#[tactic(auto, unfolding(crate::specs::Lent::may_build))]
pub fn begins(d: Length, f: Source, at: u32, room: usize) -> bool
    ensures { result ≡ may_build d.0 f at room }
{
    d.0 <= M && at as usize + WORDS <= room && sources::apart(f, at, WORDS as u32)
}
