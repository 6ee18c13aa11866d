// The value of a list's signal, asked at an instant and in a gap.
#![tactic(auto)]

ghost use Rattle.std.specs.Prelude.{◌≡◌};
ghost use Rattle.signals.specs.Words.{list_fault};
ghost use Rattle.signals.specs.Answers.{told_value};
ghost use Rattle.questions.specs.Questions.{value_at_of, value_in_of};
ghost use Rattle.reading.specs.Along.{Sought};

use lists::list_fault;
use reading::{Step, along, past};
use signals::{Date, M, Told};

// Along an accepted list up to a date: the words dated at or before it are passed.
fn search(words: &[u32], date: Date) -> Step
    requires { list_fault words.now ≡ 0 }
    ensures { Sought words.now date.0 result }
{
    let passed = along(words, 1, date);
    past(words, passed, date)
}

fn told(value: bool) -> Told
    ensures { result ≡ told_value value }
{
    if value { Told::Yes } else { Told::No }
}

// The value at the instant k.
#[tactic(auto, using(crate::proofs::Telling::value_at_is))]
pub fn value_at(list: &[u32], k: u32) -> Told
    ensures { result ≡ value_at_of list.now k }
{
    let fault = list_fault(list);
    if fault != 0 {
        return Told::Refused(fault);
    }
    if k == 0 || k > M {
        return Told::Refused(9);
    }
    told(search(list, Date(k)).at)
}

// The value in the gap k.
#[tactic(auto, using(crate::proofs::Telling::value_in_is))]
pub fn value_in(list: &[u32], k: u32) -> Told
    ensures { result ≡ value_in_of list.now k }
{
    let fault = list_fault(list);
    if fault != 0 {
        return Told::Refused(fault);
    }
    if M < k {
        return Told::Refused(9);
    }
    told(search(list, Date(k)).after)
}
