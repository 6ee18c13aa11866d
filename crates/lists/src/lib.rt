// Lists: the check of a list.
#![tactic(auto)]

ghost use Rattle.std.specs.Prelude.{◌≡◌, get_or, drop};
ghost use Rattle.signals.specs.Words.{head_value, words_fault, list_fault, pair_fault};
ghost use Rattle.lists.specs.Head.{head_fault};

use signals::WORDS;
use words::changes_nothing;

// The fault of a list's length and first word.
#[tactic(auto, using(crate::proofs::Judging::head_is))]
pub fn head_fault(list: &[u32]) -> u32
    ensures { result ≡ head_fault list.now }
{
    if list.is_empty() || WORDS < list.len() {
        1
    } else if 1 < list[0] {
        2
    } else {
        0
    }
}

// The fault of the words after the first, each judged by the word before it, which has the last date and the value held since.
#[tactic(auto, using(crate::proofs::Judging::head_some, crate::proofs::Judging::judged, crate::proofs::Judging::done))]
fn words_fault(list: &[u32]) -> u32
    requires { head_fault list.now ≡ 0 }
    ensures { result ≡ words_fault 0 (head_value (get_or list.now 0 0)) (drop 1 list.now) }
{
    let mut before = list[0];
    for &w in &list[1..] {
        // not of a later date: not above the last word of the date before
        if w <= before / 4 * 4 + 3 {
            return 3;
        }
        if changes_nothing(before % 2 == 1, w) {
            return 4;
        }
        before = w;
    }
    0
}

// The fault of a list, 0 for an accepted one.
#[tactic(auto, using(crate::proofs::Judging::list_is))]
pub fn list_fault(list: &[u32]) -> u32
    ensures { result ≡ list_fault list.now }
{
    match head_fault(list) {
        0 => words_fault(list),
        fault => fault,
    }
}

// The fault of two lists, first operand first.
#[tactic(auto, unfolding(signals::specs::Words::pair_fault, signals::specs::Answers::first_of))]
pub fn pair_fault(a: &[u32], b: &[u32]) -> u32
    ensures { result ≡ pair_fault a.now b.now }
{
    match list_fault(a) {
        0 => list_fault(b),
        fault => fault,
    }
}
