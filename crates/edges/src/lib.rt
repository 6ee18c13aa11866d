// NOT and the edges: operations of one list.
#![tactic(auto)]

ghost use Rattle.std.specs.Prelude.{◌≡◌, false, ◌++◌, ◌≤◌, length, drop, get_or};
ghost use Rattle.signals.specs.Signal.{NOT, rising, falling};
ghost use Rattle.operations.specs.Calls.{CallOfOne};
ghost use Rattle.edges.specs.Turning.{turned_list};
ghost use Rattle.edges.specs.Edging.{edge_of, is_edge, EdgesIn};

use building::{Made, WORDS};
use signals::{Date, Written};

// A list with each value turned, at the front of the output.
fn turn_words(words: &[u32], out: &mut [u32])
    requires { (1 ≤ length words.now) × (get_or words.now 0 0 ≤ 1) × (length words.now ≤ length out.old) }
    ensures { out.new ≡ turned_list words.now ++ drop (length words.now) out.old }
{
    out[0] = 1 - words[0];
    for i in 1..words.len() {
        out[i] = 4 * (words[i] / 4) + (3 - words[i] % 4);
    }
}

// NOT: faults list, 7.
pub fn not(a: &[u32], out: &mut [u32]) -> Written
    ensures { CallOfOne NOT a.now out.old result out.new }
{
    let fault = lists::list_fault(a);
    if fault != 0 {
        return Written::Refused(fault);
    }
    if out.len() < a.len() {
        return Written::Refused(7);
    }
    turn_words(a, out);
    Written::Count(a.len())
}

// Whether a date with this value at it and this one before it has an edge to the level.
#[tactic(auto, unfolding(crate::specs::Edging::is_edge))]
fn is_edge(level: bool, before: bool, at: bool) -> bool
    ensures { result ≡ is_edge level before at }
{
    at == level && before != level
}

// The edges of a list to a level, built in a slot word by word.
fn edge_words(level: bool, a: &[u32], slot: &mut [u32]) -> Made
    requires { 1 ≤ length a.now }
    ensures { EdgesIn level a.now slot.old result slot.new }
{
    let mut made = building::begin(slot, false);
    let mut before = a[0] % 2 == 1;
    for &word in &a[1..] {
        made = building::emit(
            slot,
            made,
            Date(word / 4),
            is_edge(level, before, word / 2 % 2 == 1),
            false,
        );
        before = word % 2 == 1;
    }
    made
}

// The edges of a list that is judged first. They are never more words than the list, so they are built in the output where that is as long
// as the list, else in a slot.
fn edges(level: bool, a: &[u32], out: &mut [u32]) -> Written
    ensures { CallOfOne (edge_of level) a.now out.old result out.new }
{
    let fault = lists::list_fault(a);
    if fault != 0 {
        return Written::Refused(fault);
    }
    if a.len() <= out.len() {
        let made = edge_words(level, a, out);
        return Written::Count(made.count as usize);
    }
    let mut slot = [0u32; WORDS];
    let made = edge_words(level, a, &mut slot);
    building::deliver(&slot, made, out)
}

// Rising edges: faults list, 7.
pub fn rising(a: &[u32], out: &mut [u32]) -> Written
    ensures { CallOfOne rising a.now out.old result out.new }
{
    edges(true, a, out)
}

// Falling edges: faults list, 7.
pub fn falling(a: &[u32], out: &mut [u32]) -> Written
    ensures { CallOfOne falling a.now out.old result out.new }
{
    edges(false, a, out)
}
