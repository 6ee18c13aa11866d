// Test support: the call on a list and moments.
#![tactic(auto)]

use answers::shown::with_words;
use answers::{counted, shown, written};
use columns::Column;
use signals::Written;
use std::io;

// How many words, how many words of the list were passed, the output.
fn values_in(rt: &impl Print, list: &[u32], moments: &[u32], out: &mut [u32]) -> io::Result<()> {
    match charting::values(list, moments, out) {
        Column::Filled { count, passed } => {
            shown::number(rt, count as u64)?;
            with_words(rt, counted(passed as u64), out)
        }
        Column::Refused(fault) => with_words(rt, written(Written::Refused(fault)), out),
    }
}

// With as many words of output, which has room for more than the most moments.
pub fn values(rt: &impl Print, list: &[u32], moments: &[u32], room: usize) -> io::Result<()> {
    let mut out = [7u32; 1002];
    if let Some(out) = out.get_mut(..room) {
        values_in(rt, list, moments, out)?;
    }
    Ok(())
}
