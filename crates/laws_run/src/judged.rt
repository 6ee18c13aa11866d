// Formulas 1 and 2 compared: their words, their verdicts on each other, and theirs to and from formula 3.
// The tally: 0 mismatches, 1 and 2 the applications from the left and from the right that were answered, 3 those refused.
use evaluation::WORK_WORDS;
use random_calls::{call, claim, old_words};
use random_formulas::cells::{Cells, TALLY, count};

// Whether all that the two calls give is the same, into outputs of old words; none when one is refused.
fn same_words(cells: &Cells, work: &mut [u32]) -> Option<bool> {
    let mut of_f = old_words();
    let mut of_g = old_words();
    let count_f = call(cells, 1, work, &mut of_f);
    let count_g = call(cells, 2, work, &mut of_g);
    if 999 < count_f || 999 < count_g {
        None
    } else {
        Some(count_f == count_g && of_f == of_g)
    }
}

// Formulas 1 and 2 to each other hold: how often not.
fn between(cells: &Cells, work: &mut [u32]) -> u64 {
    let there = claim(cells, 1, 2, work);
    let back = claim(cells, 2, 1, work);
    u64::from(there != 0) + u64::from(back != 0)
}

// The verdicts on formulas 1 and 2 to formula 3 are the same, and those on formula 3 to them: how often not.
fn beside(cells: &Cells, work: &mut [u32]) -> u64 {
    let f_to = claim(cells, 1, 3, work);
    let g_to = claim(cells, 2, 3, work);
    let to_f = claim(cells, 3, 1, work);
    let to_g = claim(cells, 3, 2, work);
    u64::from(f_to != g_to) + u64::from(to_f != to_g)
}

// How often a verdict differs.
fn verdicts(cells: &Cells, work: &mut [u32]) -> u64 {
    let wrong = between(cells, work) % 4;
    wrong + beside(cells, work) % 4
}

pub fn judge(cells: &mut Cells, way: usize) {
    let mut work = [0u32; WORK_WORDS];
    match same_words(cells, &mut work) {
        Some(same) => {
            let wrong = verdicts(cells, &mut work) % 8 + u64::from(!same);
            count(cells, TALLY + way % 3, 1);
            count(cells, TALLY, wrong);
        }
        None => count(cells, TALLY + 3, 1),
    }
}
