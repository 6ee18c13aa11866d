// The format of sheets, as definitions and theorems, and the answer that names a place on a sheet.
#![tactic(auto)]

// Where the words of a signal stand on a sheet: the first byte and the number of bytes, or the fault that refuses the lookup.
#[derive(Clone, Copy)]
pub enum Place {
    At { start: usize, count: usize },
    Refused(u32),
}
