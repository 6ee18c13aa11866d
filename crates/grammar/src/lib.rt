// The grammar of formulas, their trees and code words, and the reader as a function: specs/ and proofs/ only, but for the answer of
// reading.
#![tactic(auto)]

// What reading a text tells: its fault as a formula, 0 for none; the place where reading stops; how many parts it has, 0 where it has a
// fault.
#[derive(Clone, Copy)]
pub struct Stop {
    pub fault: u32,
    pub place: usize,
    pub parts: usize,
}
