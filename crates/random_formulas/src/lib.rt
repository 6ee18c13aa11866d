// Test support: random trees and their texts on cells of numbers. No function has a `requires`; what is proved of each is that it is
// safe and ends.
#![tactic(auto)]

pub mod cells;
pub mod texts;
pub mod trees;
