// Test support: random signals and their sheets on the cells. No function has a `requires`; what is proved of each is that it is safe and
// ends.
#![tactic(auto)]

pub mod drawn;
pub mod rows;
