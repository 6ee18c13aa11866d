// One signal's values at a rising list of moments (document 02, request 5) as definitions and theorems, and what the call answers.
#![tactic(auto)]

// What the call answers: how many words it wrote, one a moment, and how many words of the list were passed; or the fault number that
// refuses it.
#[derive(Clone, Copy)]
pub enum Column {
    Filled { count: usize, passed: usize },
    Refused(u32),
}
