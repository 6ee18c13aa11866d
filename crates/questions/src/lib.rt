// What the questions about lists answer, as definitions and theorems: no code. Crates asking and comparing have the calls.
#![tactic(auto)]
