// The longest beginning of a text that some formula begins with: a definition and its theorem. No code.
#![tactic(auto)]
