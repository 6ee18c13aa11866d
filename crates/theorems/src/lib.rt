// Each statement of the crates with its term: proofs/ only.
#![tactic(auto)]
