// The law table, one-step rewriting and their soundness: specs/ and proofs/ only.
#![tactic(auto)]
