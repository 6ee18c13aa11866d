// The formula call and the claim as definitions, and demands 2 and 3 over them: specs/ and proofs/ only.
#![tactic(auto)]
