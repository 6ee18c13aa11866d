// The calls on lists as definitions, and what they give: specs/ and proofs/ only.
#![tactic(auto)]
