// The stack machine that the evaluator is, on trees and on lists: specs/ and proofs/ only.
#![tactic(auto)]
