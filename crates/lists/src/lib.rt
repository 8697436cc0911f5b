// Definitions and laws on lists and bytes that more than one crate needs. No code: specs/ and proofs/ are what it holds.
#![tactic(auto)]
