// What nodes, edges, cycles and rounds are. No code: specs/ and proofs/ are what it holds.
#![tactic(auto)]
