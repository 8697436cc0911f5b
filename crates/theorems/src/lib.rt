// The theorems that the bench is for. No code: specs/ has the words that they use, proofs/ has them.
#![tactic(auto)]
