// Why plays stay inside their limits: every play is a schedule, and every schedule ends. No code: specs/inside has the words
// of these statements, proofs/ has them.
#![tactic(auto)]
