// The theory of reordering is definitions (specs/) and laws (proofs/); it has no code.
#![tactic(auto)]
