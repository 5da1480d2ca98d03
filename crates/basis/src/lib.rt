// The names of the kit that the definitions (specs/) and the laws (proofs/) of all crates use; there are no functions.
#![tactic(auto)]
