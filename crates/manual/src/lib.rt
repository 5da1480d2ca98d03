// The manual's rules are definitions (specs/) and laws (proofs/). What they share with the code is one type; there are no functions.
#![tactic(auto)]

// The marks of a machine.
#[derive(Clone, Copy)]
pub struct Marks {
    // the tag mark: valid, or empty
    pub valid: bool,
    // the zero mark
    pub zero: bool,
    // the control marks
    pub em: bool,
    pub ts: bool,
    pub pending: bool,
}
