// Single steps: at a position, and with every control mark.

// At a position, and what is refused.
pub(crate) const CASES: &[&str] = &[
    "the second EMMS of two: 0f77/0f77",
    "a step at the code's end: 0f77/",
    "MOVQ [1], mm0 in a step: 0f7f0501000000",
    "MASKMOVQ mm0, mm1 at 16 in a step: 0ff7c1",
    "MOVQ [esp], mm0 in a step: 0f7f0424",
];

// With every control mark.
pub(crate) const STOPPED: &[&str] = &[
    "PREFETCHNTA [0] with all marks, tags empty: 0f1800 M7",
    "PREFETCHNTA [0] with all marks, tags valid: 0f1800 Mf",
    "SFENCE with all marks, tags empty: 0faef8 M7",
    "SFENCE with all marks, tags valid: 0faef8 Mf",
    "EMMS with all marks, tags valid: 0f77 Mf",
    "MOVNTQ [0], mm0 with all marks, tags empty: 0fe700 M7",
];
