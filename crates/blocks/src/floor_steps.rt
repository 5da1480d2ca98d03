// Single steps over a floor.

pub(crate) const CASES: &[&str] = &[
    "5,000 bytes of code, floor 5 in 4 bytes, in a step: L1388 F5 N4",
    "5,000 bytes of code, floor 4 in 4 bytes, in a step: L1388 F4 N4",
    "5,000 bytes of code, floor 32,770 in 32,769 bytes, in a step: L1388 F8002 N8001",
    "PADDB mm0, mm1 in a step, the largest floor: 0ffcc1 Fffffffffffffffff",
    "a step at the code's end, floor 9: 0f77/ F9",
    "a step at the code's end, floor 8: 0f77/ F8",
    "MOVD [0], mm0 in a step, floor 4: 0f7e00 F4",
    "MOVD [4], mm0 in a step, floor 4: 0f7e4004 F4",
    "EMMS, then MOVD [3], mm0, a step at 2, floor 4: 0f77/0f7e4003 F4",
    "EMMS, then MOVD [4], mm0, a step at 2, floor 4: 0f77/0f7e4004 F4",
    "MOVNTQ [0], mm0 in a step, floor 1: 0fe700 F1",
    "MOVQ mm0, [0] in a step, floor 8: 0f6f00 F8",
    "MOVQ [1], mm0 in a step, floor 8: 0f7f4001 F8",
    "MOVQ [ebp], mm0 in a step, floor 8: 0f7f4500 F8",
    "MOVQ [0], mm0 with all marks, tags valid, in a step, floor 8: 0f7f00 Mf F8",
    "MASKMOVQ mm0, mm1 at 16, no byte masked, in a step, floor 17 in 24 bytes: 0ff7c1 F11 N18",
];
