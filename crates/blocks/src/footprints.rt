// Footprints of single instructions.

pub(crate) const CASES: &[&str] = &[
    // Operands.
    "PADDB mm1, [eax + ecx * 2 + 4]: 0ffc4c4804",
    "PUNPCKLBW mm1, [eax]: 0f6008",
    "MOVQ [eax + 8], mm0: 0f7f4008",
    "MOVD edx, mm1: 0f7eca",
    "EMMS in a footprint: 0f77",
    "MOVQ mm0, [-8]: 0f6f40f8",
    "PEXTRW edx, mm1, 3: 0fc5d103",
    "PMOVMSKB edx, mm1: 0fd7d1",
    "PINSRW mm1, edx, 2: 0fc4ca02",
    "PINSRW mm1, [ecx + 4], 2: 0fc4490402",
    "PSHUFW mm1, mm2, 1b: 0f70ca1b",
    "PSHUFW mm1, [ecx], 1b: 0f70091b",
    "PSADBW mm1, mm2: 0ff6ca",
    // Stores, and operands by ESP and EBP.
    "MASKMOVQ mm1, mm2: 0ff7ca",
    "MASKMOVQ mm1, mm1: 0ff7c9",
    "MOVNTQ [eax + 8], mm0: 0fe74008",
    "MOVNTQ [-8], mm0: 0fe740f8",
    "MOVQ mm0, [ebp]: 0f6f4500",
    "MOVQ mm0, [ebp - 5]: 0f6f45fb",
    "MOVQ [esp - 5], mm0: 0f7f4424fb",
    "MOVQ mm0, [eax + ebp - 5]: 0f6f4428fb",
    "PREFETCHT0 [esp - 5]: 0f184c24fb",
    // The instructions that touch nothing.
    "PREFETCHT0 [eax + ecx * 2 + 4]: 0f184c4804",
    "PREFETCHT1 [-8]: 0f1850f8",
    "SFENCE in a footprint: 0faef8",
    "PREFETCHT2 [ecx] with all marks: 0f1819 M7",
    "SFENCE with all marks: 0faef8 M7",
    "PADDB mm0, mm1 with all marks: 0ffcc1 M7",
];
