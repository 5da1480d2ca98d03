// Whether two instructions meet, by their footprints.

pub(crate) const CASES: &[&str] = &[
    // Operands.
    "MOVQ mm0, [eax] and PADDUSB mm0, mm1: 0f6f00/0fdcc1",
    "MOVQ mm0, [eax] and MOVQ mm2, [eax]: 0f6f00/0f6f10",
    "MOVQ [eax + 8], mm0 and PADDUSB mm2, [eax + 8]: 0f7f4008/0fdc5008",
    "MOVQ [eax + 8], mm0 and MOVQ mm2, [eax]: 0f7f4008/0f6f10",
    "EMMS and MOVQ mm2, [eax]: 0f77/0f6f10",
    // EMMS, and the instructions that touch nothing.
    "EMMS and EMMS: 0f77/0f77",
    "EMMS and PADDB mm0, mm1: 0f77/0ffcc1",
    "EMMS and PREFETCHNTA [eax]: 0f77/0f1800",
    "PREFETCHNTA [eax] and EMMS: 0f1800/0f77",
    "EMMS and SFENCE: 0f77/0faef8",
    "SFENCE and EMMS: 0faef8/0f77",
    "PREFETCHNTA [eax] and MOVQ [eax], mm0: 0f1800/0f7f00",
    "MOVNTQ [eax], mm0 and SFENCE: 0fe700/0faef8",
    "PEXTRW eax, mm0, 0 and PREFETCHT0 [eax]: 0fc5c000/0f1808",
    // Masked stores.
    "MASKMOVQ mm1, mm2 and MASKMOVQ mm3, mm4: 0ff7ca/0ff7dc",
    "MASKMOVQ mm1, mm2 and MOVQ mm3, [eax + 23]: 0ff7ca/0f6f5817",
    "MASKMOVQ mm1, mm2 and MOVQ mm3, [eax + 24]: 0ff7ca/0f6f5818",
    "MASKMOVQ mm1, mm2 and MOVD edi, mm3: 0ff7ca/0f7edf",
    "MASKMOVQ mm1, mm2 and MOVQ mm2, mm3: 0ff7ca/0f6fd3",
    "MASKMOVQ mm1, mm2 and MOVQ mm3, mm1: 0ff7ca/0f6fd9",
    // Words picked and put.
    "PEXTRW edx, mm1, 0 and PEXTRW ecx, mm1, 1: 0fc5d100/0fc5c901",
    "PEXTRW edx, mm1, 0 and PMOVMSKB edx, mm2: 0fc5d100/0fd7d2",
    "PMOVMSKB edx, mm1 and PINSRW mm2, edx, 0: 0fd7d1/0fc4d200",
    "PSHUFW mm1, mm2, 0 and PSHUFW mm3, mm2, 0: 0f70ca00/0f70da00",
    "PSHUFW mm1, mm2, 0 and MOVQ mm2, mm3: 0f70ca00/0f6fd3",
    "PINSRW mm1, [eax + 8], 0 and MOVNTQ [eax], mm2: 0fc4480800/0fe710",
    "PINSRW mm1, [eax + 7], 0 and MOVNTQ [eax], mm2: 0fc4480700/0fe710",
];
