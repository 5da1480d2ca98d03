// The order of places: MMX registers, integer registers, memory bytes, the zero mark; and footprints in the states where the instructions run.
use crate::cases::Block;

pub(crate) const BLOCKS: &[Block] = &[
    // MOVD EAX, MM0; MOVD MM0, EAX; MOVD MM1, EAX; MOVQ MM2, [EDX]; DEC EDX; MOVQ [EDX], MM3.
    Block {
        code: &[
            0x0f, 0x7e, 0xc0, 0x0f, 0x6e, 0xc0, 0x0f, 0x6e, 0xc8, 0x0f, 0x6f, 0x12, 0x4a, 0x0f,
            0x7f, 0x1a,
        ],
        questions: &[
            ("MOVD eax, mm0 and MOVD mm0, eax", 0, 1),
            ("MOVD eax, mm0 and MOVD mm1, eax", 0, 2),
            ("MOVQ mm2, [1] and DEC edx", 3, 4),
            ("DEC edx and MOVQ [0], mm3", 4, 5),
            ("MOVQ mm2, [1] and MOVQ [0], mm3", 3, 5),
        ],
    },
    // MOVQ [EAX + 8], MM0; MOVQ MM2, [EAX + 1]; MOVQ [EAX + 15], MM3; MOVQ MM4, [EAX]; MOVD [EAX + 20], MM5; MASKMOVQ MM6, MM7.
    Block {
        code: &[
            0x0f, 0x7f, 0x40, 0x08, 0x0f, 0x6f, 0x50, 0x01, 0x0f, 0x7f, 0x58, 0x0f, 0x0f, 0x6f,
            0x20, 0x0f, 0x7e, 0x68, 0x14, 0x0f, 0xf7, 0xf7,
        ],
        questions: &[
            ("a store at 8 and a load at 1", 0, 1),
            ("a store at 8 and a load at 1", 1, 0),
            ("a store at 8 and a store at 15", 0, 2),
            ("a store at 8 and a load at 0", 0, 3),
            ("a load at 1 and a store at 15", 1, 2),
            ("a load at 1 and a load at 0", 1, 3),
        ],
    },
    // MOVQ [EAX + 8], MM0; MOVQ MM2, [EAX + 1]; MOVQ [EAX + 15], MM3; MOVQ MM4, [EAX]; MOVD [EAX + 20], MM5; MASKMOVQ MM6, MM7.
    Block {
        code: &[
            0x0f, 0x7f, 0x40, 0x08, 0x0f, 0x6f, 0x50, 0x01, 0x0f, 0x7f, 0x58, 0x0f, 0x0f, 0x6f,
            0x20, 0x0f, 0x7e, 0x68, 0x14, 0x0f, 0xf7, 0xf7,
        ],
        questions: &[
            ("a store at 15 and a store of 4 at 20", 2, 4),
            ("a store at 15 and MASKMOVQ at 16", 2, 5),
            ("a store of 4 at 20 and MASKMOVQ at 16", 4, 5),
            ("a load at 0 and MASKMOVQ at 16", 3, 5),
        ],
    },
    // MOVQ [EAX], MM0; ADD EAX, 4; MOVQ MM1, [EAX]; ADD EAX, 8; MOVQ MM2, [EAX]; MOVQ [EAX + 4], MM1.
    Block {
        code: &[
            0x0f, 0x7f, 0x00, 0x83, 0xc0, 0x04, 0x0f, 0x6f, 0x08, 0x83, 0xc0, 0x08, 0x0f, 0x6f,
            0x10, 0x0f, 0x7f, 0x48, 0x04,
        ],
        questions: &[
            ("a store at 0 and a load at 4", 0, 2),
            ("a store at 0 and a load at 4", 2, 0),
            ("a store at 0 and a load at 12", 0, 4),
            ("a load at 12 and a store at 16", 4, 5),
            ("a load at 4 and a store at 16", 2, 5),
        ],
    },
    // ADD EAX, 4; DEC ECX; DEC EAX; MOV EDX, 0; PADDB MM0, MM1.
    Block {
        code: &[
            0x83, 0xc0, 0x04, 0x49, 0x48, 0xba, 0x00, 0x00, 0x00, 0x00, 0x0f, 0xfc, 0xc1,
        ],
        questions: &[
            ("ADD eax, 4 and DEC ecx", 0, 1),
            ("ADD eax, 4 and DEC ecx", 1, 0),
            ("ADD eax, 4 and DEC eax", 0, 2),
            ("DEC ecx and DEC eax", 1, 2),
            ("DEC ecx and MOV edx, 0", 1, 3),
            ("DEC ecx and PADDB mm0, mm1", 1, 4),
        ],
    },
];
