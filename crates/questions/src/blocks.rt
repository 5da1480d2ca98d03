// The example of demand 3, EMMS, and the three manners.
use crate::cases::Block;

pub(crate) const BLOCKS: &[Block] = &[
    // MOVQ MM0, [EAX]; PADDUSB MM0, MM1; MOVQ [EAX + 8], MM0; MOVQ MM2, [ECX]; PADDUSB MM2, [EAX + 8].
    Block {
        code: &[
            0x0f, 0x6f, 0x00, 0x0f, 0xdc, 0xc1, 0x0f, 0x7f, 0x40, 0x08, 0x0f, 0x6f, 0x11, 0x0f,
            0xdc, 0x50, 0x08,
        ],
        questions: &[
            ("the example", 2, 4),
            ("the example", 4, 2),
            ("the example", 0, 1),
            ("the example", 0, 2),
            ("the example", 0, 3),
            ("the example", 3, 4),
            ("the example", 0, 4),
            ("the example", 1, 2),
            ("the example", 1, 3),
            ("the example", 1, 4),
            ("the example", 2, 3),
        ],
    },
    // PADDB MM0, MM1; EMMS; MOVQ [EAX], MM0; EMMS; DEC EAX; PREFETCHNTA [EAX]; SFENCE.
    Block {
        code: &[
            0x0f, 0xfc, 0xc1, 0x0f, 0x77, 0x0f, 0x7f, 0x00, 0x0f, 0x77, 0x48, 0x0f, 0x18, 0x00,
            0x0f, 0xae, 0xf8,
        ],
        questions: &[
            ("EMMS", 0, 1),
            ("EMMS", 1, 0),
            ("EMMS", 1, 2),
            ("EMMS and EMMS", 1, 3),
            ("EMMS and DEC", 3, 4),
            ("EMMS and PREFETCHNTA", 1, 5),
            ("EMMS and PREFETCHNTA", 5, 1),
            ("EMMS and SFENCE", 3, 6),
            ("DEC and PREFETCHNTA", 4, 5),
            ("PREFETCHNTA and SFENCE", 5, 6),
        ],
    },
    // PADDB MM0, MM1; PADDB MM0, MM2; MOVQ MM0, MM3; PADDB MM1, MM0; PXOR MM4, MM4; MOVQ MM4, MM4.
    Block {
        code: &[
            0x0f, 0xfc, 0xc1, 0x0f, 0xfc, 0xc2, 0x0f, 0x6f, 0xc3, 0x0f, 0xfc, 0xc8, 0x0f, 0xef,
            0xe4, 0x0f, 0x6f, 0xe4,
        ],
        questions: &[
            ("PADDB mm0, mm1 and PADDB mm0, mm2", 0, 1),
            ("PADDB mm0, mm1 and MOVQ mm0, mm3", 0, 2),
            ("MOVQ mm0, mm3 and PADDB mm1, mm0", 2, 3),
            ("PADDB mm0, mm1 and PADDB mm1, mm0", 0, 3),
            ("PXOR mm4, mm4 and MOVQ mm4, mm4", 4, 5),
        ],
    },
    // MOVQ MM2, MM0; MOVQ MM0, MM3; MOVQ MM3, MM0.
    Block {
        code: &[0x0f, 0x6f, 0xd0, 0x0f, 0x6f, 0xc3, 0x0f, 0x6f, 0xd8],
        questions: &[
            ("MOVQ mm2, mm0 and MOVQ mm0, mm3", 0, 1),
            ("MOVQ mm0, mm3 and MOVQ mm3, mm0", 1, 2),
            ("MOVQ mm2, mm0 and MOVQ mm3, mm0", 0, 2),
        ],
    },
];
