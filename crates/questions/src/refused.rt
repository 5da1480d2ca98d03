// Runs that are not done, 29 and 30, in their order.
use crate::cases::Block;

pub(crate) const BLOCKS: &[Block] = &[
    // MOVQ [EAX], MM1; PADDB MM0, MM1; and 0F.
    Block {
        code: &[0x0f, 0x7f, 0x08, 0x0f, 0xfc, 0xc1, 0x0f],
        questions: &[
            ("a damaged block", 0, 1),
            ("a damaged block", 1, 1),
            ("a damaged block", 7, 2),
        ],
    },
    // MOVQ [EAX], MM1; MOVQ MM0, [EAX + 17].
    Block {
        code: &[0x0f, 0x7f, 0x08, 0x0f, 0x6f, 0x40, 0x11],
        questions: &[
            ("a load past the memory", 0, 1),
            ("a load past the memory", 1, 1),
        ],
    },
    // MOVQ [EAX], MM1; PADDB MM0, MM1.
    Block {
        code: &[0x0f, 0x7f, 0x08, 0x0f, 0xfc, 0xc1],
        questions: &[
            ("two instructions", 0, 1),
            ("two instructions", 1, 1),
            ("two instructions", 0, 2),
            ("two instructions", 2, 0),
            ("two instructions", 2, 3),
            ("two instructions", 2, 2),
            ("two instructions", 1, 4096),
            ("two instructions", 4096, 1),
            ("two instructions", 0, 4294967295),
            ("two instructions", 5000, 6000),
        ],
    },
    Block {
        code: b"",
        questions: &[("no instruction", 0, 1)],
    },
    // MOVQ [EAX], MM1; JNZ -5.
    Block {
        code: &[0x0f, 0x7f, 0x08, 0x75, 0xfb],
        questions: &[("a jump", 0, 1), ("a jump", 1, 0), ("a jump", 1, 1)],
    },
    Block {
        code: &[0x0f, 0x7f, 0x08, 0x75, 0x00, 0x0f],
        questions: &[("a jump before a damaged end", 0, 5)],
    },
    Block {
        code: &[0x0f, 0x7f, 0x08, 0x0f, 0x71, 0x75, 0x00],
        questions: &[("75 behind 0F 71", 0, 1)],
    },
    Block {
        code: &[0xb8, 0x75, 0x00, 0x00, 0x00, 0x0f, 0xfc, 0xc1],
        questions: &[("75 in a number", 0, 1)],
    },
];
