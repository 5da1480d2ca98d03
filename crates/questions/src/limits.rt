// The limits: the longest memory and code, one byte more, and as many instructions as the budget has.
use crate::cases::{ask_all, ask_in};
use codec::LONGEST_CODE;
use machine::LONGEST_MEMORY;
use std::io;
use std::io::Write;

// DEC EAX.
const DECREMENT: u8 = 0x48;

// MOVQ [ECX + 32744], MM1; MOVQ MM0, [ECX + 32744]: the last eight bytes of the longest memory, since ECX is 16.
const LAST: [u8; 14] = [
    0x0f, 0x7f, 0x89, 0xe8, 0x7f, 0x00, 0x00, 0x0f, 0x6f, 0x81, 0xe8, 0x7f, 0x00, 0x00,
];

// JNZ 0.
const JUMP: [u8; 2] = [0x75, 0x00];

fn memories(out: &mut impl Write) -> io::Result<()> {
    let mut longest = [1u8; LONGEST_MEMORY];
    let mut longer = [1u8; LONGEST_MEMORY + 1];
    ask_in(out, "the last bytes", &LAST, &mut longest, 0, 1)?;
    ask_in(out, "a memory too long", &LAST, &mut longer, 0, 1)?;
    ask_in(
        out,
        "a memory too long, and a jump",
        &JUMP,
        &mut longer,
        0,
        1,
    )
}

fn codes(out: &mut impl Write) -> io::Result<()> {
    let longest = [DECREMENT; LONGEST_CODE];
    let longer = [DECREMENT; LONGEST_CODE + 1];
    let mut jumping = longer;
    jumping[0] = 0x75;
    ask_all(
        out,
        &longest,
        &[
            ("4,096 times DEC eax", 0, 4095),
            ("4,096 times DEC eax", 4095, 4094),
            ("4,096 times DEC eax", 4095, 4096),
        ],
    )?;
    ask_all(out, &longer, &[("a code too long", 0, 1)])?;
    ask_all(out, &jumping, &[("a code too long, and a jump", 0, 1)])
}

pub(crate) fn all(out: &mut impl Write) -> io::Result<()> {
    memories(out)?;
    codes(out)
}
