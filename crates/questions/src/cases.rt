// A question: the machine and the memory that it starts from, and what is printed of its answer.
use crate::texts;
use machine::Machine;
use manual::Marks;
use std::io;
use std::io::Write;

// The bytes of the usual memory.
const MEMORY: usize = 24;

// No mark is set; EAX is 0, ECX 16, EDX 1, EDI 16.
fn usual_machine() -> Machine {
    Machine {
        mmx: [0xff, 0xf0f0f0f0f0f0f0f0, 3, 4, 5, 6, 7, 8],
        integers: [0, 16, 1, 0, 0, 0, 0, 16],
        marks: Marks {
            valid: false,
            zero: false,
            em: false,
            ts: false,
            pending: false,
        },
    }
}

// Asks in a memory, and prints the question's title and numbers, the answer, and what is left.
pub(crate) fn ask_in(
    out: &mut impl Write,
    title: &str,
    code: &[u8],
    memory: &mut [u8],
    first: u32,
    second: u32,
) -> io::Result<()> {
    let asked = studio::why_not(usual_machine(), code, memory, first, second);
    write!(out, "{title}, {first} and {second}: ")?;
    texts::show_answer(out, asked, memory)
}

// The questions of a code, each by its title and its numbers, in the usual memory, whose bytes are 1.
pub(crate) fn ask_all(
    out: &mut impl Write,
    code: &[u8],
    questions: &[(&str, u32, u32)],
) -> io::Result<()> {
    for (title, first, second) in questions {
        let mut memory = [1u8; MEMORY];
        ask_in(out, title, code, &mut memory, *first, *second)?;
    }
    Ok(())
}

// A code, and the questions of it.
pub(crate) struct Block {
    pub(crate) code: &'static [u8],
    pub(crate) questions: &'static [(&'static str, u32, u32)],
}

pub(crate) fn ask_blocks(out: &mut impl Write, blocks: &[Block]) -> io::Result<()> {
    for block in blocks {
        ask_all(out, block.code, block.questions)?;
    }
    Ok(())
}
