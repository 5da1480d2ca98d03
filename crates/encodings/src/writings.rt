// The edges of writing: records that have no bytes or no room.
ghost use Rattle.std.specs.Prelude.{◌≤◌};

use crate::edges::{JNZ, MOV, OF_SFENCE, PFMAX, print_refusal};
use crate::siblings::SIBLING;
use crate::{ADD, DEC, ESCAPE, FILL, ROOM};
use codec::modes::REGISTER;
use codec::{Instruction, Operand};
use std::io;
use std::io::Write;

// No operand.
const NONE: Operand = Operand {
    mode: 0,
    reg: 0,
    rm: 0,
    scale: 0,
    index: 0,
    base: 0,
    displacement: 0,
};

// Registers 0 and 0, and 0 and 7.
const FIRST: Operand = Operand {
    mode: REGISTER,
    ..NONE
};

const LAST: Operand = Operand { rm: 7, ..FIRST };

// An instruction with the usual operands, one with an immediate byte behind them, a sibling, and SFENCE with its digit.
const PADDB: Instruction = Instruction {
    first: ESCAPE,
    second: 0xfc,
    operand: LAST,
    immediate: 0,
};

const PSHUFW: Instruction = Instruction {
    second: 0x70,
    ..PADDB
};

const OF_PFMAX: Instruction = Instruction {
    second: SIBLING,
    immediate: PFMAX as u32,
    ..PADDB
};

const SFENCE: Instruction = Instruction {
    second: OF_SFENCE,
    operand: Operand { reg: 7, ..FIRST },
    ..PADDB
};

// Instructions of loops, with register 0.
const OF_MOV: Instruction = Instruction {
    first: MOV,
    second: 0,
    operand: NONE,
    immediate: 0,
};

const OF_JNZ: Instruction = Instruction {
    first: JNZ,
    ..OF_MOV
};

const OF_DEC: Instruction = Instruction {
    first: DEC,
    ..OF_MOV
};

const OF_ADD: Instruction = Instruction {
    first: ADD,
    operand: FIRST,
    immediate: 255,
    ..OF_MOV
};

// The same instruction with another part.
fn with_rm(instruction: Instruction, rm: u8) -> Instruction {
    let operand = Operand {
        rm,
        ..instruction.operand
    };
    with_operand(instruction, operand)
}

fn with_operand(instruction: Instruction, operand: Operand) -> Instruction {
    Instruction {
        operand,
        ..instruction
    }
}

fn with_immediate(instruction: Instruction, immediate: u32) -> Instruction {
    Instruction {
        immediate,
        ..instruction
    }
}

// The answer of writing an instruction into a buffer with this many bytes.
fn print_written(
    out: &mut impl Write,
    name: &str,
    instruction: Instruction,
    room: usize,
) -> io::Result<()>
    requires { room ≤ 12 }
{
    let mut buffer = [FILL; ROOM];
    write!(out, "{name} ")?;
    print_refusal(out, codec::write(instruction, &mut buffer[..room]))
}

// Instructions of the table.
fn print_table(out: &mut impl Write) -> io::Result<()> {
    print_written(out, "register 8", with_rm(PADDB, 8), ROOM)?;
    print_written(out, "a buffer of 2 bytes", PADDB, 2)?;
    print_written(
        out,
        "PADDB with an immediate",
        with_immediate(PADDB, 1),
        ROOM,
    )?;
    print_written(out, "PSHUFW with 255", with_immediate(PSHUFW, 255), ROOM)?;
    print_written(out, "PSHUFW with 256", with_immediate(PSHUFW, 256), ROOM)?;
    print_written(out, "PSHUFW in 3 bytes", PSHUFW, 3)
}

fn print_fences(out: &mut impl Write) -> io::Result<()> {
    let digit_5 = Operand { reg: 5, ..FIRST };
    print_written(out, "SFENCE", SFENCE, ROOM)?;
    print_written(out, "SFENCE with rm 1", with_rm(SFENCE, 1), ROOM)?;
    print_written(
        out,
        "SFENCE with digit 5",
        with_operand(SFENCE, digit_5),
        ROOM,
    )
}

fn print_siblings(out: &mut impl Write) -> io::Result<()> {
    print_written(out, "PFMAX", OF_PFMAX, ROOM)?;
    print_written(out, "0F 0F with B4", with_immediate(OF_PFMAX, 0xb4), ROOM)?;
    print_written(out, "0F 0F with 1A4", with_immediate(OF_PFMAX, 0x1a4), ROOM)?;
    print_written(out, "PFMAX with register 8", with_rm(OF_PFMAX, 8), ROOM)?;
    print_written(out, "PFMAX in 3 bytes", OF_PFMAX, 3)
}

fn print_loops(out: &mut impl Write) -> io::Result<()> {
    print_written(
        out,
        "MOV with FFFFFFFF",
        with_immediate(OF_MOV, 0xffffffff),
        ROOM,
    )?;
    print_written(out, "JNZ with 256", with_immediate(OF_JNZ, 256), ROOM)?;
    print_written(out, "ADD", OF_ADD, ROOM)?;
    print_written(out, "ADD to memory", with_operand(OF_ADD, NONE), ROOM)?;
    print_written(out, "ADD with register 8", with_rm(OF_ADD, 8), ROOM)
}

fn print_decrements(out: &mut impl Write) -> io::Result<()> {
    let of_two = Instruction {
        second: 1,
        ..OF_DEC
    };
    print_written(out, "DEC with a second byte", of_two, ROOM)?;
    print_written(
        out,
        "DEC with an operand",
        with_operand(OF_DEC, FIRST),
        ROOM,
    )?;
    print_written(
        out,
        "DEC with an immediate",
        with_immediate(OF_DEC, 1),
        ROOM,
    )
}

fn print_short_loops(out: &mut impl Write) -> io::Result<()> {
    print_written(out, "MOV in 4 bytes", OF_MOV, 4)?;
    print_written(out, "DEC in 1 byte", OF_DEC, 1)?;
    print_written(out, "DEC in no byte", OF_DEC, 0)
}

// All of writing.
pub(crate) fn print_edges(out: &mut impl Write) -> io::Result<()> {
    print_table(out)?;
    print_fences(out)?;
    print_siblings(out)?;
    print_loops(out)?;
    print_decrements(out)?;
    print_short_loops(out)
}
