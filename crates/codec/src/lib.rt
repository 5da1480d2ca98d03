// MMX instruction bytes to records and back: the records, the answers, and the table, the reader and the writer for other crates.
#![tactic(auto)]

ghost use Rattle.std.specs.Prelude.{◌≡◌};
ghost use Rattle.codec.specs.Answers.{paper_of_reading, paper_of_writing};
ghost use Rattle.codec.specs.Table.{opcode_table};
ghost use Rattle.codec.specs.Reads.{read_at};
ghost use Rattle.codec.specs.Finding.{find_with, paper_of_found};
ghost use Rattle.codec.specs.Writes.{write_to};

pub mod fields;
pub mod forms;
pub mod modes;
mod opcodes;
pub mod prefixes;
mod reader;
pub mod suffixes;
mod writer;

use prefixes::ESCAPE;
use refusals::Refusal;

// The longest code, in bytes.
pub const LONGEST_CODE: usize = 4096;

// The fields of the ModRM byte and of the SIB byte, and the displacement, as they stood; a field that is not there is 0.
#[derive(Clone, Copy, PartialEq, Eq, Debug)]
pub struct Operand {
    pub mode: u8,
    pub reg: u8,
    pub rm: u8,
    pub scale: u8,
    pub index: u8,
    pub base: u8,
    pub displacement: u32,
}

// An operand that is not there.
pub(crate) const NO_OPERAND: Operand = Operand {
    mode: 0,
    reg: 0,
    rm: 0,
    scale: 0,
    index: 0,
    base: 0,
    displacement: 0,
};

// The opcode bytes, of which the second is 0 where there is one alone, the operand and the immediate; where the opcode has a digit (71 to 73, 18, AE,
// 83), it is in reg, and where it has a suffix (0F), that is the immediate.
#[derive(Clone, Copy, PartialEq, Eq, Debug)]
pub struct Instruction {
    pub first: u8,
    pub second: u8,
    pub operand: Operand,
    pub immediate: u32,
}

// What an instruction does to the tag mark, whether the control marks stop it, and which others it meets wherever they read and write. The silent
// ones touch nothing: the prefetches and SFENCE. Those of loops are MOV, ADD, DEC and JNZ.
#[derive(Clone, Copy, PartialEq, Eq, Debug)]
pub enum Kind {
    Ordinary,
    Emms,
    Silent,
    Loop,
}

// What reading with a table finds: the entry of the opcode bytes, the instruction and the position after it.
#[derive(Clone, Copy, PartialEq, Eq, Debug)]
pub struct Found {
    pub entry: u32,
    pub instruction: Instruction,
    pub next: usize,
}

// The table of opcodes, for whoever starts reading: it is made here, and lent from then on.
#[tactic(auto, unfolding(crate::specs::Table::opcode_table, crate::specs::Opcodes::form_at, crate::specs::Opcodes::operation_at))]
pub fn table() -> [u32; 256]
    ensures { result ≡ opcode_table }
{
    opcodes::TABLE
}

// Reads the instruction at a position, with the entries of a table that is lent.
#[tactic(auto, using(crate::proofs::Steps::reading))]
pub fn read_from(table: &[u32; 256], code: &[u8], at: usize) -> Result<Found, Refusal>
    ensures { paper_of_found result ≡ find_with table.now code.now at }
{
    if code.len() <= at {
        return Err(Refusal::CodeEnds);
    }
    let first = code[at];
    if first == ESCAPE {
        reader::second_at(table, code, at + 1)
    } else {
        reader::first_at(code, at + 1, first)
    }
}

// Reads the instruction at a position, and says its length.
#[tactic(auto, using(crate::proofs::OurTable::our_table))]
pub fn read(code: &[u8], at: usize) -> Result<(Instruction, usize), Refusal>
    ensures { paper_of_reading result ≡ read_at code.now at }
{
    if LONGEST_CODE < code.len() {
        return Err(Refusal::CodeTooLong);
    }
    let found = read_from(&table(), code, at)?;
    Ok((found.instruction, found.next - at))
}

// Writes an instruction at the start of a buffer, and answers its length; a refused one changes no byte of it.
#[tactic(auto, using(crate::proofs::Puts::puts))]
pub fn write(instruction: Instruction, buffer: &mut [u8]) -> Result<usize, Refusal>
    ensures { paper_of_writing result buffer.new ≡ write_to instruction buffer.old }
{
    let form = opcodes::form_for(instruction.first, instruction.second);
    if !writer::has_bytes(form, instruction) {
        return Err(Refusal::NoBytes);
    }
    let size = writer::size_of(form, instruction);
    if buffer.len() < size {
        return Err(Refusal::BufferEnds);
    }
    writer::put(buffer, form, instruction);
    Ok(size)
}
