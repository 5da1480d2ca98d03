// An instruction that was read, with what the reader's table says of it.
ghost use Rattle.codec.specs.inner.Fields.{Registers};
ghost use Rattle.machine.specs.inner.Works.{Listed};

use codec::Instruction;

// Its entry in the table, which is one of an MMX instruction, the instruction, whose registers are there, and the position after it.
#[derive(Clone, Copy)]
pub(crate) struct Known {
    pub(crate) entry: u32,
    pub(crate) instruction: Instruction,
    pub(crate) next: usize,
    pub(crate) ghost registers: { Registers instruction.operand },
    pub(crate) ghost listed: { Listed entry },
}
