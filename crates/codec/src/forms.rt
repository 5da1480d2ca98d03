// The parts of an entry of the table, and the forms by their numbers.
// They are numbers and no enum: what `table` and `read_from` promise speaks of entries that are numbers, and of any 256 of them.

// What form, operand size and lane width are multiplied by in an entry, and how many values a part has. The operation is lowest.
pub const FORM: u32 = 0x1000000;

pub const SIZE: u32 = 0x10000;

pub const LANE: u32 = 0x100;

pub const PART: u32 = 0x100;

// The digits of the shifts by an immediate.
pub const RIGHT: u8 = 2;

pub const RIGHT_SIGNED: u8 = 4;

pub const LEFT: u8 = 6;

// No instruction.
pub(crate) const ABSENT: u32 = 0;

// EMMS, alone.
pub const EMMS: u32 = 1;

// mmreg1, imm8: the shifts of words and doublewords, and those of a quadword, which have no /4.
pub const SHIFT_WD: u32 = 2;

pub const SHIFT_Q: u32 = 3;

// mmreg1, reg32/mem16, imm8: PINSRW.
pub const INSERT: u32 = 4;

// mmreg1, mmreg2/mem64, imm8: PSHUFW.
pub const SHUFFLE: u32 = 5;

// reg32, mmreg2, imm8: PEXTRW. From SHIFT_WD to here there is an immediate.
pub const EXTRACT: u32 = 6;

// reg32, mmreg2: PMOVMSKB.
pub const TOP_BITS: u32 = 7;

// mmreg1, mmreg2 (edi): MASKMOVQ.
pub const MASKED: u32 = 8;

// SFENCE.
pub const FENCE: u32 = 9;

// reg32, imm32: MOV. From here to JUMP are the forms of one opcode byte, which are not in the table.
pub const SET: u32 = 10;

// reg32, imm8: ADD, the one of them with a ModRM byte.
pub const ADD: u32 = 11;

// reg32: DEC.
pub const DECREMENT: u32 = 12;

// rel8off: JNZ.
pub const JUMP: u32 = 13;

// mem8: the prefetches. From here to STREAM there is memory alone.
pub const PREFETCH: u32 = 14;

// From here on: a destination and a source, one named by reg, the other by r/m, and nothing else but the suffix of SUFFIXED.
pub const TWO_OPERANDS: u32 = 15;

// mem64, mmreg1: MOVNTQ.
pub const STREAM: u32 = 15;

// mmreg1, mmreg2/mem64, and a suffix: 3DNow.
pub const SUFFIXED: u32 = 16;

// reg32/mem32, mmreg1: MOVD from MMX.
pub const STORE_D: u32 = 17;

// mmreg1, reg32/mem32: MOVD to MMX.
pub const LOAD_D: u32 = 18;

// mmreg2/mem64, mmreg1: MOVQ's store form.
pub const STORE_Q: u32 = 19;

// mmreg1, mmreg2/mem64, and mmreg1 is only written: MOVQ's load form.
pub const LOAD_Q: u32 = 20;

// mmreg1, mmreg2/mem32: the low unpacks.
pub const LOW: u32 = 21;

// mmreg1, mmreg2/mem64: the usual form.
pub(crate) const USUAL: u32 = 22;
