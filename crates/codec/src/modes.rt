// The values of mod, and the values of rm, index and base that name no register.
// They are numbers and no enum: an `Operand` holds its fields as they stood, any number, and `write` refuses the wrong ones by 11.

// mod.
pub const NO_DISPLACEMENT: u8 = 0;

pub const BYTE_DISPLACEMENT: u8 = 1;

pub const LONG_DISPLACEMENT: u8 = 2;

pub const REGISTER: u8 = 3;

// rm: an SIB byte follows.
pub const SIB: u8 = 4;

// index: none.
pub const NO_INDEX: u8 = 4;

// rm or base at mod 00: none.
pub const NO_BASE: u8 = 5;
