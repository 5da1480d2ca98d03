// The suffixes of 3DNow, each by its instruction.
// They are numbers and no enum: an `Instruction` holds its immediate as it stood, any number, and `write` refuses the wrong ones by 11.
pub const PI2FW: u32 = 0x0c;

pub const PF2IW: u32 = 0x1c;

pub const PFCMPGT: u32 = 0xa0;

pub const PFMAX: u32 = 0xa4;

pub const PSWAPD: u32 = 0xbb;

pub const PAVGUSB: u32 = 0xbf;
