// What a packed operation leaves in a 64-bit register, from a destination and a source.
#![tactic(auto)]

mod compares;
mod distances;
mod extremes;
mod lane;
mod means;
mod packs;
mod picks;
mod products;
mod shifts;
mod sums;

ghost use Rattle.std.specs.Prelude.{◌≡◌, ◌≤◌};
ghost use Rattle.lanes.specs.Operations.{operate, operation_of};

use compares::{equals, exceeds};
use distances::distances;
use extremes::{greatest_signed, greatest_unsigned, least_signed, least_unsigned};
use lane::{BYTE, DOUBLEWORD, QUADWORD, WORD};
use means::average;
use packs::{pack_signed, pack_unsigned, unpack_high, unpack_low};
pub use picks::{blend, extract, insert, shuffle, top_bits};
use products::{multiply_add, multiply_high, multiply_high_unsigned, multiply_low};
use shifts::{shift_left, shift_right, shift_right_signed};
use sums::{add, add_signed, add_unsigned, subtract, subtract_signed, subtract_unsigned};

// The operations' numbers, in the order of the table of opcode bytes.
// No enum: `operate` takes every u8, as its clause says by `operation_of`, and codec's table of entries holds these numbers.
pub const PUNPCKLBW: u8 = 0;

pub const PUNPCKLWD: u8 = 1;

pub const PUNPCKLDQ: u8 = 2;

pub const PACKSSWB: u8 = 3;

pub const PACKUSWB: u8 = 4;

pub const PACKSSDW: u8 = 5;

pub const PCMPGTB: u8 = 6;

pub const PCMPGTW: u8 = 7;

pub const PCMPGTD: u8 = 8;

pub const PUNPCKHBW: u8 = 9;

pub const PUNPCKHWD: u8 = 10;

pub const PUNPCKHDQ: u8 = 11;

pub const MOVE: u8 = 12;

pub const PCMPEQB: u8 = 13;

pub const PCMPEQW: u8 = 14;

pub const PCMPEQD: u8 = 15;

pub const PSRLW: u8 = 16;

pub const PSRLD: u8 = 17;

pub const PSRLQ: u8 = 18;

pub const PSRAW: u8 = 19;

pub const PSRAD: u8 = 20;

pub const PSLLW: u8 = 21;

pub const PSLLD: u8 = 22;

pub const PSLLQ: u8 = 23;

pub const PMULLW: u8 = 24;

pub const PMULHW: u8 = 25;

pub const PMADDWD: u8 = 26;

pub const PSUBUSB: u8 = 27;

pub const PSUBUSW: u8 = 28;

pub const PADDUSB: u8 = 29;

pub const PADDUSW: u8 = 30;

pub const PSUBSB: u8 = 31;

pub const PSUBSW: u8 = 32;

pub const PADDSB: u8 = 33;

pub const PADDSW: u8 = 34;

pub const PAND: u8 = 35;

pub const PANDN: u8 = 36;

pub const POR: u8 = 37;

pub const PXOR: u8 = 38;

pub const PSUBB: u8 = 39;

pub const PSUBW: u8 = 40;

pub const PSUBD: u8 = 41;

pub const PADDB: u8 = 42;

pub const PADDW: u8 = 43;

pub const PADDD: u8 = 44;

// Then those of manual 000, in its order.
pub const MASKMOVQ: u8 = 45;

pub const PAVGB: u8 = 46;

pub const PAVGW: u8 = 47;

pub const PEXTRW: u8 = 48;

pub const PINSRW: u8 = 49;

pub const PMAXSW: u8 = 50;

pub const PMAXUB: u8 = 51;

pub const PMINSW: u8 = 52;

pub const PMINUB: u8 = 53;

pub const PMOVMSKB: u8 = 54;

pub const PMULHUW: u8 = 55;

pub const PSADBW: u8 = 56;

pub const PSHUFW: u8 = 57;

// No place in the list: a number that names none.
pub const KEEP: u8 = 255;

// What the operation of this number leaves. A number that names none keeps the destination. (One `match`, and no closures: the compiler makes a jump
// table of it, and each family at its widths.)
#[tactic(auto, unfolding(crate::specs::Operations::operate, crate::specs::Rules::and_not))]
pub fn operate(operation: u8, destination: u64, source: u64) -> u64
    ensures { result ≡ operate (operation_of operation) destination source }
{
    match operation {
        PUNPCKLBW => unpack_low(destination, source, BYTE),
        PUNPCKLWD => unpack_low(destination, source, WORD),
        PUNPCKLDQ => unpack_low(destination, source, DOUBLEWORD),
        PACKSSWB => pack_signed(destination, source, BYTE),
        PACKUSWB => pack_unsigned(destination, source, BYTE),
        PACKSSDW => pack_signed(destination, source, WORD),
        PCMPGTB => exceeds(destination, source, BYTE),
        PCMPGTW => exceeds(destination, source, WORD),
        PCMPGTD => exceeds(destination, source, DOUBLEWORD),
        PUNPCKHBW => unpack_high(destination, source, BYTE),
        PUNPCKHWD => unpack_high(destination, source, WORD),
        PUNPCKHDQ => unpack_high(destination, source, DOUBLEWORD),
        MOVE => source,
        PCMPEQB => equals(destination, source, BYTE),
        PCMPEQW => equals(destination, source, WORD),
        PCMPEQD => equals(destination, source, DOUBLEWORD),
        PSRLW => shift_right(destination, source, WORD),
        PSRLD => shift_right(destination, source, DOUBLEWORD),
        PSRLQ => shift_right(destination, source, QUADWORD),
        PSRAW => shift_right_signed(destination, source, WORD),
        PSRAD => shift_right_signed(destination, source, DOUBLEWORD),
        PSLLW => shift_left(destination, source, WORD),
        PSLLD => shift_left(destination, source, DOUBLEWORD),
        PSLLQ => shift_left(destination, source, QUADWORD),
        PMULLW => multiply_low(destination, source),
        PMULHW => multiply_high(destination, source),
        PMADDWD => multiply_add(destination, source),
        PSUBUSB => subtract_unsigned(destination, source, BYTE),
        PSUBUSW => subtract_unsigned(destination, source, WORD),
        PADDUSB => add_unsigned(destination, source, BYTE),
        PADDUSW => add_unsigned(destination, source, WORD),
        PSUBSB => subtract_signed(destination, source, BYTE),
        PSUBSW => subtract_signed(destination, source, WORD),
        PADDSB => add_signed(destination, source, BYTE),
        PADDSW => add_signed(destination, source, WORD),
        PAND => destination & source,
        PANDN => !destination & source,
        POR => destination | source,
        PXOR => destination ^ source,
        PSUBB => subtract(destination, source, BYTE),
        PSUBW => subtract(destination, source, WORD),
        PSUBD => subtract(destination, source, DOUBLEWORD),
        PADDB => add(destination, source, BYTE),
        PADDW => add(destination, source, WORD),
        PADDD => add(destination, source, DOUBLEWORD),
        _ => extension(operation, destination, source),
    }
}

// The same from the first operation of manual 000 on. Of PEXTRW, PMOVMSKB and PSHUFW the first number is the source, the second the place or the order.
// MASKMOVQ and PINSRW go by a third number: without one they keep the destination. In a function of its own: in `operate` these texts would keep the
// compiler from making each family of manual 004 at its widths.
#[tactic(auto, unfolding(crate::specs::Operations::operate))]
fn extension(operation: u8, destination: u64, source: u64) -> u64
    requires { 45 ≤ operation }
    ensures { result ≡ operate (operation_of operation) destination source }
{
    match operation {
        MASKMOVQ => destination,
        PAVGB => average(destination, source, BYTE),
        PAVGW => average(destination, source, WORD),
        PEXTRW => extract(destination, source),
        PINSRW => destination,
        PMAXSW => greatest_signed(destination, source, WORD),
        PMAXUB => greatest_unsigned(destination, source, BYTE),
        PMINSW => least_signed(destination, source, WORD),
        PMINUB => least_unsigned(destination, source, BYTE),
        PMOVMSKB => top_bits(destination),
        PMULHUW => multiply_high_unsigned(destination, source),
        PSADBW => distances(destination, source, BYTE),
        PSHUFW => shuffle(destination, source),
        _ => destination,
    }
}
