// The second byte 0F with each ModRM and SIB byte, and behind them each suffix.
ghost use Rattle.std.specs.Prelude.{◌<◌, ◌≤◌};

use crate::{ESCAPE, REGISTERS, Tally, over_bytes, try_code};
use codec::modes::{BYTE_DISPLACEMENT, LONG_DISPLACEMENT, NO_BASE, NO_DISPLACEMENT, SIB};

// The second byte.
pub(crate) const SIBLING: u8 = 0x0f;

// A ModRM byte is this times its mod and more, and what is left over of this is its rm, or an SIB byte's base.
const MOD: u8 = 64;

const RM: u8 = 8;

// How many bytes come before an SIB byte.
const BEFORE_SIB: usize = 3;

// Whether a ModRM byte asks for an SIB byte.
fn has_sib(modrm: u8) -> bool {
    modrm < REGISTERS && modrm % RM == SIB
}

// The number of a base register, of a ModRM byte or of the SIB byte that it asks for.
fn base_of(modrm: u8, sib: u8) -> u8 {
    if has_sib(modrm) {
        return sib % RM;
    }
    modrm % RM
}

// How many bytes of a displacement follow.
fn displacement_bytes(modrm: u8, sib: u8) -> usize
    ensures { result ≤ 4 }
{
    match modrm / MOD {
        BYTE_DISPLACEMENT => 1,
        LONG_DISPLACEMENT => 4,
        NO_DISPLACEMENT => { if base_of(modrm, sib) == NO_BASE { 4 } else { 0 } }
        _ => 0,
    }
}

// Where the suffix stands.
fn suffix_at(modrm: u8, sib: u8) -> usize
    ensures { result < 12 }
{
    let bytes = displacement_bytes(modrm, sib);
    if has_sib(modrm) {
        return BEFORE_SIB + 1 + bytes;
    }
    BEFORE_SIB + bytes
}

// Operand bytes with each suffix.
fn try_suffixes(tally: Tally, modrm: u8, sib: u8) -> Tally {
    let at = suffix_at(modrm, sib);
    over_bytes(tally, |tally, suffix| {
        let mut code = [
            ESCAPE, SIBLING, modrm, sib, 0x81, 0x42, 0xc3, 0x24, 0x95, 0x66, 0xf7, 0x18,
        ];
        code[at] = suffix;
        try_code(tally, &code)
    })
}

// A ModRM byte, with each SIB byte if one follows.
pub(crate) fn try_operand(tally: Tally, modrm: u8) -> Tally {
    if has_sib(modrm) {
        over_bytes(tally, |tally, sib| try_suffixes(tally, modrm, sib))
    } else {
        try_suffixes(tally, modrm, 0)
    }
}
