// The address of an operand in memory: base, index times scale, and displacement, in sums that wrap at 2^32.
ghost use Rattle.std.specs.Prelude.{◌≢◌, ◌≡◌, ◌*◌, ◌^◌, ◌%◌, ◌<◌, IfSome};
ghost use Rattle.codec.specs.inner.Fields.{Registers};
ghost use Rattle.manual.specs.Addresses.{signed_byte, displacement_of, base_of, index_of, address_of, register_part, address};
ghost use Rattle.machine.specs.inner.Named.{named};

use codec::Operand;
use codec::modes::{BYTE_DISPLACEMENT, NO_BASE, NO_DISPLACEMENT, NO_INDEX, SIB};

// The least negative byte, and what extends its sign to 32 bits.
const SIGN: u32 = 0x80;

const SIGN_EXTENSION: u32 = 0xffffff00;

// Not `works::extended`, which takes a byte: a displacement and an immediate have 32 bits, and nothing bounds them here.
#[tactic(auto, using(crate::proofs::laws::addresses::Addressing::signed_low, crate::proofs::laws::addresses::Addressing::signed_high))]
pub(crate) fn signed(byte: u32) -> u32
    ensures { result ≡ signed_byte byte % 2 ^ 32 }
{
    if byte < SIGN {
        return byte;
    }
    byte.wrapping_add(SIGN_EXTENSION)
}

#[tactic(auto, using(crate::proofs::laws::addresses::Addressing::extended_none, crate::proofs::laws::addresses::Addressing::extended_byte))]
fn extended(mode: u8, displacement: u32) -> u32
    ensures { result ≡ displacement_of mode displacement % 2 ^ 32 }
{
    if mode != BYTE_DISPLACEMENT {
        return displacement;
    }
    signed(displacement)
}

// The base register: at mod 00, 101 is none.
#[tactic(auto, using(crate::proofs::laws::addresses::Addressing::basing))]
pub(crate) fn base(mode: u8, register: u8) -> Option<u8>
    ensures is { named result ≡ base_of mode register }
    ensures same { IfSome result (λ k. k ≡ register) }
{
    if mode == NO_DISPLACEMENT && register == NO_BASE {
        return None;
    }
    Some(register)
}

// The index register: 100 is none.
#[tactic(auto, using(crate::proofs::laws::addresses::Addressing::index_is, crate::proofs::laws::addresses::Addressing::no_index))]
pub(crate) fn index(register: u8) -> Option<u8>
    ensures is { named result ≡ index_of register }
    ensures same { IfSome result (λ k. k ≡ register) }
{
    if register == NO_INDEX {
        return None;
    }
    Some(register)
}

// What a register adds.
pub(crate) fn part(integers: &[u32; 8], register: Option<u8>) -> u32
    requires { IfSome register (λ k. k < 8) }
    ensures { result ≡ register_part integers.now (named register) }
{
    match register {
        Some(k) => integers[usize::from(k)],
        None => 0,
    }
}

// Doubled once for each unit of the scale. (No shift: a scale may be any byte, and the clause has 2 ^ scale for each.)
#[tactic(auto, using(crate::proofs::laws::addresses::Addressing::doubled_once))]
pub(crate) fn scaled(index: u32, scale: u8) -> u32
    ensures { result ≡ index * 2 ^ scale % 2 ^ 32 }
{
    let mut doubled = index;
    for _turn in 0..scale {
        doubled = doubled.wrapping_add(doubled);
    }
    doubled
}

// The address of an operand that is in memory, which may be [EDI]: see `operands::located`.
#[tactic(auto, using(crate::proofs::laws::addresses::Addressing::sum_plain, crate::proofs::laws::addresses::Addressing::sum_sib))]
pub(crate) fn address_of(integers: &[u32; 8], operand: Operand) -> u32
    requires { Registers operand × (operand.mode ≢ 3) }
    ensures { result ≡ address integers.now (address_of operand) }
{
    let displacement = extended(operand.mode, operand.displacement);
    if operand.rm != SIB {
        let start = part(integers, base(operand.mode, operand.rm));
        return start.wrapping_add(displacement);
    }
    let start = part(integers, base(operand.mode, operand.base));
    let index = part(integers, index(operand.index));
    let from = start.wrapping_add(scaled(index, operand.scale));
    from.wrapping_add(displacement)
}
