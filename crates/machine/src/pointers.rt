// Where an operand in memory starts, summed up while its SIB byte and its displacement are read.
// Code, position and ModRM byte are parameters, and what is known of them is asked of each function, since each is handed another position.
ghost use Rattle.std.specs.Prelude.{◌≡◌, ◌+◌, ◌*◌, ◌/◌, ◌%◌, ◌^◌, ◌≤◌, ◌<◌, length, IfSome};
ghost use Rattle.codec.specs.Operands.{displacement_size};
ghost use Rattle.manual.specs.Addresses.{base_of, index_of, register_part};
ghost use Rattle.machine.specs.inner.Pointers.{Displaced, Points};

use crate::addresses;
use codec::fields::{MIDDLE, UPPER, VALUES};
use codec::modes::{BYTE_DISPLACEMENT, LONG_DISPLACEMENT, NO_BASE, SIB};

// The operand's address, and the position after its bytes in the code. There is none where they do not all lie in the code.
#[derive(Clone, Copy)]
pub(crate) struct Pointer {
    pub(crate) address: u32,
    pub(crate) next: usize,
}

// The least ModRM bytes with mod 01 and with mod 10.
const DISPLACED: u8 = UPPER * BYTE_DISPLACEMENT;

const LONG: u8 = UPPER * LONG_DISPLACEMENT;

// How many bytes a long displacement has.
const LONG_BYTES: usize = 4;

// A displacement of four bytes.
#[tactic(auto, using(crate::proofs::laws::pointers::Pointing::past_four))]
fn past_long(start: u32, code: &[u8], at: usize) -> Option<Pointer>
    requires { at ≤ length code.now }
    ensures { IfSome result (λ p. Displaced p start 2 4 code.now at) }
{
    if code.len() < at + LONG_BYTES {
        return None;
    }
    let displacement = words::load(code, at, LONG_BYTES) as u32;
    Some(Pointer {
        address: start.wrapping_add(displacement),
        next: at + LONG_BYTES,
    })
}

// Mod 01 and 10.
#[tactic(auto, using(crate::proofs::laws::pointers::Pointing::past_byte, crate::proofs::laws::pointers::Pointing::past_long))]
fn past_displacement(start: u32, code: &[u8], at: usize, modrm: u8) -> Option<Pointer>
    requires { (at ≤ length code.now) × ((64 ≤ modrm) × (modrm < 192)) }
    ensures { IfSome result (λ p. Displaced p start (modrm / 64) (displacement_size (modrm / 64) 0 0) code.now at) }
{
    if LONG <= modrm {
        return past_long(start, code, at);
    }
    let byte = *code.get(at)?;
    Some(Pointer {
        address: start.wrapping_add(works::extended(byte)),
        next: at + 1,
    })
}

// The index, with the base, which at mod 00 is none if it is 101, and the displacement added to it.
#[tactic(auto, using(crate::proofs::laws::pointers::Pointing::basing))]
fn past_base(
    integers: &[u32; 8],
    base: u8,
    index: u32,
    code: &[u8],
    at: usize,
    modrm: u8,
) -> Option<Pointer>
    requires { (at ≤ length code.now) × ((modrm < 192) × (base < 8)) }
    ensures { IfSome result (λ p. Displaced p (register_part integers.now (base_of (modrm / 64) base) + index) (modrm / 64) (displacement_size (modrm / 64) 4 base) code.now at) }
{
    let start = integers[usize::from(base)].wrapping_add(index);
    if DISPLACED <= modrm {
        return past_displacement(start, code, at, modrm);
    }
    if base == NO_BASE {
        return past_long(index, code, at);
    }
    Some(Pointer {
        address: start,
        next: at,
    })
}

// The index that an SIB byte names, times its scale.
#[tactic(auto, using(crate::proofs::laws::pointers::Pointing::index_scaled))]
fn index_of(integers: &[u32; 8], sib: u8) -> u32
    ensures { result ≡ register_part integers.now (index_of (sib / 8 % 8)) * 2 ^ (sib / 64) % 2 ^ 32 }
{
    let index = addresses::index(sib / MIDDLE % VALUES);
    addresses::scaled(addresses::part(integers, index), sib / UPPER)
}

// What follows a ModRM byte whose mod is not 11.
#[tactic(auto, using(crate::proofs::laws::pointers::Pointing::points_plain, crate::proofs::laws::pointers::Pointing::points_sib))]
pub(crate) fn pointer_at(integers: &[u32; 8], code: &[u8], at: usize, modrm: u8) -> Option<Pointer>
    requires { (at ≤ length code.now) × (modrm < 192) }
    ensures { IfSome result (λ p. Points p integers.now code.now at modrm) }
{
    let rm = modrm % VALUES;
    if rm == SIB {
        let sib = *code.get(at)?;
        let index = index_of(integers, sib);
        return past_base(integers, sib % VALUES, index, code, at + 1, modrm);
    }
    past_base(integers, rm, 0, code, at, modrm)
}
