// Register sets as masks: one register, and those that an address is made of.
ghost use Rattle.std.specs.Prelude.{◌≡◌, ◌^◌, ◌<◌, IfSome};
ghost use Rattle.codec.specs.inner.Fields.{Registers};
ghost use Rattle.manual.specs.Addresses.{registers_of};
ghost use Rattle.machine.specs.Footprints.{mask};
ghost use Rattle.machine.specs.inner.Named.{named};
ghost use Rattle.machine.specs.inner.Reaches.{behind};

use crate::addresses::{base, index};
use codec::Operand;
use codec::modes::{REGISTER, SIB};

// The mask of one register. (That its number is below 8 is asked wherever it is used: it is three bits of a byte of the code, and a type of its own
// would be made at each use.)
#[tactic(auto, using(crate::proofs::laws::footprints::Registers::one_bit))]
pub(crate) fn bit(register: u8) -> u8
    requires { register < 8 }
    ensures { result ≡ 2 ^ register }
{
    1 << register
}

// The mask of a register that may be named.
#[tactic(auto, using(crate::proofs::laws::footprints::Registers::mask_named, crate::proofs::laws::footprints::Registers::mask_none))]
fn mask(register: Option<u8>) -> u8
    requires { IfSome register (λ k. k < 8) }
    ensures { result ≡ mask (registers_of (named register)) }
{
    match register {
        Some(k) => bit(k),
        None => 0,
    }
}

// The mask of the registers that an operand's address is made of: none at mod 11. (It may be [EDI]: see
// `operands::located`.)
#[tactic(auto, using(crate::proofs::laws::footprints::Registers::addressing))]
pub(crate) fn address_mask(operand: Operand) -> u8
    requires { Registers operand }
    ensures { result ≡ behind operand }
{
    if operand.mode == REGISTER {
        return 0;
    }
    if operand.rm != SIB {
        return mask(base(operand.mode, operand.rm));
    }
    mask(base(operand.mode, operand.base)) | mask(index(operand.index))
}
