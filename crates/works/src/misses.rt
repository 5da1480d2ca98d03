// The refusal of an operand in memory that misses it: by its base register.
ghost use Rattle.std.specs.Prelude.{◌≡◌};
ghost use Rattle.refusals.specs.Numbers.{number_of};
ghost use Rattle.manual.specs.Addresses.{base_of, address_of, is_stack_base};
ghost use Rattle.manual.specs.Locations.{miss_of};

use codec::Operand;
use codec::modes::{NO_DISPLACEMENT, REGISTER, SIB};
use refusals::Refusal;

// The numbers of ESP and EBP.
const ESP: u8 = 4;

const EBP: u8 = 5;

// Whether a register is a base at that mod, and one of the stack's.
#[tactic(auto, unfolding(manual::specs::Addresses::base_of))]
fn is_stack_base(mode: u8, register: u8) -> bool
    ensures { result ≡ is_stack_base (base_of mode register) }
{
    match register {
        ESP => true,
        EBP => mode != NO_DISPLACEMENT,
        _ => false,
    }
}

// Whether an operand's base register is one of the stack's: with an SIB byte, which mod 11 has not, the base is named there, else it is rm.
#[tactic(auto, unfolding(manual::specs::Addresses::address_of, codec::specs::Operands::has_sib))]
fn is_by_stack(operand: Operand) -> bool
    ensures { result ≡ is_stack_base (address_of operand).base }
{
    if operand.rm == SIB && operand.mode != REGISTER {
        is_stack_base(operand.mode, operand.base)
    } else {
        is_stack_base(operand.mode, operand.rm)
    }
}

pub fn miss_of(operand: Operand) -> Refusal
    ensures { number_of result ≡ miss_of (address_of operand) }
{
    if is_by_stack(operand) {
        Refusal::OutsideByStack
    } else {
        Refusal::OutsideMemory
    }
}
