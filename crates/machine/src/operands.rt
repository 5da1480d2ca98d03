// Where an operand is that r/m names, or MASKMOVQ's at EDI: in a register, or in memory at an address that is tested.
ghost use Rattle.std.specs.Prelude.{◌≡◌, true, ◌/◌, ◌^◌};
ghost use Rattle.codec.specs.inner.Fields.{Registers};
ghost use Rattle.works.specs.Answers.{paper_of};
ghost use Rattle.machine.specs.inner.Spots.{other_of, spot_of};
ghost use Rattle.machine.specs.inner.Ways.{has_other, way_of};
ghost use Rattle.machine.specs.inner.Works.{Listed};

use crate::{addresses, ways};
use codec::Operand;
use codec::forms::{FORM, PART, SIZE};
use codec::modes::{NO_DISPLACEMENT, REGISTER};
use refusals::Refusal;

// The number of the MMX register or of the integer register, or the address of the first byte with how many they are.
#[derive(Clone, Copy)]
pub(crate) enum Spot {
    Mmx(u8),
    Integer(u8),
    Bytes(usize, u8),
}

// The number of EDI.
const EDI: u8 = 7;

// [EDI]: the operand of MASKMOVQ in memory.
pub(crate) const AT_EDI: Operand = Operand {
    mode: NO_DISPLACEMENT,
    reg: 0,
    rm: EDI,
    scale: 0,
    index: 0,
    base: 0,
    displacement: 0,
};

// Where an operand is: at mod 11 a register, by the form an integer register or an MMX register; else its bytes in memory, refused where
// one is outside.
// (What is known of the operand is asked here, and not had from a `Known`: it may be [EDI], which no instruction has for its own.)
#[tactic(auto, using(crate::proofs::laws::operands::Locating::locating))]
pub(crate) fn located(
    integers: &[u32; 8],
    entry: u32,
    operand: Operand,
    room: usize,
) -> Result<Spot, Refusal>
    requires { Registers operand × (Listed entry × (has_other (way_of (entry / 2 ^ 24)) ≡ true)) }
    ensures { paper_of result ≡ spot_of integers.now room (other_of (entry / 2 ^ 24) operand) }
{
    if operand.mode != REGISTER {
        let address = addresses::address_of(integers, operand) as usize;
        let size = (entry / SIZE % PART) as u8;
        if works::is_inside(room, address, size as usize) {
            return Ok(Spot::Bytes(address, size));
        }
        return Err(works::miss_of(operand));
    }
    if ways::is_integer(entry / FORM) {
        return Ok(Spot::Integer(operand.rm));
    }
    Ok(Spot::Mmx(operand.rm))
}
