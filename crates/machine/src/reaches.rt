// Where an operand is, in masks and a range.
ghost use Rattle.std.specs.Prelude.{◌≡◌, true, ◌/◌, ◌^◌, ◌<◌};
ghost use Rattle.codec.specs.inner.Fields.{Registers};
ghost use Rattle.manual.specs.Locations.{places_of};
ghost use Rattle.works.specs.Answers.{paper_of};
ghost use Rattle.machine.specs.State.{state_of};
ghost use Rattle.machine.specs.inner.Reaches.{integer_alone, beside, places_at, reach_of};
ghost use Rattle.machine.specs.inner.Spots.{other_of, Named};
ghost use Rattle.machine.specs.inner.Ways.{has_other, way_of};
ghost use Rattle.machine.specs.inner.Works.{Listed};

use crate::operands::Spot;
use crate::{Machine, Places, operands, register_masks};
use codec::Operand;
use refusals::Refusal;

// No places.
pub(crate) const NOWHERE: Places = Places {
    mmx: 0,
    integers: 0,
    start: 0,
    length: 0,
    zero: false,
};

// Where an operand is: the mask of its address registers, and its places.
#[derive(Clone, Copy)]
pub(crate) struct Reach {
    pub(crate) registers: u8,
    pub(crate) places: Places,
}

// An MMX register beside other places.
pub(crate) fn with_register(register: u8, places: Places) -> Places
    requires { register < 8 }
    ensures { result ≡ beside register places }
{
    Places {
        mmx: register_masks::bit(register) | places.mmx,
        ..places
    }
}

// An integer register.
pub(crate) fn of_integer(register: u8) -> Places
    requires { register < 8 }
    ensures { result ≡ integer_alone register }
{
    Places {
        integers: register_masks::bit(register),
        ..NOWHERE
    }
}

// The places of an operand.
fn places_at(spot: Spot) -> Places
    requires { Named spot }
    ensures { result ≡ places_at spot }
{
    match spot {
        Spot::Mmx(register) => with_register(register, NOWHERE),
        Spot::Integer(register) => of_integer(register),
        Spot::Bytes(address, size) => Places {
            start: address,
            length: size as usize,
            ..NOWHERE
        },
    }
}

// The operand that r/m names, or [EDI].
pub(crate) fn reach_operand(
    machine: Machine,
    entry: u32,
    operand: Operand,
    memory: &[u8],
) -> Result<Reach, Refusal>
    requires { Registers operand × (Listed entry × (has_other (way_of (entry / 2 ^ 24)) ≡ true)) }
    ensures { paper_of result ≡ reach_of (other_of (entry / 2 ^ 24) operand) (places_of (state_of machine memory.now) (other_of (entry / 2 ^ 24) operand)) }
{
    let integers = machine.integers;
    let registers = register_masks::address_mask(operand);
    let spot = operands::located(&integers, entry, operand, memory.len())?;
    let places = places_at(spot);
    Ok(Reach { registers, places })
}
