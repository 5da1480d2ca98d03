// The footprint of the step at a position: what each way reads and writes, after the tests of the step.
ghost use Rattle.std.specs.Prelude.{◌≡◌, ◌/◌, ◌^◌};
ghost use Rattle.codec.specs.inner.Fields.{Registers};
ghost use Rattle.machine.specs.State.{state_of};
ghost use Rattle.machine.specs.Footprints.{masked_at, paper_of_footprint};
ghost use Rattle.machine.specs.inner.Reaches.{ordinary_footprint, pointed_by, footprint_of_way, unmarked_footprint, Completes};
ghost use Rattle.machine.specs.inner.Works.{effect_in};

use crate::known::Known;
use crate::operands::AT_EDI;
use crate::ways::Way;
use crate::{Footprint, LONGEST_MEMORY, Machine, Places, gathering, loops, reaches, ways};
use codec::forms::{FORM, SUFFIXED};
use codec::prefixes::ESCAPE;
use codec::{Kind, LONGEST_CODE, Operand};
use refusals::Refusal;

// What is read, with the address registers, and what is written.
fn ordinary(registers: u8, reads: Places, writes: Places) -> Footprint
    ensures { result ≡ ordinary_footprint registers reads writes }
{
    Footprint {
        reads: Places {
            integers: registers | reads.integers,
            ..reads
        },
        writes,
        kind: Kind::Ordinary,
    }
}

// What each way reads and writes: an operand that may be in memory has these address registers and places. (Of an operand, and not of a `Known`: it
// goes by the way and the registers alone.)
fn footprint_of_way(way: Way, operand: Operand, registers: u8, places: Places) -> Footprint
    requires { Registers operand }
    ensures { result ≡ footprint_of_way way operand registers places }
{
    let own = reaches::with_register(operand.reg, reaches::NOWHERE);
    match way {
        Way::Empties => Footprint {
            reads: reaches::NOWHERE,
            writes: reaches::NOWHERE,
            kind: Kind::Emms,
        },
        Way::Passes => Footprint {
            reads: reaches::NOWHERE,
            writes: reaches::NOWHERE,
            kind: Kind::Silent,
        },
        Way::Shifts => {
            let shifted = reaches::with_register(operand.rm, reaches::NOWHERE);
            ordinary(0, shifted, shifted)
        }
        Way::Extracts => ordinary(
            0,
            reaches::with_register(operand.rm, reaches::NOWHERE),
            reaches::of_integer(operand.reg),
        ),
        Way::Stores => ordinary(registers, own, places),
        Way::Loads | Way::Shuffles => ordinary(registers, places, own),
        Way::Computes | Way::Suffixes | Way::Inserts => {
            ordinary(registers, reaches::with_register(operand.reg, places), own)
        }
        Way::Masks => {
            let masked = reaches::with_register(operand.rm, places);
            ordinary(
                registers,
                reaches::with_register(operand.reg, masked),
                places,
            )
        }
    }
}

// The operand that may be in memory: that of r/m, or for MASKMOVQ [EDI].
fn pointed(way: Way, operand: Operand) -> Operand
    ensures { result ≡ pointed_by way operand }
{
    match way {
        Way::Masks => AT_EDI,
        _ => operand,
    }
}

// An instruction with a suffix that completes.
#[tactic(auto, using(crate::proofs::laws::footprints::Suffixing::suffix_rules))]
fn completed(machine: Machine, known: Known, memory: &[u8]) -> Result<Footprint, Refusal>
    requires { (known.entry / 2 ^ 24 ≡ 16) × Completes (effect_in known.entry known.instruction) (state_of machine memory.now) }
    ensures { paper_of_footprint result ≡ unmarked_footprint (effect_in known.entry known.instruction) (state_of machine memory.now) }
{
    let operand = known.instruction.operand;
    let reach = reaches::reach_operand(machine, known.entry, operand, memory)?;
    let way = ways::suffix_way(known.instruction.immediate);
    Ok(footprint_of_way(way, operand, reach.registers, reach.places))
}

// An instruction with a suffix: its footprint is refused as its work is.
#[tactic(auto, using(crate::proofs::laws::footprints::Suffixing::suffix_rules))]
fn suffixed(machine: Machine, known: Known, memory: &[u8]) -> Result<Footprint, Refusal>
    requires { known.entry / 2 ^ 24 ≡ 16 }
    ensures { paper_of_footprint result ≡ unmarked_footprint (effect_in known.entry known.instruction) (state_of machine memory.now) }
{
    let mmx = machine.mmx;
    let integers = machine.integers;
    known.suffixed(&mmx, &integers, memory)?;
    completed(machine, known, memory)
}

// An instruction that the control marks let pass.
#[tactic(auto, using(crate::proofs::laws::footprints::Forms::form_rules))]
fn unmarked(machine: Machine, known: Known, memory: &[u8]) -> Result<Footprint, Refusal>
    ensures { paper_of_footprint result ≡ unmarked_footprint (effect_in known.entry known.instruction) (state_of machine memory.now) }
{
    let entry = known.entry;
    if entry / FORM == SUFFIXED {
        return suffixed(machine, known, memory);
    }
    let operand = known.instruction.operand;
    let way = ways::way_of(entry / FORM);
    if ways::has_other(way) {
        let pointed = pointed(way, operand);
        let reach = reaches::reach_operand(machine, entry, pointed, memory)?;
        return Ok(footprint_of_way(way, operand, reach.registers, reach.places));
    }
    Ok(footprint_of_way(way, operand, 0, reaches::NOWHERE))
}

impl Machine {
    // What the step at a position reads and writes.
    #[tactic(auto, using(crate::proofs::laws::footprints::Tests::position_rules))]
    pub fn footprint(self, code: &[u8], at: usize, memory: &[u8]) -> Result<Footprint, Refusal>
        ensures { paper_of_footprint result ≡ masked_at code.now at (state_of self memory.now) }
    {
        if LONGEST_MEMORY < memory.len() {
            return Err(Refusal::MemoryTooLong);
        }
        if LONGEST_CODE < code.len() {
            return Err(Refusal::CodeTooLong);
        }
        let table = codec::table();
        let found = codec::read_from(&table, code, at)?;
        let instruction = found.instruction;
        if instruction.first != ESCAPE {
            return loops::traced(
                self.marks.zero,
                found.entry,
                instruction,
                code.len(),
                found.next,
            );
        }
        let known = Known {
            entry: found.entry,
            instruction,
            next: found.next,
        };
        let bar = works::barred(self.marks);
        match gathering::stopping(bar, found.entry) {
            Some(refusal) => Err(refusal),
            None => unmarked(self, known, memory),
        }
    }
}
