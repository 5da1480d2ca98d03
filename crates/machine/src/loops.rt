// The instructions of loops: what remains of one to be done, where a jump leads, and their footprints.
ghost use Rattle.std.specs.Prelude.{◌≡◌, not, cond, ◌+◌, ◌/◌, ◌%◌, ◌^◌, ◌<◌, get_or};
ghost use Rattle.reorder.specs.Result.{done, map_result};
ghost use Rattle.codec.specs.inner.Fields.{Registers};
ghost use Rattle.manual.specs.Jumps.{jumped, onward_by};
ghost use Rattle.machine.specs.Footprints.{paper_of_footprint};
ghost use Rattle.machine.specs.inner.Loops.{Looping, landing, Loops, counting_footprint, loop_footprint};
ghost use Rattle.works.specs.Answers.{paper_of_target, work_in};
ghost use Rattle.works.specs.Works.{to_count, work_of};
ghost use Rattle.machine.specs.inner.Works.{effect_in};

use crate::{Footprint, Places, addresses, reaches};
use codec::fields::VALUES;
use codec::forms::{ADD, DECREMENT, FORM, SET};
use codec::{Instruction, Kind};
use refusals::Refusal;
use works::{COUNT, PASS, Work, work_of};

// What minus 1 is in 32 bits.
const MINUS_ONE: u32 = 0xffffffff;

// The zero mark alone.
const ZERO_MARK: Places = Places {
    zero: true,
    ..reaches::NOWHERE
};

// Where a run goes on after a jump, with the position behind it, in a code of so many bytes: the jump is taken where the zero mark is clear.
fn onward(zero: bool, length: usize, behind: usize, displacement: u32) -> Result<usize, Refusal>
    ensures { paper_of_target result ≡ cond (not zero) (jumped length behind displacement) (done behind) }
{
    if zero {
        return Ok(behind);
    }
    works::target_of(length, behind, displacement)
}

// An integer register to which a number is added, in 32 bits.
fn counted(integers: &[u32; 8], register: usize, addend: u32, next: usize) -> Work
    requires { register < 8 }
    ensures { result ≡ work_of to_count 0 register ((get_or integers.now register 0 + addend) % 2 ^ 32) next }
{
    let sum = integers[register].wrapping_add(addend);
    work_of(COUNT, 0, register, u64::from(sum), next)
}

// A jump: nothing remains but to go on at its target.
fn jump(zero: bool, length: usize, next: usize, displacement: u32) -> Result<Work, Refusal>
    ensures { work_in result ≡ landing (cond (not zero) (jumped length next displacement) (done next)) }
{
    let target = onward(zero, length, next, displacement)?;
    Ok(work_of(PASS, 0, 0, 0, target))
}

// What remains of one, by the zero mark.
pub(crate) fn looped(
    integers: &[u32; 8],
    zero: bool,
    entry: u32,
    instruction: Instruction,
    length: usize,
    next: usize,
) -> Result<Work, Refusal>
    requires { Registers instruction.operand × Looping entry instruction }
    ensures { Loops (work_in result) integers.now (effect_in entry instruction) (onward_by length instruction zero next) }
{
    let register = (instruction.first % VALUES) as usize;
    match entry / FORM {
        DECREMENT => Ok(counted(integers, register, MINUS_ONE, next)),
        ADD => {
            let addend = addresses::signed(instruction.immediate);
            let register = instruction.operand.rm as usize;
            Ok(counted(integers, register, addend, next))
        }
        SET => {
            let value = u64::from(instruction.immediate);
            Ok(work_of(works::SET, 0, register, value, next))
        }
        _ => jump(zero, length, next, instruction.immediate),
    }
}

// The footprint of ADD and DEC: an integer register, and the zero mark.
fn counting(register: u8) -> Footprint
    requires { register < 8 }
    ensures { result ≡ counting_footprint register }
{
    let reads = reaches::of_integer(register);
    Footprint {
        reads,
        writes: Places {
            zero: true,
            ..reads
        },
        kind: Kind::Loop,
    }
}

// What one reads and writes; a jump that is taken and leads outside has no footprint.
pub(crate) fn traced(
    zero: bool,
    entry: u32,
    instruction: Instruction,
    length: usize,
    next: usize,
) -> Result<Footprint, Refusal>
    requires { Registers instruction.operand × Looping entry instruction }
    ensures { paper_of_footprint result ≡ map_result (λ position. loop_footprint (entry / 2 ^ 24) instruction) (onward_by length instruction zero next) }
{
    let register = instruction.first % VALUES;
    let footprint = match entry / FORM {
        SET => Footprint {
            reads: reaches::NOWHERE,
            writes: reaches::of_integer(register),
            kind: Kind::Loop,
        },
        ADD => counting(instruction.operand.rm),
        DECREMENT => counting(register),
        _ => {
            onward(zero, length, next, instruction.immediate)?;
            Footprint {
                reads: ZERO_MARK,
                writes: reaches::NOWHERE,
                kind: Kind::Loop,
            }
        }
    };
    Ok(footprint)
}
