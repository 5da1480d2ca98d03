// What remains of an instruction is done, over lent registers and a lent memory.
ghost use Rattle.std.specs.Prelude.{◌≡◌, ◌%◌, ◌^◌, ◌<◌, set};
ghost use Rattle.works.specs.Works.{left, left_by};

use crate::{
    COUNT, DOUBLEWORD_RANGE, EMPTY, OPERATE, PASS, QUADWORD, SET, STORE, TO_INTEGER, Work,
};
use refusals::Refusal;

// What a step that completed hands on: the position where the run goes on, the tag mark and the zero mark.
#[derive(Clone, Copy, PartialEq, Eq, Debug)]
pub struct Moved {
    pub next: usize,
    pub valid: bool,
    pub zero: bool,
}

// The low half of a value goes to an integer register.
fn put_low(integers: &mut [u32; 8], register: usize, value: u64)
    requires { register < 8 }
    ensures { integers.new ≡ set integers.old register (value % 2 ^ 32) }
{
    integers[register] = (value % DOUBLEWORD_RANGE) as u32;
}

// How many registers there are of either sort.
const REGISTERS: usize = 8;

// A work done over a floor, where `valid` is the tag mark and `zero` the zero mark. A register's number is taken by its three low bits. A refusal is
// handed back by its number, since a work of the clause `left_by` may be refused by any.
#[tactic(auto, unfolding(crate::specs::Works::left_by))]
pub fn perform(
    work: Work,
    mmx: &mut [u64; 8],
    integers: &mut [u32; 8],
    valid: bool,
    zero: bool,
    memory: &mut [u8],
    floor: usize,
) -> Result<Moved, u8>
    ensures { left result mmx.new integers.new memory.new ≡ left_by work floor valid zero mmx.old integers.old memory.old }
{
    let place = work.place;
    let register = place % REGISTERS;
    let next = work.next;
    let completed = Moved {
        next,
        valid: true,
        zero,
    };
    let passed = Moved { next, valid, zero };
    match work.what {
        OPERATE => {
            mmx[register] = lanes::operate(work.number, mmx[register], work.value);
            Ok(completed)
        }
        STORE => {
            if place < floor {
                return Err(Refusal::BelowFloor.number());
            }
            // a store of a constant size compiles to one move
            match work.number {
                QUADWORD => words::store(memory, place, QUADWORD as usize, work.value),
                size => words::store(memory, place, size as usize, work.value),
            }
            Ok(completed)
        }
        TO_INTEGER => {
            put_low(integers, register, work.value);
            Ok(completed)
        }
        EMPTY => Ok(Moved {
            valid: false,
            ..completed
        }),
        PASS => Ok(passed),
        SET => {
            put_low(integers, register, work.value);
            Ok(passed)
        }
        COUNT => {
            put_low(integers, register, work.value);
            Ok(Moved {
                zero: work.value % DOUBLEWORD_RANGE == 0,
                ..passed
            })
        }
        _ => Err(work.number),
    }
}
