// The work of the instructions that pick lanes: PINSRW, PSHUFW, PEXTRW, PMOVMSKB and MASKMOVQ. What they leave is computed when the work is made.
ghost use Rattle.std.specs.Prelude.{◌≡◌, ◌/◌, ◌^◌, get_or};
ghost use Rattle.codec.specs.inner.Fields.{Registers};
ghost use Rattle.works.specs.Answers.{work_in};
ghost use Rattle.machine.specs.inner.Picks.{picked_of, picked_work, extracted_of, extract_work, mask_work};

use crate::addresses;
use crate::operands::AT_EDI;
use codec::Operand;
use codec::forms::{EXTRACT, FORM, INSERT};
use lanes::MOVE;
use refusals::Refusal;
use works::{OPERATE, QUADWORD, STORE, TO_INTEGER, Work, work_of};

// What PINSRW or PSHUFW, by its entry, leaves of the old register, the operand's number and the immediate.
#[tactic(auto, using(crate::proofs::laws::picking::Making::picking))]
fn picked_of(entry: u32, old: u64, value: u64, immediate: u32) -> u64
    ensures { result ≡ picked_of (entry / 2 ^ 24) old value immediate }
{
    if entry / FORM == INSERT {
        return lanes::insert(old, value, u64::from(immediate));
    }
    lanes::shuffle(value, u64::from(immediate))
}

// The work of PINSRW or PSHUFW, from one that has the operand's number; another stays as it is.
#[tactic(auto, using(crate::proofs::laws::picking::Making::picking))]
pub(crate) fn picked(entry: u32, old: u64, immediate: u32, work: Work) -> Work
    ensures { result ≡ picked_work (entry / 2 ^ 24) old immediate work }
{
    let what = work.what;
    if what != OPERATE {
        return work;
    }
    Work {
        number: MOVE,
        value: picked_of(entry, old, work.value, immediate),
        ..work
    }
}

// What PEXTRW or PMOVMSKB, by its entry, leaves of an MMX register.
#[tactic(auto, using(crate::proofs::laws::picking::Making::picking))]
fn extracted_of(entry: u32, value: u64, immediate: u32) -> u64
    ensures { result ≡ extracted_of (entry / 2 ^ 24) value immediate }
{
    if entry / FORM == EXTRACT {
        return lanes::extract(value, u64::from(immediate));
    }
    lanes::top_bits(value)
}

// The work of PEXTRW or PMOVMSKB: a part of an MMX register goes to an integer register.
#[tactic(auto, using(crate::proofs::laws::picking::Making::picking))]
pub(crate) fn extracted(entry: u32, value: u64, immediate: u32, register: u8, next: usize) -> Work
    ensures { result ≡ extract_work (entry / 2 ^ 24) value immediate register next }
{
    work_of(
        TO_INTEGER,
        0,
        register as usize,
        extracted_of(entry, value, immediate),
        next,
    )
}

// The work of MASKMOVQ: all eight bytes at EDI are stored, those that the mask leaves out as they were.
// (Of an operand, and not of a `Known`, of which it needs two registers alone.)
#[tactic(auto, using(crate::proofs::laws::picking::Making::picking))]
pub(crate) fn masked(
    mmx: &[u64; 8],
    integers: &[u32; 8],
    operand: Operand,
    next: usize,
    memory: &[u8],
) -> Result<Work, Refusal>
    requires { Registers operand }
    ensures { work_in result ≡ mask_work integers.now memory.now (get_or mmx.now operand.reg 0) (get_or mmx.now operand.rm 0) next }
{
    let address = addresses::address_of(integers, AT_EDI) as usize;
    if works::is_inside(memory.len(), address, QUADWORD as usize) {
        let old = words::load(memory, address, QUADWORD as usize);
        let blended = lanes::blend(old, mmx[operand.reg as usize], mmx[operand.rm as usize]);
        return Ok(work_of(STORE, QUADWORD, address, blended, next));
    }
    Err(Refusal::OutsideMemory)
}
