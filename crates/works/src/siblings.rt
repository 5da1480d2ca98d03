// What remains of one of 3DNow's instructions, by its suffix: an operation on its register, or it is refused.
ghost use Rattle.std.specs.Prelude.{◌≡◌};
ghost use Rattle.codec.specs.Opcodes.{suffixed_of};
ghost use Rattle.works.specs.Answers.{paper_of};
ghost use Rattle.works.specs.Siblings.{value_left, operation_left, sibling_work, suffixed_answer};

use crate::{OPERATE, Work, refused, work_of};
use codec::suffixes::{PAVGUSB, PF2IW, PFCMPGT, PI2FW, PSWAPD};
use lanes::{MOVE, PAVGB};
use refusals::Refusal;

// What a suffix leaves of what its register held and of the operand's number; PAVGUSB's is the number itself, for PAVGB.
#[tactic(auto, using(crate::proofs::Answering::answering))]
fn answer_of(suffix: u32, old: u64, source: u64) -> Option<u64>
    ensures { result ≡ value_left (suffixed_of suffix).sibling old source }
{
    match suffix {
        PF2IW => singles::to_words(source),
        PFCMPGT => singles::greater(old, source),
        PI2FW => Some(singles::from_words(source)),
        PSWAPD => Some(singles::swapped(source)),
        PAVGUSB => Some(source),
        _ => singles::maximum(old, source),
    }
}

// The operation that then remains: what is left moves to the register, but for PAVGUSB.
#[tactic(auto, using(crate::proofs::Answering::answering))]
fn operation_of(suffix: u32) -> u8
    ensures { result ≡ operation_left (suffixed_of suffix).sibling }
{
    if suffix == PAVGUSB { PAVGB } else { MOVE }
}

// The work of a suffix, with what its register held and the operand's number.
#[tactic(auto, using(crate::proofs::Answering::answering))]
pub fn of_suffix(suffix: u32, old: u64, source: u64, place: usize, next: usize) -> Work
    ensures { result ≡ sibling_work (suffixed_of suffix).sibling old source place next }
{
    match answer_of(suffix, old, source) {
        Some(value) => work_of(OPERATE, operation_of(suffix), place, value, next),
        None => refused(Refusal::HalfUnsupported.number()),
    }
}

// The same, from a work that has the operand's number; another stays as it is.
#[tactic(auto, using(crate::proofs::Answering::answering))]
pub fn suffixed(suffix: u32, old: u64, work: Work) -> Result<Work, Refusal>
    ensures { paper_of result ≡ suffixed_answer suffix old work }
{
    if work.what != OPERATE {
        return Ok(work);
    }
    match answer_of(suffix, old, work.value) {
        Some(value) => Ok(Work {
            number: operation_of(suffix),
            value,
            ..work
        }),
        None => Err(Refusal::HalfUnsupported),
    }
}
