// Which parts an instruction has: the fields of its ModRM and SIB bytes, the sizes of its displacement and its immediate.
#![tactic(auto, using(crate::proofs::FormNumbers::form_rules))]

ghost use Rattle.std.specs.Prelude.{◌≡◌, ◌≤◌, ◌<◌};
ghost use Rattle.codec.specs.Forms.{mmreg1·mmreg2/mem64+suffix, has_operand, is_among, allows, immediate_size, accepts};
ghost use Rattle.codec.specs.Table.{form_of};
ghost use Rattle.codec.specs.Operands.{has_sib, displacement_size};
ghost use Rattle.codec.specs.inner.Fields.{Sized};

use crate::forms::{
    ABSENT, ADD, DECREMENT, EMMS, EXTRACT, FENCE, JUMP, LEFT, MASKED, PREFETCH, RIGHT,
    RIGHT_SIGNED, SET, SHIFT_Q, SHIFT_WD, STREAM, SUFFIXED, TOP_BITS,
};
use crate::modes::{BYTE_DISPLACEMENT, LONG_DISPLACEMENT, NO_BASE, NO_DISPLACEMENT, REGISTER, SIB};
use crate::suffixes;

// The places of the upper and the middle field of a ModRM or SIB byte, and how many values the lower two have.
pub const UPPER: u8 = 64;

pub const MIDDLE: u8 = 8;

pub const VALUES: u8 = 8;

// How many values a byte has.
pub(crate) const BYTE: u32 = 256;

// The sizes of a displacement or an immediate.
// They are numbers and no enum: each use but three `match` adds or compares them, so that an enum's number would stand beside it there (`at + k`).
pub(crate) const NO_BYTE: usize = 0;

pub(crate) const ONE_BYTE: usize = 1;

const FOUR_BYTES: usize = 4;

// ADD's digit.
const ADD_DIGIT: u8 = 0;

// How many digits the prefetches have.
const PREFETCHES: u8 = 4;

// SFENCE's digit, and its rm.
const FENCE_DIGIT: u8 = 7;

const FENCE_RM: u8 = 0;

// Whether a form has a ModRM byte.
pub(crate) fn has_operand(form: u32) -> bool
    ensures { result ≡ has_operand (form_of form) }
{
    match form {
        ABSENT | EMMS | SET | DECREMENT | JUMP => false,
        _ => true,
    }
}

// Whether a form may have a ModRM byte of these fields.
#[tactic(auto, using(crate::proofs::FormNumbers::allowed_rules))]
pub fn allowed(form: u32, mode: u8, reg: u8, rm: u8) -> bool
    ensures { result ≡ allows (form_of form) mode reg rm }
{
    match form {
        SHIFT_WD | SHIFT_Q => mode == REGISTER && has_digit(form, reg),
        EXTRACT | TOP_BITS | MASKED => mode == REGISTER,
        FENCE => mode == REGISTER && rm == FENCE_RM && reg == FENCE_DIGIT,
        ADD => mode == REGISTER && reg == ADD_DIGIT,
        PREFETCH => mode != REGISTER && reg < PREFETCHES,
        STREAM => mode != REGISTER,
        _ => true,
    }
}

// Whether a form of the shifts by an immediate has this digit.
fn has_digit(form: u32, reg: u8) -> bool
    requires { (2 ≤ form) × (form ≤ 3) }
    ensures { result ≡ is_among reg (form_of form).digits }
{
    match reg {
        RIGHT | LEFT => true,
        RIGHT_SIGNED => form == SHIFT_WD,
        _ => false,
    }
}

// How many immediate bytes a form has.
pub(crate) fn immediate_size(form: u32) -> usize
    ensures { (result ≡ immediate_size (form_of form)) × Sized result }
{
    match form {
        SHIFT_WD..=EXTRACT => ONE_BYTE,
        SET => FOUR_BYTES,
        ADD | JUMP | SUFFIXED => ONE_BYTE,
        _ => NO_BYTE,
    }
}

// Whether a byte is a suffix.
pub fn is_suffix(value: u32) -> bool
    ensures { result ≡ is_among value mmreg1·mmreg2/mem64+suffix.suffixes }
{
    matches!(
        value,
        suffixes::PI2FW
            | suffixes::PF2IW
            | suffixes::PFCMPGT
            | suffixes::PFMAX
            | suffixes::PSWAPD
            | suffixes::PAVGUSB
    )
}

// Whether a form may have an immediate: a suffix is a listed one.
pub(crate) fn accepted(form: u32, immediate: u32) -> bool
    ensures { result ≡ accepts (form_of form) immediate }
{
    form != SUFFIXED || is_suffix(immediate)
}

// Whether an SIB byte follows the ModRM byte.
#[tactic(auto, using(crate::proofs::Tests::tests), unfolding(crate::specs::Operands::has_sib))]
pub(crate) fn sib_follows(mode: u8, rm: u8) -> bool
    ensures { result ≡ has_sib mode rm }
{
    mode != REGISTER && rm == SIB
}

// How many bytes of displacement there are; without an SIB byte the base is 0.
#[tactic(auto, using(crate::proofs::Sizes::sizes), unfolding(crate::specs::Operands::displacement_size))]
pub(crate) fn displacement_size(mode: u8, rm: u8, base: u8) -> usize
    ensures { (result ≡ displacement_size mode rm base) × Sized result }
{
    match mode {
        BYTE_DISPLACEMENT => ONE_BYTE,
        LONG_DISPLACEMENT => FOUR_BYTES,
        NO_DISPLACEMENT if rm == NO_BASE || (rm == SIB && base == NO_BASE) => FOUR_BYTES,
        _ => NO_BYTE,
    }
}
