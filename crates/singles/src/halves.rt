// The two halves of a register, and the single-precision numbers that they stand for.
ghost use Rattle.std.specs.Prelude.{◌≡◌};
ghost use Rattle.basis.specs.Names.{binary32, of_bits};
ghost use Rattle.lanes.specs.Lane.{lane};
ghost use Rattle.singles.specs.Siblings.{join};

use crate::classes::{INFINITY, SIGN};

// How many values a half has.
pub(crate) const HALF_RANGE: u64 = 0x1_0000_0000;

// The low half and the high one: a function that takes the lane's number would only choose between these two lines.
#[tactic(auto, using(crate::proofs::Sorting::low_lane))]
pub(crate) fn low_half(register: u64) -> u32
    ensures { result ≡ lane 32 0 register }
{
    (register % HALF_RANGE) as u32
}

#[tactic(auto, using(crate::proofs::Sorting::high_lane))]
pub(crate) fn high_half(register: u64) -> u32
    ensures { result ≡ lane 32 1 register }
{
    (register / HALF_RANGE % HALF_RANGE) as u32
}

pub(crate) fn joined(low: u32, high: u32) -> u64
    ensures { result ≡ join low high }
{
    u64::from(high) * HALF_RANGE + u64::from(low)
}

// The number that a half stands for: every NaN's half for the one NaN.
#[tactic(auto, using(crate::proofs::Sorting::nan_above, std::proofs::lemmas::Float::not_nan_f32_bits))]
fn number_of(half: u32) -> f32
    ensures { result ≡ of_bits binary32 half }
{
    if INFINITY < half % SIGN {
        return f32::NAN;
    }
    f32::from_bits(half)
}

// A register read as a pair of single-precision numbers.
#[derive(Clone, Copy)]
pub struct Singles {
    pub low: f32,
    pub high: f32,
}

impl Singles {
    pub fn of(a: u64) -> Self
        ensures { (result.low ≡ of_bits binary32 (lane 32 0 a)) × (result.high ≡ of_bits binary32 (lane 32 1 a)) }
    {
        Self {
            low: number_of(low_half(a)),
            high: number_of(high_half(a)),
        }
    }
}
