// What a half is to the tables, and a register as two such halves.
ghost use Rattle.std.specs.Prelude.{◌≡◌};
ghost use Rattle.lanes.specs.Lane.{lane};
ghost use Rattle.singles.specs.inner.Numbers.{sort, class_of};

use crate::halves::{Singles, high_half, low_half};

#[derive(Clone, Copy, Debug, PartialEq)]
pub enum Class {
    Zero,
    Normal(f32),
    Unsupported,
}

// What the sign bit weighs.
pub(crate) const SIGN: u32 = 0x8000_0000;

// Infinity without its sign: the first of the halves whose exponent is FF. Those above it are the NaNs.
pub(crate) const INFINITY: u32 = 0x7F80_0000;

// Below this one, without their signs, are the halves whose exponent is 00.
const LEAST_NORMAL: u32 = 0x80_0000;

// A half is sorted by its exponent; a normal one carries the number that it stands for.
#[tactic(auto, unfolding(crate::specs::inner::Numbers::sort))]
fn class_of(half: u32, number: f32) -> Class
    ensures { result ≡ sort half number }
{
    match half % SIGN {
        INFINITY.. => Class::Unsupported,
        ..LEAST_NORMAL => Class::Zero,
        _ => Class::Normal(number),
    }
}

// A half, and its class.
#[derive(Clone, Copy)]
pub(crate) struct Half {
    pub bits: u32,
    pub class: Class,
}

// A register's halves.
#[derive(Clone, Copy)]
pub(crate) struct Halves {
    pub low: Half,
    pub high: Half,
}

impl Half {
    fn of(bits: u32, number: f32) -> Self
        ensures { (result.bits ≡ bits) × (result.class ≡ sort bits number) }
    {
        Self {
            bits,
            class: class_of(bits, number),
        }
    }
}

impl Halves {
    #[tactic(auto, using(crate::proofs::Agreeing::class_is))]
    pub(crate) fn of(register: u64) -> Self
        ensures low { (result.low.bits ≡ lane 32 0 register) × (result.low.class ≡ class_of (lane 32 0 register)) }
        ensures high { (result.high.bits ≡ lane 32 1 register) × (result.high.class ≡ class_of (lane 32 1 register)) }
    {
        let numbers = Singles::of(register);
        Self {
            low: Half::of(low_half(register), numbers.low),
            high: Half::of(high_half(register), numbers.high),
        }
    }
}
