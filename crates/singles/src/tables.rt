// The manuals' tables, over halves and their classes. Of an undefined half nothing is left.
ghost use Rattle.std.specs.Prelude.{◌≡◌};
ghost use Rattle.singles.specs.inner.Numbers.{greater, maximum, word};

use crate::classes::{Class, Half};
use crate::words::rounded;

// A half of ones, and one of zeros, which is +0.
const ONES: u32 = 0xFFFF_FFFF;

const ZEROS: u32 = 0;

// +0 as a number.
const PLUS_ZERO: f32 = 0.0;

// 003, Table 10.
#[tactic(auto, unfolding(crate::specs::inner::Numbers::greater))]
pub(crate) fn greater_of(x: Half, y: Half) -> Option<u32>
    ensures { result ≡ greater x.class y.class }
{
    match (x.class, y.class) {
        (Class::Zero, Class::Zero) => Some(ZEROS),
        (Class::Zero, Class::Normal(v)) => Some(if v < PLUS_ZERO { ONES } else { ZEROS }),
        (Class::Normal(u), Class::Zero) => Some(if u > PLUS_ZERO { ONES } else { ZEROS }),
        (Class::Normal(u), Class::Normal(v)) => Some(if u > v { ONES } else { ZEROS }),
        (Class::Unsupported, _) | (_, Class::Unsupported) => None,
    }
}

// 003, Table 11.
#[tactic(auto, unfolding(crate::specs::inner::Numbers::maximum))]
pub(crate) fn maximum_of(x: Half, y: Half) -> Option<u32>
    ensures { result ≡ maximum x.bits y.bits x.class y.class }
{
    match (x.class, y.class) {
        (Class::Zero, Class::Zero) => Some(ZEROS),
        (Class::Zero, Class::Normal(v)) => Some(if v > PLUS_ZERO { y.bits } else { ZEROS }),
        (Class::Normal(u), Class::Zero) => Some(if u > PLUS_ZERO { x.bits } else { ZEROS }),
        (Class::Normal(u), Class::Normal(v)) => Some(if u > v { x.bits } else { y.bits }),
        (Class::Unsupported, _) | (_, Class::Unsupported) => None,
    }
}

// 000, Table 3.
#[tactic(auto, unfolding(crate::specs::inner::Numbers::word))]
pub(crate) fn word_of(x: Half) -> Option<u32>
    ensures { result ≡ word x.class }
{
    match x.class {
        Class::Zero => Some(ZEROS),
        Class::Normal(u) => Some(rounded(u)),
        Class::Unsupported => None,
    }
}
