// PSLL, PSRL and PSRA, all lanes at once: the count is the whole source.
ghost use Rattle.std.specs.Prelude.{◌≡◌};
ghost use Rattle.lanes.specs.Rules.{packed, shift, left, right, right_signed};

use crate::compares::negatives;
use crate::lane::Width;

// The bits that would move into the next lane up are left out first.
#[tactic(auto, using(crate::proofs::Shifting::shifting))]
pub(crate) fn shift_left(a: u64, count: u64, w: Width) -> u64
    ensures { result ≡ packed (shift left) w.bits a count }
{
    if w.bits <= count {
        return 0;
    }
    (a & w.repeated(w.ones() >> count)) << count
}

// The bits that moved in from the next lane up are left out.
#[tactic(auto, using(crate::proofs::Shifting::shifting))]
pub(crate) fn shift_right(a: u64, count: u64, w: Width) -> u64
    ensures { result ≡ packed (shift right) w.bits a count }
{
    if w.bits <= count {
        return 0;
    }
    (a >> count) & w.repeated(w.ones() >> count)
}

// The lanes below zero are turned over, shifted, and turned back.
#[tactic(auto, using(crate::proofs::Shifting::shifting))]
pub(crate) fn shift_right_signed(a: u64, count: u64, w: Width) -> u64
    ensures { result ≡ packed (shift right_signed) w.bits a count }
{
    let below = negatives(a, w);
    shift_right(a ^ below, count, w) ^ below
}
