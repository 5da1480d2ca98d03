// PSAD: the distances of all lanes at once, then their sum.
ghost use Rattle.std.specs.Prelude.{◌≡◌, ◌/◌};
ghost use Rattle.lanes.specs.Lane.{lane};
ghost use Rattle.lanes.specs.Rules.{total, distances};

use crate::lane::{QUADWORD, Width};
use crate::sums::subtract_unsigned;

// The lanes, added up.
#[tactic(auto, using(crate::proofs::AddingUp::adding_up))]
fn total(x: u64, w: Width) -> u64
    ensures { result ≡ total (64 / w.bits) (λ i. lane w.bits i x) }
{
    let ones = w.ones();
    let mut sum: u64 = 0;
    for i in 0..QUADWORD.bits / w.bits {
        sum += (x >> (w.bits * i)) & ones;
    }
    sum
}

// Of the two differences, clamped at 0, one is 0 and the other is the distance.
#[tactic(auto, using(crate::proofs::AddingUp::distancing))]
pub(crate) fn distances(a: u64, b: u64, w: Width) -> u64
    ensures { result ≡ distances w.bits a b }
{
    total(subtract_unsigned(a, b, w) | subtract_unsigned(b, a, w), w)
}
