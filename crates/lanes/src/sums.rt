// PADD and PSUB: the plain ones wrap in their lane, S and US forms clamp.
ghost use Rattle.std.specs.Prelude.{◌≡◌};
ghost use Rattle.lanes.specs.Rules.{packed, pairwise, sum, difference, sum_signed, difference_signed, sum_unsigned, difference_unsigned};

use crate::compares::negatives;
use crate::lane::Width;

// All lanes at once. The lanes' lowest bits, one bit down, are the top bits of all lanes but the highest. a ^ a_tops is a without them, so nothing is
// carried into another lane. Exclusive or then adds them to what was carried into their places, and drops what they carry. What the highest lane
// carries leaves the register.
#[tactic(auto, using(crate::proofs::AddingAtOnce::adding_at_once))]
pub(crate) fn add(a: u64, b: u64, w: Width) -> u64
    ensures { result ≡ packed (pairwise sum) w.bits a b }
{
    let inner_tops = w.lowest_bits() >> 1;
    let a_tops = a & inner_tops;
    let b_tops = b & inner_tops;
    std::num::wrapping_add_u64(a ^ a_tops, b ^ b_tops) ^ a_tops ^ b_tops
}

// A sum with another sign than both its numbers has gone beyond the end of the range on their side.
#[tactic(auto, using(crate::proofs::AddingSigned::adding_signed))]
pub(crate) fn add_signed(a: u64, b: u64, w: Width) -> u64
    ensures { result ≡ packed (pairwise sum_signed) w.bits a b }
{
    let sum = add(a, b, w);
    let over = negatives((a ^ sum) & (b ^ sum), w);
    sum ^ ((sum ^ w.ends(a)) & over)
}

// A sum has gone beyond the range where both top bits are set, or one of them and not the sum's; there all bits are set.
#[tactic(auto, using(crate::proofs::AddingUnsigned::adding_unsigned))]
pub(crate) fn add_unsigned(a: u64, b: u64, w: Width) -> u64
    ensures { result ≡ packed (pairwise sum_unsigned) w.bits a b }
{
    let sum = add(a, b, w);
    sum | negatives((a & b) | ((a | b) & !sum), w)
}

// Each subtraction is its addition from the other side: a - b is not (not a + b), clamped or not. They are three: a function that takes the addition as
// a closure would have to be told by a contract what each addition leaves.

#[tactic(auto, using(crate::proofs::Complementing::complementing))]
pub(crate) fn subtract(a: u64, b: u64, w: Width) -> u64
    ensures { result ≡ packed (pairwise difference) w.bits a b }
{
    !add(!a, b, w)
}

#[tactic(auto, using(crate::proofs::Complementing::complementing))]
pub(crate) fn subtract_signed(a: u64, b: u64, w: Width) -> u64
    ensures { result ≡ packed (pairwise difference_signed) w.bits a b }
{
    !add_signed(!a, b, w)
}

#[tactic(auto, using(crate::proofs::Complementing::complementing))]
pub(crate) fn subtract_unsigned(a: u64, b: u64, w: Width) -> u64
    ensures { result ≡ packed (pairwise difference_unsigned) w.bits a b }
{
    !add_unsigned(!a, b, w)
}
