// PMAX and PMIN, all lanes at once. Each is one expression, so that one function for two of them, with what differs as parameters, would be longer.
ghost use Rattle.std.specs.Prelude.{◌≡◌};
ghost use Rattle.lanes.specs.Rules.{packed, pairwise, maximum_signed, maximum_unsigned, minimum_signed, minimum_unsigned};

use crate::compares::exceeds;
use crate::lane::Width;
use crate::sums::subtract_unsigned;

// Where a's number is greater, what differs is turned over: in b for the greatest, in a for the least.

#[tactic(auto, using(crate::proofs::Ranking::ranking))]
pub(crate) fn greatest_signed(a: u64, b: u64, w: Width) -> u64
    ensures { result ≡ packed (pairwise maximum_signed) w.bits a b }
{
    b ^ ((b ^ a) & exceeds(a, b, w))
}

#[tactic(auto, using(crate::proofs::Ranking::ranking))]
pub(crate) fn least_signed(a: u64, b: u64, w: Width) -> u64
    ensures { result ≡ packed (pairwise minimum_signed) w.bits a b }
{
    a ^ ((a ^ b) & exceeds(a, b, w))
}

// What b has beyond a, added to a, is the greatest; what a has beyond b, taken from a, leaves the least.

#[tactic(auto, using(crate::proofs::Ranking::ranking))]
pub(crate) fn greatest_unsigned(a: u64, b: u64, w: Width) -> u64
    ensures { result ≡ packed (pairwise maximum_unsigned) w.bits a b }
{
    a + subtract_unsigned(b, a, w)
}

#[tactic(auto, using(crate::proofs::Ranking::ranking))]
pub(crate) fn least_unsigned(a: u64, b: u64, w: Width) -> u64
    ensures { result ≡ packed (pairwise minimum_unsigned) w.bits a b }
{
    a - subtract_unsigned(a, b, w)
}
