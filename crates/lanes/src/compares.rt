// PCMPEQ and PCMPGT, all lanes at once: all ones or all zeros.
ghost use Rattle.std.specs.Prelude.{◌≡◌};
ghost use Rattle.lanes.specs.Rules.{packed, pairwise, equal, greater};

use crate::lane::Width;

// Ones in the lanes below zero.
#[tactic(auto, using(crate::proofs::Signs::signing))]
pub(crate) fn negatives(x: u64, w: Width) -> u64
    ensures { result ≡ packed (pairwise greater) w.bits 0 x }
{
    w.signs(x) * w.ones()
}

// Where lanes are equal no bit differs; where they are not, the top bit does, or the rest of the bits that differ, with ones added, reaches it.
#[tactic(auto, using(crate::proofs::Comparing::comparing))]
pub(crate) fn equals(a: u64, b: u64, w: Width) -> u64
    ensures { result ≡ packed (pairwise equal) w.bits a b }
{
    let rests = w.rests();
    let differ = a ^ b;
    negatives(!(((differ & rests) + rests) | differ), w)
}

// A lane is greater where only the other is below zero, or where both have one sign and its rest, without the top bit, is beyond the other's.
#[tactic(auto, using(crate::proofs::Comparing::comparing))]
pub(crate) fn exceeds(a: u64, b: u64, w: Width) -> u64
    ensures { result ≡ packed (pairwise greater) w.bits a b }
{
    let rests = w.rests();
    let beyond = (a & rests) + (!b & rests);
    negatives((!a & b) | (!(a ^ b) & beyond), w)
}
