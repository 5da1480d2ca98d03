// PAVG, all lanes at once.
ghost use Rattle.std.specs.Prelude.{◌≡◌};
ghost use Rattle.lanes.specs.Rules.{packed, pairwise, mean};

use crate::lane::Width;

// Two numbers are twice all their bits, less those that differ. So the mean is all bits, less half of those that differ; what that shift moves into
// another lane is left out.
#[tactic(auto, using(crate::proofs::Averaging::averaging))]
pub(crate) fn average(a: u64, b: u64, w: Width) -> u64
    ensures { result ≡ packed (pairwise mean) w.bits a b }
{
    (a | b) - (((a ^ b) >> 1) & w.rests())
}
