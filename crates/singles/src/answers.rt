// What is left of two halves.
ghost use Rattle.std.specs.Prelude.{◌≡◌};
ghost use Rattle.singles.specs.Siblings.{both};

use crate::halves::joined;

// The register that is left; or nothing, where a half is undefined.
#[tactic(auto, unfolding(crate::specs::Siblings::both))]
pub(crate) fn both_of(low: Option<u32>, high: Option<u32>) -> Option<u64>
    ensures { result ≡ both low high }
{
    Some(joined(low?, high?))
}
