// Whether two footprints meet: by a place that one writes and the other reads or writes, or by their kinds.
ghost use Rattle.std.specs.Prelude.{◌≡◌};
ghost use Rattle.manual.specs.Kinds.{kinds_meet};
ghost use Rattle.machine.specs.Footprints.{overlap, share, meet};

use crate::{Footprint, Places};
use codec::Kind;

// Two ranges of bytes have one in common. No sum is formed, so nothing overflows.
#[tactic(auto, using(crate::proofs::laws::meetings::Rules::meet_rules))]
fn overlaps(start: usize, size: usize, other: usize, count: usize) -> bool
    ensures { result ≡ overlap start size other count }
{
    if size == 0 || count == 0 {
        false
    } else if start <= other {
        other - start < size
    } else {
        start - other < count
    }
}

// There is a place in both.
#[tactic(auto, using(crate::proofs::laws::meetings::Rules::meet_rules))]
fn shares(one: Places, other: Places) -> bool
    ensures { result ≡ share one other }
{
    one.mmx & other.mmx != 0
        || one.integers & other.integers != 0
        || overlaps(one.start, one.length, other.start, other.length)
        || one.zero && other.zero
}

// EMMS meets every instruction but the silent ones, which meet none.
pub fn kinds_meet(one: Kind, other: Kind) -> bool
    ensures { result ≡ kinds_meet one other }
{
    match (one, other) {
        (Kind::Silent, _) | (_, Kind::Silent) => false,
        (Kind::Emms, _) | (_, Kind::Emms) => true,
        _ => false,
    }
}

// Whether two instructions meet, by their footprints.
#[tactic(auto, using(crate::proofs::laws::meetings::Rules::meet_rules))]
pub fn meets(first: Footprint, second: Footprint) -> bool
    ensures { result ≡ meet first second }
{
    kinds_meet(first.kind, second.kind)
        || shares(first.writes, second.reads)
        || shares(first.writes, second.writes)
        || shares(first.reads, second.writes)
}
