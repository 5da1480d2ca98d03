// What PFMAX, PFCMPGT and PF2IW leave, which read a register as two single-precision numbers, and what PI2FW and PSWAPD leave.
#![tactic(auto)]

mod answers;
mod classes;
mod halves;
mod tables;
mod words;

ghost use Rattle.std.specs.Prelude.{◌≡◌};
ghost use Rattle.singles.specs.Siblings.{pf2iw, pi2fw, pswapd, pfcmpgt, pfmax};

use answers::both_of;
pub use classes::Class;
use classes::Halves;
pub use halves::Singles;
use halves::{high_half, joined, low_half};
use tables::{greater_of, maximum_of, word_of};
use words::single_of;

// PFMAX, of a destination and a source. It and `greater` differ in their table: one function that takes it as a closure would need clauses that say
// which halves the closure is called at and what it returns, and they are longer than these bodies.
#[tactic(auto, using(crate::proofs::Agreeing::pfmax_is))]
pub fn maximum(a: u64, b: u64) -> Option<u64>
    ensures { result ≡ pfmax a b }
{
    let x = Halves::of(a);
    let y = Halves::of(b);
    both_of(maximum_of(x.low, y.low), maximum_of(x.high, y.high))
}

// PFCMPGT, of a destination and a source.
#[tactic(auto, using(crate::proofs::Agreeing::pfcmpgt_is))]
pub fn greater(a: u64, b: u64) -> Option<u64>
    ensures { result ≡ pfcmpgt a b }
{
    let x = Halves::of(a);
    let y = Halves::of(b);
    both_of(greater_of(x.low, y.low), greater_of(x.high, y.high))
}

// PF2IW, of a source.
#[tactic(auto, using(crate::proofs::Agreeing::pf2iw_is))]
pub fn to_words(b: u64) -> Option<u64>
    ensures { result ≡ pf2iw b }
{
    let x = Halves::of(b);
    both_of(word_of(x.low), word_of(x.high))
}

// PI2FW, of a source.
#[tactic(auto, unfolding(crate::specs::Siblings::pi2fw))]
pub fn from_words(b: u64) -> u64
    ensures { result ≡ pi2fw b }
{
    joined(single_of(low_half(b)), single_of(high_half(b)))
}

// PSWAPD, of a source.
#[tactic(auto, unfolding(crate::specs::Siblings::pswapd))]
pub fn swapped(b: u64) -> u64
    ensures { result ≡ pswapd b }
{
    let low = low_half(b);
    let high = high_half(b);
    joined(high, low)
}
