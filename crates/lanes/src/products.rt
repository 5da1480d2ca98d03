// PMULLW, PMULHW and PMADDWD: signed products of words; PMULHUW: unsigned ones.
ghost use Rattle.std.specs.Prelude.{◌≡◌, ℕ, ◌/◌, ◌^◌, ◌<◌};
ghost use Rattle.basis.specs.Names.{sub_ℕ};
ghost use Rattle.lanes.specs.Lane.{lane};
ghost use Rattle.lanes.specs.Signed.{signed};
ghost use Rattle.lanes.specs.Rules.{packed, pairwise, product, product_low, product_high, product_sum, product_high_unsigned};

use crate::lane::{DOUBLEWORD, DOUBLEWORD_RANGE, QUADWORD, WORD, WORD_RANGE, Width};

// The register whose lane i is what `lane_of` leaves of i.
fn lane_by_lane<F: Fn(u64) -> u64>(w: Width, lane_of: F) -> u64
    requires takes { (i : ℕ) → i < 64 / w.bits → F.pre lane_of i }
    requires fits { (i x : ℕ) → i < 64 / w.bits → F.post lane_of i x → x < 2 ^ w.bits }
    ensures { (i : ℕ) → i < 64 / w.bits → F.post lane_of i (lane w.bits i result) }
{
    let mut lanes: u64 = 0;
    for i in 0..QUADWORD.bits / w.bits {
        lanes += lane_of(i) << (w.bits * i);
    }
    lanes
}

// A word's place is a number below 4 in the contracts here and no type: it is counted by a loop, and a type would be made of it anew at each turn.

// The number of word i. With its top bit turned over, a word is its number plus half the range.
#[tactic(auto, using(crate::proofs::WordProducts::words))]
fn word_of(a: u64, i: u64) -> i64
    requires { i < 4 }
    ensures { result ≡ signed 16 (lane 16 i a) }
{
    ((a >> (WORD.bits * i)) % WORD_RANGE ^ (WORD_RANGE / 2)) as i64 - (WORD_RANGE / 2) as i64
}

// The signed product of word i of two registers, and 2^32, so that it is never below zero.
#[tactic(auto, using(crate::proofs::WordProducts::products))]
fn product_of(a: u64, b: u64, i: u64) -> u64
    requires { i < 4 }
    ensures { (product 16 (lane 16 i a) (lane 16 i b) ≡ sub_ℕ result (2 ^ 32)) × (result < 2 ^ 34) }
{
    (word_of(a, i) * word_of(b, i) + DOUBLEWORD_RANGE as i64) as u64
}

#[tactic(auto, using(crate::proofs::Multiplying::multiplying))]
pub(crate) fn multiply_low(a: u64, b: u64) -> u64
    ensures { result ≡ packed (pairwise product_low) 16 a b }
{
    lane_by_lane(
        WORD,
        |i|
            requires { i < 4 }
            ensures { result ≡ pairwise product_low 16 a b i }
        { product_of(a, b, i) % WORD_RANGE },
    )
}

#[tactic(auto, using(crate::proofs::Multiplying::multiplying))]
pub(crate) fn multiply_high(a: u64, b: u64) -> u64
    ensures { result ≡ packed (pairwise product_high) 16 a b }
{
    lane_by_lane(
        WORD,
        |i|
            requires { i < 4 }
            ensures { result ≡ pairwise product_high 16 a b i }
        { product_of(a, b, i) / WORD_RANGE % WORD_RANGE },
    )
}

// The products of words 2 i and 2 i + 1, added.
#[tactic(auto, using(crate::proofs::Multiplying::multiplying))]
pub(crate) fn multiply_add(a: u64, b: u64) -> u64
    ensures { result ≡ packed (pairwise product_sum) 32 a b }
{
    lane_by_lane(
        DOUBLEWORD,
        |i|
            requires { i < 2 }
            ensures { result ≡ pairwise product_sum 32 a b i }
        { (product_of(a, b, i + i) + product_of(a, b, i + i + 1)) % DOUBLEWORD_RANGE },
    )
}

#[tactic(auto, using(crate::proofs::Multiplying::multiplying))]
pub(crate) fn multiply_high_unsigned(a: u64, b: u64) -> u64
    ensures { result ≡ packed (pairwise product_high_unsigned) 16 a b }
{
    lane_by_lane(
        WORD,
        |i|
            requires { i < 4 }
            ensures { result ≡ pairwise product_high_unsigned 16 a b i }
        {
            ((a >> (WORD.bits * i)) % WORD_RANGE) * ((b >> (WORD.bits * i)) % WORD_RANGE)
                / WORD_RANGE
        },
    )
}
