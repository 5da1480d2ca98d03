// PEXTRW, PINSRW and PSHUFW, which go by the places of words; PMOVMSKB and MASKMOVQ, which go by the top bits of bytes.
ghost use Rattle.std.specs.Prelude.{◌≡◌, ◌+◌, ◌*◌, ◌/◌, ◌^◌, ◌<◌};
ghost use Rattle.lanes.specs.Rules.{packed, blend, extract, insert, top_bits, shuffle};

use crate::compares::negatives;
use crate::lane::{BYTE, DOUBLEWORD, WORD, WORD_RANGE, WORDS};

// 256 less 2: see `top_bits`.
const LESS_TWO: u64 = 254;

// The word at a place, counted round the four.
#[tactic(auto, unfolding(crate::specs::Rules::extract, crate::specs::Lane::lane))]
pub fn extract(source: u64, place: u64) -> u64
    ensures { result ≡ extract 16 source place }
{
    (source >> (WORD.bits * (place % WORDS))) % WORD_RANGE
}

// What differs between the word at the place and the new one is turned over.
pub fn insert(destination: u64, source: u64, place: u64) -> u64
    ensures { result ≡ packed (insert place) 16 destination source }
{
    let differ = extract(destination, place) ^ (source % WORD_RANGE);
    destination ^ (differ << (WORD.bits * (place % WORDS)))
}

// Two words by the two low digits of the order.
#[tactic(auto, using(crate::proofs::Picking::picking))]
fn two_words(source: u64, order: u64) -> u64
    ensures { (result ≡ extract 16 source (order / 4) * 2 ^ 16 + extract 16 source order) × (result < 2 ^ 32) }
{
    (extract(source, order / WORDS) << WORD.bits) + extract(source, order)
}

// Four words: two by the two digits above, and two by the low ones.
#[tactic(auto, using(crate::proofs::Picking::picking))]
pub fn shuffle(source: u64, order: u64) -> u64
    ensures { result ≡ packed shuffle 16 source order }
{
    (two_words(source, order / (WORDS * WORDS)) << DOUBLEWORD.bits) + two_words(source, order)
}

// A byte's place weighs 256 times the one below it, and 256 is 2 and 254: of seven bits 8 apart, the remainder at 254 is the seven side by side.
#[tactic(auto, using(crate::proofs::Picking::picking))]
pub fn top_bits(source: u64) -> u64
    ensures { result ≡ top_bits 8 source }
{
    let bits = BYTE.signs(source);
    (bits >> BYTE.bits) % LESS_TWO * 2 + bits % 2
}

// What differs between the two is turned over where the mask's top bit is set.
#[tactic(auto, using(crate::proofs::Picking::picking))]
pub fn blend(destination: u64, source: u64, mask: u64) -> u64
    ensures { result ≡ packed (blend mask) 8 destination source }
{
    destination ^ ((destination ^ source) & negatives(mask, BYTE))
}
