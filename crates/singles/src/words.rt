// Single-precision numbers to signed words, and signed words to single-precision numbers.
ghost use Rattle.std.specs.Prelude.{◌≡◌};
ghost use Rattle.singles.specs.Tables.{single_of};
ghost use Rattle.singles.specs.inner.Numbers.{rounded};

use std::num::truncating_f32_to_i64;

// From the first on upward, and from the second on downward, a number is past the signed words.
const UPPER_END: f32 = 32768.0;

const LOWER_END: f32 = -32768.0;

// The greatest signed word and the least, sign-extended.
const GREATEST: u32 = 0x7FFF;

const LEAST: u32 = 0xFFFF_8000;

// How many values a word has.
const WORD_RANGE: u32 = 0x1_0000;

// A number rounded to zero, or past the signed words the nearest of them; sign-extended.
#[tactic(auto, using(crate::proofs::Rounding::rounding))]
pub(crate) fn rounded(number: f32) -> u32
    ensures { result ≡ rounded number }
{
    if number > LOWER_END {
        if number < UPPER_END {
            (truncating_f32_to_i64(number) as i32).cast_unsigned()
        } else {
            GREATEST
        }
    } else {
        LEAST
    }
}

// The low word of a half, signed, as a single-precision number.
#[tactic(auto, using(crate::proofs::Rounding::converting))]
pub(crate) fn single_of(half: u32) -> u32
    ensures { result ≡ single_of half }
{
    let word = (half % WORD_RANGE) as u16;
    f32::from(word.cast_signed()).to_bits()
}
