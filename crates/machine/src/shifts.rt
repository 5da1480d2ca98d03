// The operations of the shifts by an immediate, 71 to 73.
ghost use Rattle.std.specs.Prelude.{◌≡◌};
ghost use Rattle.lanes.specs.Operations.{operation_of};
ghost use Rattle.codec.specs.inner.Entries.{of_width, shift_of};

use codec::forms::{LEFT, RIGHT, RIGHT_SIGNED};
use lanes::{KEEP, PSLLD, PSLLQ, PSLLW, PSRAD, PSRAW, PSRLD, PSRLQ, PSRLW};

// The lanes' widths, as an entry of the table has them in one of its bytes.
const WORD_BITS: u8 = 16;

const DOUBLEWORD_BITS: u8 = 32;

const QUADWORD_BITS: u8 = 64;

// Of a word, doubleword and quadword operation, the one for the width.
#[tactic(auto, using(crate::proofs::laws::gathering::Shifting::shifting))]
fn of_width(lane: u8, word: u8, doubleword: u8, quadword: u8) -> u8
    ensures { operation_of result ≡ of_width lane (operation_of word) (operation_of doubleword) (operation_of quadword) }
{
    match lane {
        WORD_BITS => word,
        DOUBLEWORD_BITS => doubleword,
        QUADWORD_BITS => quadword,
        _ => KEEP,
    }
}

#[tactic(auto, using(crate::proofs::laws::gathering::Shifting::shifting))]
pub(crate) fn shift_number(lane: u8, digit: u8) -> u8
    ensures { operation_of result ≡ shift_of lane digit }
{
    match digit {
        RIGHT => of_width(lane, PSRLW, PSRLD, PSRLQ),
        RIGHT_SIGNED => of_width(lane, PSRAW, PSRAD, KEEP),
        LEFT => of_width(lane, PSLLW, PSLLD, PSLLQ),
        _ => KEEP,
    }
}
