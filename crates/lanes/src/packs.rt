// PACK and PUNPCK, all lanes at once.
ghost use Rattle.std.specs.Prelude.{◌≡◌, ◌⊎◌, ℕ, ℤ};
ghost use Rattle.lanes.specs.Rules.{packed, pack, unpack_low, unpack_high};
ghost use Rattle.lanes.specs.Signed.{clamp_signed, clamp_unsigned};
ghost use Rattle.lanes.specs.inner.Widths.{Narrow};
ghost use Rattle.lanes.specs.inner.Turns.{swapped, part, in_turn};

use crate::compares::{equals, negatives};
use crate::lane::{BYTE, DOUBLEWORD, DOUBLEWORD_RANGE, WORD, Width};

// `Narrow` is asked for in the contracts here and is no type: one for two of the four widths would have to become a `Width` at every call below.

// Of every four lanes the middle two change places: what differs between them is turned over in both.
#[tactic(auto, using(crate::proofs::Exchanging::exchanging))]
fn exchange(x: u64, w: Width) -> u64
    requires { Narrow w.bits }
    ensures { result ≡ packed swapped w.bits x x }
{
    let second = w.doubled().doubled().repeated(w.ones() << w.bits);
    let differ = (x ^ (x >> w.bits)) & second;
    x ^ differ ^ (differ << w.bits)
}

// What an unpack at 32 bits leaves, unpacked: of every four lanes of half the width two of the one register stand before two of the other, and the
// middle two change places.
#[tactic(auto, using(crate::proofs::Unpacking::unpacking))]
fn put_in_turn(x: u64, w: Width) -> u64
    requires { Narrow w.bits ⊎ (w.bits ≡ 32) }
    ensures low { (a b : ℕ) → x ≡ packed unpack_low 32 a b → result ≡ packed unpack_low w.bits a b }
    ensures high { (a b : ℕ) → x ≡ packed unpack_high 32 a b → result ≡ packed unpack_high w.bits a b }
{
    match w {
        BYTE => exchange(exchange(x, WORD), BYTE),
        WORD => exchange(x, WORD),
        _ => x,
    }
}

// At 32 bits an unpack puts two halves side by side.

#[tactic(auto, using(crate::proofs::Unpacking::unpacking))]
pub(crate) fn unpack_low(a: u64, b: u64, w: Width) -> u64
    requires { Narrow w.bits ⊎ (w.bits ≡ 32) }
    ensures { result ≡ packed unpack_low w.bits a b }
{
    put_in_turn((b << DOUBLEWORD.bits) + a % DOUBLEWORD_RANGE, w)
}

#[tactic(auto, using(crate::proofs::Unpacking::unpacking))]
pub(crate) fn unpack_high(a: u64, b: u64, w: Width) -> u64
    requires { Narrow w.bits ⊎ (w.bits ≡ 32) }
    ensures { result ≡ packed unpack_high w.bits a b }
{
    put_in_turn(
        b / DOUBLEWORD_RANGE * DOUBLEWORD_RANGE + a / DOUBLEWORD_RANGE,
        w,
    )
}

// The low parts and the high parts of both registers' lanes of twice the width, in turn: a's high parts and b's low parts change places.
#[tactic(auto, using(crate::proofs::Parting::parting))]
fn parts(a: u64, b: u64, w: Width) -> (u64, u64)
    requires { Narrow w.bits }
    ensures low { result.0 ≡ packed (part 0) w.bits a b }
    ensures high { result.1 ≡ packed (part 1) w.bits a b }
{
    let differ = (b ^ (a >> w.bits)) & w.doubled().repeated(w.ones());
    (a ^ (differ << w.bits), b ^ differ)
}

// A number of both parts fits where the high part is no more than the low part's sign. Else the range's end on the number's side is nearest.
#[tactic(auto, using(crate::proofs::InTurn::in_turns))]
fn clamp_signed(a: u64, b: u64, w: Width) -> u64
    requires { Narrow w.bits }
    ensures { result ≡ packed (in_turn clamp_signed) w.bits a b }
{
    let (low, high) = parts(a, b, w);
    let fits = equals(high, negatives(low, w), w);
    let ends = w.ends(high);
    ends ^ ((ends ^ low) & fits)
}

// A number of both parts fits where the high part is 0. Else it is beyond the range, or below zero.
#[tactic(auto, using(crate::proofs::InTurn::in_turns))]
fn clamp_unsigned(a: u64, b: u64, w: Width) -> u64
    requires { Narrow w.bits }
    ensures { result ≡ packed (in_turn clamp_unsigned) w.bits a b }
{
    let (low, high) = parts(a, b, w);
    (low | !equals(high, 0, w)) & !negatives(high, w)
}

// What stands in turn is put apart: even lanes go to the low half, odd lanes to the high half.
#[tactic(auto, using(crate::proofs::Packing::packing))]
fn put_apart(x: u64, w: Width) -> u64
    requires { Narrow w.bits }
    ensures { (clamped : ℕ → ℤ → ℤ) (a b : ℕ) → x ≡ packed (in_turn clamped) w.bits a b → result ≡ packed (pack clamped) w.bits a b }
{
    match w {
        BYTE => exchange(exchange(x, BYTE), WORD),
        _ => exchange(x, WORD),
    }
}

// One for each clamp: they differ in its call alone.

pub(crate) fn pack_signed(a: u64, b: u64, w: Width) -> u64
    requires { Narrow w.bits }
    ensures { result ≡ packed (pack clamp_signed) w.bits a b }
{
    put_apart(clamp_signed(a, b, w), w)
}

pub(crate) fn pack_unsigned(a: u64, b: u64, w: Width) -> u64
    requires { Narrow w.bits }
    ensures { result ≡ packed (pack clamp_unsigned) w.bits a b }
{
    put_apart(clamp_unsigned(a, b, w), w)
}
