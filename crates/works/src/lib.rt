// What remains to be done of an instruction, as plain numbers, and what does it; its tests, where a jump leads, the refusal of a miss, and what is left
// to do by a suffix.
#![tactic(auto)]

mod bars;
mod inside;
mod jumps;
mod misses;
mod performing;
mod siblings;
mod signs;

ghost use Rattle.std.specs.Prelude.{◌≡◌};
ghost use Rattle.works.specs.Works.{work_of, refused_work};

pub use bars::{barred, table};
pub use inside::is_inside;
pub use jumps::target_of;
pub use misses::miss_of;
pub use performing::{Moved, perform};
pub use siblings::{of_suffix, suffixed};
pub use signs::extended;

// The bytes of a doubleword and of a quadword.
pub const DOUBLEWORD: u8 = 4;

pub const QUADWORD: u8 = 8;

// How many values a doubleword has.
pub(crate) const DOUBLEWORD_RANGE: u64 = 0x100000000;

// What remains of an instruction: what to do, with a number (the operation, the bytes to store, or the refusal), a place (the register, or the
// address) and a value, and the position where the run goes on. What to do is a number, and no enum: `perform` promises by its clause `left_by` what
// every number leaves.
#[derive(Clone, Copy, PartialEq, Eq, Debug)]
pub struct Work {
    pub what: u8,
    pub number: u8,
    pub place: usize,
    pub value: u64,
    pub next: usize,
}

// The operation of that number on the MMX register of that place, with the value as its source.
pub const OPERATE: u8 = 0;

// So many bytes of the value to that address.
pub const STORE: u8 = 1;

// The value's low half to the integer register of that place.
pub const TO_INTEGER: u8 = 2;

// The tag mark empty.
pub const EMPTY: u8 = 3;

// Nothing, and it completes.
pub const PASS: u8 = 4;

// The value's low half to the integer register of that place; the tag mark stays.
pub const SET: u8 = 5;

// The same, and the zero mark says whether it is 0.
pub const COUNT: u8 = 6;

// Nothing: the refusal of that number.
pub const REFUSE: u8 = 7;

pub fn work_of(what: u8, number: u8, place: usize, value: u64, next: usize) -> Work
    ensures { result ≡ work_of what number place value next }
{
    Work {
        what,
        number,
        place,
        value,
        next,
    }
}

pub fn refused(refusal: u8) -> Work
    ensures { result ≡ refused_work refusal }
{
    work_of(REFUSE, refusal, 0, 0, 0)
}
