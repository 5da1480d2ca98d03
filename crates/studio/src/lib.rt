// What a studio asks of a block: why two of its instructions cannot change places.
#![tactic(auto)]

mod going;
mod jumps;
mod meetings;
mod whys;

use machine::{End, Machine};
use refusals::Refusal;
pub use whys::why_not;

// A place that steps read and write: a register by its number, a memory byte by its address, or the zero mark. The order is that of the places.
#[derive(Clone, Copy, PartialEq, Eq, PartialOrd, Ord, Debug)]
pub enum Place {
    Mmx(u8),
    Integer(u8),
    Byte(usize),
    ZeroMark,
}

// How two instructions meet at a place: both write it; the earlier writes and the later reads it; the earlier reads and the later writes it.
#[derive(Clone, Copy, PartialEq, Eq, PartialOrd, Ord, Debug)]
pub enum Manner {
    BothWrite,
    WriteRead,
    ReadWrite,
}

// How two instructions meet: one is EMMS; or the lowest place where they meet, and how.
#[derive(Clone, Copy, PartialEq, Eq, PartialOrd, Ord, Debug)]
pub enum Meeting {
    Emms,
    At(Place, Manner),
}

// Why there is no answer: a refusal; or the run's own answer, where it is not done, with its position and its count.
#[derive(Clone, Copy)]
pub enum Unanswered {
    Refused(Refusal),
    NotDone(End, usize, u32),
}

// What is handed back: how the two meet, if they do, and the machine as the run leaves it, or where there was none as it was.
#[derive(Clone, Copy)]
pub struct Asked {
    pub why: Result<Option<Meeting>, Unanswered>,
    pub machine: Machine,
}
