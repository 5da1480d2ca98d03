// The player's machine: its state, and what a step, a run and a footprint answer.
#![tactic(auto)]

mod addresses;
mod footprints;
mod gathering;
mod known;
mod loops;
mod meetings;
mod operands;
mod picking;
mod pointers;
mod quick;
mod reaches;
mod register_masks;
mod running;
mod shifts;
mod starting;
mod stepping;
mod ways;

use codec::Kind;
use manual::Marks;
pub use meetings::{kinds_meet, meets};

// The longest memory, in bytes.
pub const LONGEST_MEMORY: usize = 32768;

// The registers and marks. The memory is lent to each call beside them.
#[derive(Clone, Copy)]
pub struct Machine {
    // MM0 to MM7
    pub mmx: [u64; 8],
    // EAX ECX EDX EBX ESP EBP ESI EDI
    pub integers: [u32; 8],
    pub marks: Marks,
}

// What a step hands back: that it completed, or its refusal, by the number as a run has it; the position is that of the next instruction, or the one
// it was given.
#[derive(Clone, Copy)]
pub struct Stepped {
    pub answer: Result<(), u8>,
    pub machine: Machine,
    pub at: usize,
}

// How a run ended. A refusal is had by its number, since `printout::report` promises its text for every `Ran`.
#[derive(Clone, Copy, PartialEq, Eq, Debug)]
pub enum End {
    Done,
    Spent,
    Refused(u8),
}

// What a run hands back: the position reached, and the count of instructions completed.
#[derive(Clone, Copy)]
pub struct Ran {
    pub end: End,
    pub at: usize,
    pub count: u32,
    pub machine: Machine,
}

// Places: registers as masks, bit k for register k, memory bytes as a range (without bytes it starts at 0), and the zero mark.
#[derive(Clone, Copy, PartialEq, Eq, Debug)]
pub struct Places {
    pub mmx: u8,
    pub integers: u8,
    pub start: usize,
    pub length: usize,
    pub zero: bool,
}

// What a step reads and writes.
#[derive(Clone, Copy)]
pub struct Footprint {
    pub reads: Places,
    pub writes: Places,
    pub kind: Kind,
}
