// How many characters the text has.
ghost use Rattle.std.specs.Prelude.{◌≡◌, ◌≤◌, leb, length};
ghost use Rattle.printout.specs.Lines.{answer};
ghost use Rattle.printout.specs.inner.Room.{report_length};

use crate::put::decimal_places;
use machine::{End, LONGEST_MEMORY, Ran};

// The characters of `done`, `spent` and `refused `, and of a line end.
const DONE: usize = 4;

const SPENT: usize = 5;

pub(crate) const REFUSED: usize = 8;

pub(crate) const LINE_END: usize = 1;

// The characters beside the numbers of the first line (` `, ` at ` and its end), and of the memory's heading (`memory ` and its end).
const FIRST_LINE: usize = 6;

const MEMORY_LINE: usize = 8;

// How many registers there are of each kind, the characters of a name with the space after it, and the hex digits.
pub(crate) const REGISTERS: usize = 8;

pub(crate) const NAME: usize = 4;

pub(crate) const MMX_DIGITS: usize = 16;

pub(crate) const INTEGER_DIGITS: usize = 8;

// The characters of all lines of the registers, and of the lines of the tags and of the zero mark.
const MMX_LINES: usize = REGISTERS * (NAME + MMX_DIGITS + LINE_END);

const INTEGER_LINES: usize = REGISTERS * (NAME + INTEGER_DIGITS + LINE_END);

const TAGS_LINE: usize = 11;

const ZERO_LINE: usize = 7;

// The hex digits of a byte of the memory, and its characters with the one after it.
pub(crate) const BYTE_DIGITS: usize = 2;

const BYTE: usize = BYTE_DIGITS + 1;

// The digits of the longest refusal, of the largest number, and of the longest memory's length.
const REFUSAL_DIGITS: usize = 3;

const NUMBER_DIGITS: usize = 20;

const MEMORY_DIGITS: usize = 5;

// The characters of a report where all numbers are longest, without the memory's bytes.
const HEADINGS: usize = REFUSED
    + REFUSAL_DIGITS
    + 2 * NUMBER_DIGITS
    + FIRST_LINE
    + MMX_LINES
    + INTEGER_LINES
    + TAGS_LINE
    + ZERO_LINE
    + MEMORY_DIGITS
    + MEMORY_LINE;

// The characters of the longest report of a memory that the machine takes.
pub const LONGEST_REPORT: usize = HEADINGS + BYTE * LONGEST_MEMORY;

// How many characters the answer has.
#[tactic(auto, using(crate::proofs::Rooms::counting))]
fn answer_length(ending: End) -> usize
    ensures { (result ≡ length (answer ending)) × (result ≤ 28) }
{
    match ending {
        End::Done => DONE,
        End::Spent => SPENT,
        End::Refused(number) => REFUSED + decimal_places(u64::from(number)),
    }
}

// Whether a buffer is as long as the report.
#[tactic(auto, using(crate::proofs::Rooms::counting))]
pub(crate) fn has_room(buffer: usize, ran: Ran, memory: usize) -> bool
    ensures { result ≡ leb (report_length ran.end ran.count ran.at memory) buffer }
{
    let numbers = answer_length(ran.end)
        + decimal_places(u64::from(ran.count))
        + decimal_places(ran.at as u64)
        + decimal_places(memory as u64);
    let headings = numbers
        + FIRST_LINE
        + MMX_LINES
        + INTEGER_LINES
        + TAGS_LINE
        + ZERO_LINE
        + MEMORY_LINE;
    headings <= buffer && memory <= (buffer - headings) / BYTE
}
