// The machine that a page starts from.
ghost use Rattle.std.specs.Prelude.{◌≡◌, ◌^◌, ◌≤◌, ◌<◌};
ghost use Rattle.machine.specs.Starts.{nth, start_of};

use crate::Machine;
use manual::Marks;
use std::array;

// The bytes of an MMX register and of an integer register.
const QUADWORD_BYTES: usize = 8;

const DOUBLEWORD_BYTES: usize = 4;

// The bits of the marks byte of a page.
const EM: u8 = 1;

const TS: u8 = 2;

const PENDING: u8 = 4;

const VALID: u8 = 8;

const ZERO: u8 = 16;

// The k-th number of so many bytes in a field.
fn nth(field: &[u8], size: usize, k: usize) -> u64
    requires { (size ≤ 8) × (k < 8) }
    ensures is { result ≡ nth field.now size k }
    ensures below { result < 256 ^ size }
{
    words::load(field, size * k, size)
}

impl Machine {
    // Registers from the contents of a page's fields, marks from its marks byte; an empty field is all zero.
    #[tactic(auto, unfolding(crate::specs::Starts::start_of))]
    pub fn from_page(mmx: &[u8], integers: &[u8], marks: u8) -> Machine
        ensures { result ≡ start_of mmx.now integers.now marks }
    {
        Machine {
            mmx: array::from_fn(|k| nth(mmx, QUADWORD_BYTES, k)),
            integers: array::from_fn(|k| nth(integers, DOUBLEWORD_BYTES, k) as u32),
            marks: Marks {
                valid: marks / VALID % 2 == 1,
                zero: marks / ZERO % 2 == 1,
                em: marks / EM % 2 == 1,
                ts: marks / TS % 2 == 1,
                pending: marks / PENDING % 2 == 1,
            },
        }
    }
}
