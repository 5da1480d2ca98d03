// The machine that every case starts from.
use machine::Machine;
use manual::Marks;

// The bits of the marks, as a page file has them.
const EM: u8 = 1;

const TS: u8 = 2;

const PENDING: u8 = 4;

const VALID: u8 = 8;

const ZERO: u8 = 16;

pub(crate) fn marks_of(bits: u8) -> Marks {
    Marks {
        valid: bits & VALID != 0,
        zero: bits & ZERO != 0,
        em: bits & EM != 0,
        ts: bits & TS != 0,
        pending: bits & PENDING != 0,
    }
}

// No mark is set; MM0 is 255, MM1 2, EAX 0, ECX 128, ESP and EBP are 4, EDI 16.
pub(crate) fn usual_machine() -> Machine {
    Machine {
        mmx: [0xff, 2, 3, 4, 5, 6, 7, 8],
        integers: [0, 128, 0, 0, 4, 4, 0, 16],
        marks: marks_of(0),
    }
}
