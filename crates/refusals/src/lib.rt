// The refusals, each by the paper's number.
#![tactic(auto)]

ghost use Rattle.std.specs.Prelude.{◌≡◌};
ghost use Rattle.refusals.specs.Numbers.{number_of};

#[derive(Clone, Copy, PartialEq, Eq, Debug)]
pub enum Refusal {
    // of a memory and of a code that are longer than allowed
    MemoryTooLong = 1,
    CodeTooLong = 2,
    // of reading
    CodeEnds = 3,
    Prefixed = 4,
    NotListed = 5,
    NotAllowed = 6,
    // of the control marks
    InvalidOpcode = 7,
    NotAvailable = 8,
    IsPending = 9,
    // of an operand in memory
    OutsideMemory = 10,
    // of writing
    NoBytes = 11,
    BufferEnds = 12,
    // of a page file
    Malformed = 13,
    // of an operand in memory by ESP or EBP, of a jump, of a floor, of a store below it, and of a half
    OutsideByStack = 14,
    JumpsOutside = 19,
    FloorTooHigh = 20,
    BelowFloor = 21,
    HalfUnsupported = 22,
    // of a studio's questions
    NumbersWrong = 29,
    BlockJumps = 30,
}

impl Refusal {
    // The paper's number.
    pub fn number(self) -> u8
        ensures { result ≡ number_of self }
    {
        self as u8
    }
}
