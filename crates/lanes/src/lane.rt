// The lanes' widths, and registers by what stands in every lane.
ghost use Rattle.std.specs.Prelude.{◌≡◌, ◌+◌, ◌-◌, ◌^◌, ◌<◌, ◌≤◌};
ghost use Rattle.lanes.specs.Lane.{register, top_bit};
ghost use Rattle.lanes.specs.inner.Widths.{Fills};
ghost use Rattle.lanes.specs.inner.EveryLane.{repeated, lowest_bits, rests, range_end};

// A lane's width in bits. Its lanes fill a register.
#[derive(Clone, Copy, PartialEq, Eq)]
pub(crate) struct Width {
    pub(crate) bits: u64,
    ghost fills: { Fills bits },
}

// A doubleword is half a register, a quadword a whole one.
pub(crate) const BYTE: Width = Width { bits: 8 };

pub(crate) const WORD: Width = Width { bits: 16 };

pub(crate) const DOUBLEWORD: Width = Width { bits: 32 };

pub(crate) const QUADWORD: Width = Width { bits: 64 };

// How many words a register holds.
pub(crate) const WORDS: u64 = 4;

// How many numbers lanes of 16 and of 32 bits hold.
pub(crate) const WORD_RANGE: u64 = 0x1_0000;

pub(crate) const DOUBLEWORD_RANGE: u64 = 0x1_0000_0000;

impl Width {
    // Lanes of twice the width.
    pub(crate) fn doubled(self) -> Width
        requires { Fills (self.bits + self.bits) }
        ensures { result.bits ≡ self.bits + self.bits }
    {
        Width {
            bits: self.bits + self.bits,
        }
    }

    // What a lane's top bit weighs.
    pub(crate) fn half(self) -> u64
        ensures { (result ≡ 2 ^ (self.bits - 1)) × (result + result ≡ 2 ^ self.bits) × (1 ≤ result) × (result ≤ 2 ^ 63) }
    {
        1 << (self.bits - 1)
    }

    // A lane of ones.
    pub(crate) fn ones(self) -> u64
        ensures { (result ≡ 2 ^ self.bits - 1) × (result < 2 ^ self.bits) }
    {
        let h = self.half();
        h + (h - 1)
    }

    // The lowest bit of every lane: all ones, divided by a lane's ones.
    #[tactic(auto, using(crate::proofs::LowestBits::lowest))]
    pub(crate) fn lowest_bits(self) -> u64
        ensures { result ≡ lowest_bits self.bits }
    {
        u64::MAX / self.ones()
    }

    // x in every lane.
    #[tactic(auto, using(crate::proofs::Repeating::repeating))]
    pub(crate) fn repeated(self, x: u64) -> u64
        requires { x < 2 ^ self.bits }
        ensures { result ≡ repeated self.bits x }
    {
        self.lowest_bits() * x
    }

    // All bits of every lane but its top bit.
    #[tactic(auto, using(crate::proofs::Repeating::repeating))]
    pub(crate) fn rests(self) -> u64
        ensures { result ≡ rests self.bits }
    {
        self.repeated(self.half() - 1)
    }

    // The lanes' top bits, each at the low end of its lane.
    #[tactic(auto, using(crate::proofs::Signs::signing))]
    pub(crate) fn signs(self, x: u64) -> u64
        ensures { result ≡ register self.bits (top_bit self.bits x) }
    {
        (x >> (self.bits - 1)) & self.lowest_bits()
    }

    // The ends of the signed range, in every lane the one on its side: the greatest number, or, where the top bit is set, 1 more, which is the least.
    #[tactic(auto, using(crate::proofs::Ends::ending))]
    pub(crate) fn ends(self, x: u64) -> u64
        ensures { result ≡ register self.bits (range_end self.bits x) }
    {
        self.signs(x) + self.rests()
    }
}
