// A fixed generator: every run rolls the same numbers.
ghost use Rattle.std.specs.Prelude.{◌<◌};

// How many bytes there are, and one in how many cases is rare.
const BYTES: usize = 256;

pub(crate) const RARITY: usize = 32;

#[derive(Drop)]
pub(crate) struct Dice(u64);

impl Dice {
    // What it starts from.
    pub(crate) fn new() -> Dice {
        Dice(0x0123_4567_89ab_cdef)
    }

    // A number below a number of sides.
    pub(crate) fn roll(&mut self, sides: usize) -> usize
        requires { 0 < sides }
        ensures { result < sides }
    {
        self.0 ^= self.0 << 13;
        self.0 ^= self.0 >> 7;
        self.0 ^= self.0 << 17;
        self.0 as usize % sides
    }

    // Any byte.
    pub(crate) fn byte(&mut self) -> u8 {
        self.roll(BYTES) as u8
    }

    // One case in so many.
    pub(crate) fn is_one_in(&mut self, cases: usize) -> bool
        requires { 0 < cases }
    {
        self.roll(cases) == 0
    }

    // Mostly a likely byte, and now and then any.
    pub(crate) fn mostly<F: FnOnce(&mut Dice) -> u8>(&mut self, likely: F) -> u8
        requires { F.IsAlwaysCallable likely }
    {
        if self.is_one_in(RARITY) {
            self.byte()
        } else {
            likely(self)
        }
    }
}
