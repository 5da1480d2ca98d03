// A file in the making.
ghost use Rattle.std.specs.Prelude.{◌≤◌};
ghost use Rattle.hostile.specs.declared.TheConstants.{ROOM};

use crate::ROOM;
use crate::dice::Dice;

// Bytes are put into it one after another, by the roll of dice.
#[derive(Drop)]
pub(crate) struct Draft {
    pub(crate) bytes: [u8; ROOM],
    pub(crate) end: usize,
    pub(crate) dice: Dice,
    ghost within: { end ≤ ROOM },
}

impl Draft {
    pub(crate) fn new() -> Draft {
        Draft {
            bytes: [0; ROOM],
            end: 0,
            dice: Dice::new(),
        }
    }

    // The file as it is so far.
    pub(crate) fn file(&self) -> &[u8] {
        &self.bytes[..self.end]
    }

    // Puts a byte. Nothing is put behind the room's end.
    pub(crate) fn put(&mut self, byte: u8) {
        if self.end < ROOM {
            self.bytes[self.end] = byte;
            self.end += 1;
        }
    }

    pub(crate) fn put_all(&mut self, bytes: &[u8]) {
        for byte in bytes {
            self.put(*byte);
        }
    }

    // So many random bytes.
    pub(crate) fn put_random(&mut self, count: usize) {
        for _ in 0..count {
            let byte = self.dice.byte();
            self.put(byte);
        }
    }

    // A number below 256, in so many bytes.
    pub(crate) fn put_small(&mut self, count: usize) {
        let mut byte = self.dice.byte();
        for _ in 0..count {
            self.put(byte);
            byte = 0;
        }
    }
}
