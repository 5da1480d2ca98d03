// Three sorts of files: plain random bytes; right headings with random contents; and the same with likely code.
ghost use Rattle.std.specs.Prelude.{◌<◌, ◌≤◌};

use crate::ROOM;
use crate::dice::{Dice, RARITY};
use crate::draft::Draft;
use codec::LONGEST_CODE;
use machine::LONGEST_MEMORY;

// The tags of the five fields, and the bytes of those of a fixed length.
const CODE: u8 = 1;

const MEMORY: u8 = 2;

const MMX_REGISTERS: u8 = 3;

const INTEGER_REGISTERS: u8 = 4;

const MARKS: u8 = 5;

const REGISTERS: usize = 8;

const QUADWORD: usize = 8;

const DOUBLEWORD: usize = 4;

const MMX_BYTES: usize = QUADWORD * REGISTERS;

const INTEGER_BYTES: usize = DOUBLEWORD * REGISTERS;

// The halves of the MMX registers, and a byte of one that is no number.
const HALVES: usize = 2 * REGISTERS;

const ONES: u8 = 0xff;

// Most files and fields are shorter than this.
const SHORT: usize = 1024;

// The marks are below 32: one more is refused.
const MARK_SIDES: usize = 33;

// A likely code has fewer instructions than this.
const INSTRUCTIONS: usize = 12;

// A field's length: short, or now and then from a long one on.
fn some_length(dice: &mut Dice, long: usize) -> usize
    requires { (0 < long) × (long ≤ 32768) }
{
    if dice.is_one_in(RARITY) {
        long + dice.roll(long)
    } else {
        dice.roll(SHORT)
    }
}

impl Draft {
    // A tag and a length.
    fn put_heading(&mut self, tag: u8, count: usize) {
        let [low, high, ..] = count.to_le_bytes();
        self.put_all(&[tag, low, high]);
    }

    // A field of random contents.
    fn put_field(&mut self, tag: u8, count: usize) {
        self.put_heading(tag, count);
        self.put_random(count);
    }

    // The eight MMX registers by their halves, each random, or now and then no number; or no field.
    fn put_halves(&mut self) {
        if self.dice.is_one_in(2) {
            return;
        }
        self.put_heading(MMX_REGISTERS, MMX_BYTES);
        for _ in 0..HALVES {
            if self.dice.is_one_in(RARITY) {
                self.put_all(&[ONES; DOUBLEWORD]);
            } else {
                self.put_random(DOUBLEWORD);
            }
        }
    }

    // Marks, or no field.
    fn put_marks(&mut self) {
        if self.dice.is_one_in(2) {
            return;
        }
        self.put_heading(MARKS, 1);
        let marks = self.dice.roll(MARK_SIDES) as u8;
        self.put(marks);
    }

    // The eight integer registers, each a number that may be an address.
    fn put_integers(&mut self) {
        self.put_heading(INTEGER_REGISTERS, INTEGER_BYTES);
        for _ in 0..REGISTERS {
            self.put_small(DOUBLEWORD);
        }
    }

    // The field of a likely code, at the start of a file: its heading is known when its end is.
    fn put_likely_code(&mut self) {
        let count = self.dice.roll(INSTRUCTIONS);
        self.put_heading(CODE, 0);
        let start = self.end;
        for _ in 0..count {
            self.put_instruction();
        }
        let end = self.end;
        self.end = 0;
        self.put_heading(CODE, end.saturating_sub(start));
        self.end = end;
    }

    // Plain random bytes: few, or now and then more than a file may have.
    pub(crate) fn plain(&mut self) {
        self.end = 0;
        let count = if self.dice.is_one_in(RARITY) {
            ROOM
        } else {
            self.dice.roll(SHORT)
        };
        self.put_random(count);
    }

    // Right headings: any of the five fields, with random contents.
    pub(crate) fn headed(&mut self) {
        self.end = 0;
        let code = some_length(&mut self.dice, LONGEST_CODE);
        let memory = some_length(&mut self.dice, LONGEST_MEMORY);
        let fields = [
            (CODE, code),
            (MEMORY, memory),
            (MMX_REGISTERS, MMX_BYTES),
            (INTEGER_REGISTERS, INTEGER_BYTES),
        ];
        for (tag, count) in fields {
            if !self.dice.is_one_in(2) {
                self.put_field(tag, count);
            }
        }
        self.put_marks();
    }

    // Likely code, with a memory and small numbers in the integer registers.
    pub(crate) fn likely(&mut self) {
        self.end = 0;
        let memory = some_length(&mut self.dice, LONGEST_MEMORY);
        self.put_likely_code();
        self.put_field(MEMORY, memory);
        self.put_halves();
        self.put_integers();
        self.put_marks();
    }
}
