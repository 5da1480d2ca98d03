// Likely code: instructions of the table and siblings, with operands that may lie in the memory, and as often those of loops.
ghost use Rattle.std.specs.Prelude.{◌≤◌, ◌<◌, length};

use crate::dice::Dice;
use crate::draft::Draft;

// The first byte of every opcode of the table, and the second bytes.
const ESCAPE: u8 = 0x0f;

const SECOND_BYTES: [u8; 68] = [
    0x60, 0x61, 0x62, 0x63, 0x67, 0x6b, 0x64, 0x65, 0x66, 0x68, 0x69, 0x6a, 0x6e, 0x7e, 0x6f, 0x7f,
    0x71, 0x72, 0x73, 0x74, 0x75, 0x76, 0x77, 0xd1, 0xd2, 0xd3, 0xe1, 0xe2, 0xf1, 0xf2, 0xf3, 0xd5,
    0xe5, 0xf5, 0xd8, 0xd9, 0xdc, 0xdd, 0xe8, 0xe9, 0xec, 0xed, 0xdb, 0xdf, 0xeb, 0xef, 0xf8, 0xf9,
    0xfa, 0xfc, 0xfd, 0xfe, 0xf7, 0xe7, 0xe0, 0xe3, 0xc5, 0xc4, 0xee, 0xde, 0xea, 0xda, 0xd7, 0xe4,
    0x18, 0xf6, 0x70, 0xae,
];

// The second byte of siblings, their suffixes, and one of how many instructions that are not of loops is a sibling.
const SIBLING: u8 = 0x0f;

const SUFFIX_BYTES: [u8; 6] = [0x0c, 0x1c, 0xa0, 0xa4, 0xbb, 0xbf];

const BESIDE: usize = 4;

// A ModRM byte is this times its mode and more, and its rm is what is left over of this.
const MODE: u8 = 64;

const RM: u8 = 8;

// The ModRM bytes from here on have mode 11, and below it this rm asks for an SIB byte.
const REGISTERS: u8 = 0xc0;

const SIB: u8 = 4;

// The first bytes of loops. A move and a decrement name a register in their low bits, an add in a ModRM byte of mode 11.
const MOVE: u8 = 0xb8;

const ADD: u8 = 0x83;

const DECREMENT: u8 = 0x48;

const JUMP: u8 = 0x75;

// The bytes of a move's number, how many registers there are, and how many sorts of instructions.
const NUMBER_BYTES: usize = 4;

const NUMBERED: usize = 8;

const SORTS: usize = 4;

// The byte of a jump to the decrement before it, how much less it is for each instruction more that the jump leads back over, and how many there are.
const TO_DECREMENT: u8 = 0xfd;

const FURTHER: u8 = 3;

const DISTANCES: usize = 4;

// Mostly one of a list.
fn one_of(dice: &mut Dice, likely: &[u8]) -> u8
    requires { 0 < length likely.now }
{
    dice.mostly(|dice| likely[dice.roll(likely.len())])
}

// The bytes of the displacement that a ModRM byte asks for by its mode.
fn displacement_bytes(modrm: u8) -> usize
    ensures { result ≤ 4 }
{
    match modrm / MODE {
        1 => 1,
        2 => 4,
        _ => 0,
    }
}

// How many bytes follow a ModRM byte, where an SIB byte names a base.
fn following(modrm: u8) -> usize {
    let sib = modrm < REGISTERS && modrm % RM == SIB;
    displacement_bytes(modrm) + usize::from(sib)
}

impl Draft {
    // A ModRM byte and what it asks for, with small numbers.
    fn put_operand(&mut self) {
        let modrm = self.dice.byte();
        self.put(modrm);
        self.put_small(following(modrm));
    }

    // An instruction of loops; a jump has a decrement before it, and leads mostly back, over no instruction or a few.
    fn put_of_loops(&mut self) {
        let register = self.dice.roll(NUMBERED) as u8;
        match self.dice.roll(SORTS) {
            0 => {
                self.put(MOVE + register);
                self.put_small(NUMBER_BYTES);
            }
            1 => {
                let number = self.dice.byte();
                self.put_all(&[ADD, REGISTERS + register, number]);
            }
            2 => self.put(DECREMENT + register),
            _ => {
                let distance = self
                    .dice
                    .mostly(|dice| TO_DECREMENT - FURTHER * dice.roll(DISTANCES) as u8);
                self.put_all(&[DECREMENT + register, JUMP, distance]);
            }
        }
    }

    // An instruction of the table: its first byte is mostly 0F.
    fn put_listed(&mut self) {
        let first = self.dice.mostly(|_| ESCAPE);
        let second = one_of(&mut self.dice, &SECOND_BYTES);
        self.put_all(&[first, second]);
        self.put_operand();
    }

    fn put_sibling(&mut self) {
        self.put_all(&[ESCAPE, SIBLING]);
        self.put_operand();
        let suffix = one_of(&mut self.dice, &SUFFIX_BYTES);
        self.put(suffix);
    }

    // A likely instruction.
    pub(crate) fn put_instruction(&mut self) {
        if self.dice.is_one_in(2) {
            self.put_of_loops();
        } else if self.dice.is_one_in(BESIDE) {
            self.put_sibling();
        } else {
            self.put_listed();
        }
    }
}
