// Tables of cases. A line is a case: its title, a colon, the bytes of its code, and numbers, each behind its letter. All digits are hexadecimal.
use crate::cases::{Form, Given, play};
use crate::machines::{marks_of, usual_machine};
use std::io;
use std::io::Write;

// Room for the longest code and the longest memory of a case.
const CODE_ROOM: usize = 5000;

const MEMORY_ROOM: usize = machine::LONGEST_MEMORY + 1;

// The bytes of a short memory, which is the usual one of a run and of a step; and those of the usual memory of a footprint and of a meeting.
const QUADWORD: usize = 8;

const FOOTPRINT_MEMORY: usize = 512;

const USUAL_BUDGET: u32 = 4096;

const HEXADECIMAL: u32 = 16;

// A case as far as its line is read.
#[derive(Drop)]
struct Case {
    given: Given,
    // how many bytes the memory has: up to eight are 1, 2, 3 and so on; more are zeros
    memory: usize,
    // how many bytes the code has at least: behind those that are given stand zeros
    length: usize,
    code: [u8; CODE_ROOM],
    // where the next byte of the code stands
    place: usize,
}

// What a case is given, unless its line says otherwise.
pub(crate) fn usual_given() -> Given {
    Given {
        machine: usual_machine(),
        at: 0,
        floor: 0,
        budget: USUAL_BUDGET,
    }
}

fn digit_of(byte: u8) -> u8 {
    char::from(byte).to_digit(HEXADECIMAL).unwrap_or(0) as u8
}

// A number that a line gives; what is none is 0.
fn number(digits: &str) -> usize {
    usize::from_str_radix(digits, HEXADECIMAL).unwrap_or(0)
}

impl Case {
    fn new(form: Form) -> Case {
        Case {
            given: usual_given(),
            memory: match form {
                Form::Run(_) | Form::Step(_) => QUADWORD,
                Form::Footprint | Form::Meeting => FOOTPRINT_MEMORY,
            },
            length: 0,
            code: [0; CODE_ROOM],
            place: 0,
        }
    }

    // A word of the line: a number behind its letter, or bytes of the code. MM0, EAX and the marks are as a page file has them.
    fn take(&mut self, word: &str) {
        match word.split_at_checked(1) {
            Some(("Q", digits)) => self.given.machine.mmx[0] = number(digits) as u64,
            Some(("A", digits)) => {
                self.given.machine.integers[0] = u32::try_from(number(digits)).unwrap_or(0)
            }
            Some(("M", digits)) => {
                let bits = u8::try_from(number(digits)).unwrap_or(0);
                self.given.machine.marks = marks_of(bits);
            }
            Some(("B", digits)) => self.given.budget = u32::try_from(number(digits)).unwrap_or(0),
            Some(("F", digits)) => self.given.floor = number(digits),
            Some(("N", digits)) => self.memory = number(digits),
            Some(("L", digits)) => self.length = number(digits),
            Some(("P", digits)) => self.place = number(digits),
            _ => self.take_code(word),
        }
    }

    // A slash says that the step or the footprint is that at the next byte.
    fn take_code(&mut self, word: &str) {
        match word.split_once('/') {
            Some((before, behind)) => {
                self.take_bytes(before);
                self.given.at = self.place;
                self.take_bytes(behind);
            }
            None => self.take_bytes(word),
        }
    }

    fn take_bytes(&mut self, digits: &str) {
        for byte in digits.as_bytes().chunks_exact(2) {
            if let [high, low] = byte
                && self.place < CODE_ROOM
            {
                self.code[self.place] = digit_of(*high) << 4 | digit_of(*low);
                self.place += 1;
            }
        }
    }

    // What is done with the case, in its memory.
    fn play(&self, out: &mut impl Write, form: Form) -> io::Result<()> {
        let length = self.length.max(self.place).min(CODE_ROOM);
        let code = &self.code[..length];
        if self.memory <= QUADWORD {
            let mut memory = [1, 2, 3, 4, 5, 6, 7, 8];
            play(out, form, self.given, code, &mut memory[..self.memory])
        } else {
            let mut memory = [0; MEMORY_ROOM];
            let size = self.memory.min(MEMORY_ROOM);
            play(out, form, self.given, code, &mut memory[..size])
        }
    }
}

// The cases of a table, a line each.
pub(crate) fn play_all(out: &mut impl Write, form: Form, lines: &[&str]) -> io::Result<()> {
    for line in lines {
        if let Some((title, words)) = line.split_once(": ") {
            let mut case = Case::new(form);
            for word in words.split(' ') {
                case.take(word);
            }
            write!(out, "{title}: ")?;
            case.play(out, form)?;
            write!(out, "\n")?;
        }
    }
    Ok(())
}
