// The lines of the text, put one after the other into a lent buffer.
ghost use Rattle.std.specs.Prelude.{◌≡◌, ◌++◌, length, map, cond};
ghost use Rattle.printout.specs.Characters.{newline, hex};
ghost use Rattle.printout.specs.Lines.{answer, first_line, register_lines, mmx_lines, integer_lines, tags_line, zero_line, memory_line, gap_after, byte_lines};
ghost use Rattle.printout.specs.inner.Room.{Fits, Puts};

use crate::count::{BYTE_DIGITS, INTEGER_DIGITS, MMX_DIGITS, NAME, REGISTERS};
use crate::put::Writer;
use machine::{End, Ran};

// How many bytes of the memory stand on a line.
const LINE: usize = 16;

// The names of the registers, each with the space behind it.
const MMX_NAMES: [&[u8; NAME]; REGISTERS] = [
    b"mm0 ", b"mm1 ", b"mm2 ", b"mm3 ", b"mm4 ", b"mm5 ", b"mm6 ", b"mm7 ",
];

const INTEGER_NAMES: [&[u8; NAME]; REGISTERS] = [
    b"eax ", b"ecx ", b"edx ", b"ebx ", b"esp ", b"ebp ", b"esi ", b"edi ",
];

// The integer registers as wider numbers.
fn widened(values: [u32; REGISTERS]) -> [u64; REGISTERS]
    ensures { result ≡ values }
{
    values.map(u64::from)
}

// What stands after a byte of the memory.
fn gap_after(index: usize, following: usize) -> u8
    ensures { result ≡ gap_after index following }
{
    if index % LINE == LINE - 1 || following == 0 {
        b'\n'
    } else {
        b' '
    }
}

#[tactic(auto, using(crate::proofs::Pieces::naming))]
impl Writer<'_> {
    // How a run ended.
    fn put_answer(&mut self, ending: End)
        requires { Fits (answer ending) self.old }
        ensures { Puts (answer ending) self.old self.new }
    {
        match ending {
            End::Done => self.put_word(b"done"),
            End::Spent => self.put_word(b"spent"),
            End::Refused(number) => self.put_number(b"refused ", u64::from(number)),
        }
    }

    // The first line.
    fn put_first_line(&mut self, ran: Ran)
        requires { Fits (first_line ran.end ran.count ran.at) self.old }
        ensures { Puts (first_line ran.end ran.count ran.at) self.old self.new }
    {
        self.put_answer(ran.end);
        self.put_number(b" ", ran.count as u64);
        self.put_number_line(b" at ", ran.at as u64);
    }

    // A register's line.
    fn put_register(&mut self, name: &[u8], value: u64, count: usize)
        requires { Fits (name.now ++ (hex count value ++ newline)) self.old }
        ensures { Puts (name.now ++ (hex count value ++ newline)) self.old self.new }
    {
        self.put_word(name);
        self.put_hex(value, count, b'\n');
    }

    // The lines of registers.
    #[tactic(auto, using(crate::proofs::Pieces::pieces))]
    fn put_registers(
        &mut self,
        names: &[&[u8; NAME]; REGISTERS],
        values: [u64; REGISTERS],
        count: usize,
    )
        requires { Fits (register_lines (map (λ name. name.now) names.now) count values) self.old }
        ensures { Puts (register_lines (map (λ name. name.now) names.now) count values) self.old self.new }
    {
        for (name, value) in names.iter().zip(&values) {
            self.put_register(*name, *value, count);
        }
    }

    // The line of a mark: of one that is set, or of one that is clear.
    fn put_mark(&mut self, mark: bool, set: &[u8], clear: &[u8])
        requires { Fits (cond mark set.now clear.now) self.old }
        ensures { Puts (cond mark set.now clear.now) self.old self.new }
    {
        self.put_word(if mark { set } else { clear });
    }

    // The lines of the tags and of the zero mark.
    #[tactic(auto, using(crate::proofs::Pieces::naming), unfolding(crate::specs::Lines::tags_line, crate::specs::Lines::zero_line))]
    fn put_marks(&mut self, valid: bool, zero: bool)
        requires { Fits (tags_line valid ++ zero_line zero) self.old }
        ensures { Puts (tags_line valid ++ zero_line zero) self.old self.new }
    {
        self.put_mark(valid, b"tags valid\n", b"tags empty\n");
        self.put_mark(zero, b"zero 1\n", b"zero 0\n");
    }

    // The lines of the memory's bytes.
    #[tactic(auto, using(crate::proofs::Pieces::pieces))]
    fn put_byte_lines(&mut self, memory: &[u8])
        requires { Fits (byte_lines 0 memory.now) self.old }
        ensures { Puts (byte_lines 0 memory.now) self.old self.new }
    {
        for (i, byte) in memory.iter().enumerate() {
            self.put_hex(
                *byte as u64,
                BYTE_DIGITS,
                gap_after(i, memory.len() - i - 1),
            );
        }
    }

    // The first line and the registers.
    pub(crate) fn put_top(&mut self, ran: Ran)
        requires { Fits (first_line ran.end ran.count ran.at ++ mmx_lines ran.machine.mmx ++ integer_lines ran.machine.integers) self.old }
        ensures { Puts (first_line ran.end ran.count ran.at ++ mmx_lines ran.machine.mmx ++ integer_lines ran.machine.integers) self.old self.new }
    {
        let machine = ran.machine;
        self.put_first_line(ran);
        self.put_registers(&MMX_NAMES, machine.mmx, MMX_DIGITS);
        self.put_registers(&INTEGER_NAMES, widened(machine.integers), INTEGER_DIGITS);
    }

    // The tags, the zero mark and the memory.
    pub(crate) fn put_bottom(&mut self, valid: bool, zero: bool, memory: &[u8])
        requires { Fits (tags_line valid ++ zero_line zero ++ memory_line (length memory.now) ++ byte_lines 0 memory.now) self.old }
        ensures { Puts (tags_line valid ++ zero_line zero ++ memory_line (length memory.now) ++ byte_lines 0 memory.now) self.old self.new }
    {
        self.put_marks(valid, zero);
        self.put_number_line(b"memory ", memory.len() as u64);
        self.put_byte_lines(memory);
    }
}
