// The instruction at a position is read and its operands are gathered; what remains to be done is then plain numbers. Nothing is written here.
ghost use Rattle.std.specs.Prelude.{IfOk, ◌≡◌, ◌/◌, ◌^◌, ◌≤◌, length, get_or};
ghost use Rattle.reorder.specs.Result.{done};
ghost use Rattle.codec.specs.Table.{opcode_table};
ghost use Rattle.codec.specs.Reads.{longest_code};
ghost use Rattle.manual.specs.State.{longest_memory};
ghost use Rattle.machine.specs.inner.Picks.{picked_work};
ghost use Rattle.machine.specs.inner.Spots.{Named};
ghost use Rattle.works.specs.Bars.{number_in, open_table};
ghost use Rattle.works.specs.Answers.{work_in};
ghost use Rattle.works.specs.Siblings.{suffixed_work};
ghost use Rattle.works.specs.Works.{to_operate};
ghost use Rattle.machine.specs.inner.Works.{stopping_by, effect_in, put_work, value_in, Does, Gathered};

use crate::known::Known;
use crate::operands::Spot;
use crate::ways::Way;
use crate::{loops, operands, picking, quick, shifts, ways};
use codec::forms::{FORM, LANE, PART};
use codec::prefixes::ESCAPE;
use lanes::MOVE;
use refusals::Refusal;
use works::{EMPTY, OPERATE, PASS, STORE, TO_INTEGER, Work, refused, work_of};

// The refusal of the control marks, where they stop the form of an entry.
#[tactic(auto, using(crate::proofs::laws::gathering::Testing::testing))]
pub(crate) fn stopping(bar: Option<Refusal>, entry: u32) -> Option<Refusal>
    ensures { number_in result ≡ stopping_by (number_in bar) (entry / 2 ^ 24) }
{
    if ways::is_unstopped(entry / FORM) {
        None
    } else {
        bar
    }
}

// A value is put where the operand is: in memory so many bytes of it.
fn put(spot: Spot, value: u64, next: usize) -> Work
    ensures { result ≡ put_work (done spot) value next }
{
    match spot {
        Spot::Mmx(register) => work_of(OPERATE, MOVE, register as usize, value, next),
        Spot::Integer(register) => work_of(TO_INTEGER, 0, register as usize, value, next),
        Spot::Bytes(address, size) => work_of(STORE, size, address, value, next),
    }
}

// The number that an operand has.
fn held(mmx: &[u64; 8], integers: &[u32; 8], spot: Spot, memory: &[u8]) -> u64
    requires { Named spot }
    ensures { result ≡ value_in mmx.now integers.now memory.now spot }
{
    match spot {
        Spot::Mmx(register) => mmx[register as usize],
        Spot::Integer(register) => u64::from(integers[register as usize]),
        Spot::Bytes(address, size) => words::load(memory, address, size as usize),
    }
}

impl Known {
    ghost use Rattle.machine.specs.inner.Known.{HasOther, taken};

    // An operation on an MMX register, with the number that the operand has; a load's is MOVE. (This and what takes it further is cold, since what is
    // done at once comes first. `sorted`, which leads here, is not: when it was, SFENCE, with nothing to gather, took 250 instructions of the processor
    // and not 185.)
    #[cold]
    fn computed(self, mmx: &[u64; 8], integers: &[u32; 8], memory: &[u8]) -> Result<Work, Refusal>
        requires { HasOther self }
        ensures work { work_in result ≡ taken self mmx.now integers.now memory.now }
        ensures operates { IfOk result (λ work. work.what ≡ to_operate) }
    {
        let operand = self.instruction.operand;
        let number = (self.entry % PART) as u8;
        let register = operand.reg as usize;
        let spot = operands::located(integers, self.entry, operand, memory.len())?;
        let value = held(mmx, integers, spot, memory);
        Ok(work_of(OPERATE, number, register, value, self.next))
    }

    // An MMX register picked by an immediate: the operand's number is gathered as for a computation, and what is picked from it then moves.
    #[cold]
    #[tactic(auto, using(crate::proofs::laws::picking::Making::picking))]
    fn with_immediate(
        self,
        mmx: &[u64; 8],
        integers: &[u32; 8],
        memory: &[u8],
    ) -> Result<Work, Refusal>
        requires { HasOther self }
        ensures { work_in result ≡ picked_work (self.entry / 2 ^ 24) (get_or mmx.now self.instruction.operand.reg 0) self.instruction.immediate (taken self mmx.now integers.now memory.now) }
    {
        let work = self.computed(mmx, integers, memory)?;
        let old = mmx[self.instruction.operand.reg as usize];
        Ok(picking::picked(self.entry, old, self.instruction.immediate, work))
    }

    // An instruction with a suffix: the operand's number is gathered as for a computation, and the suffix says what becomes of it.
    #[cold]
    pub(crate) fn suffixed(
        self,
        mmx: &[u64; 8],
        integers: &[u32; 8],
        memory: &[u8],
    ) -> Result<Work, Refusal>
        requires { HasOther self }
        ensures work { work_in result ≡ suffixed_work self.instruction.immediate (get_or mmx.now self.instruction.operand.reg 0) (taken self mmx.now integers.now memory.now) }
        ensures operates { IfOk result (λ work. work.what ≡ to_operate) }
    {
        let work = self.computed(mmx, integers, memory)?;
        let old = mmx[self.instruction.operand.reg as usize];
        works::suffixed(self.instruction.immediate, old, work)
    }

    // An instruction that the control marks let pass.
    #[tactic(auto, using(crate::proofs::laws::gathering::Suffixing::sorting))]
    fn sorted(self, mmx: &[u64; 8], integers: &[u32; 8], memory: &[u8]) -> Result<Work, Refusal>
        ensures { Does (work_in result) mmx.now integers.now memory.now (effect_in self.entry self.instruction) (done self.next) }
    {
        let entry = self.entry;
        let operand = self.instruction.operand;
        let immediate = self.instruction.immediate;
        let next = self.next;
        match ways::way_of(entry / FORM) {
            Way::Empties => Ok(work_of(EMPTY, 0, 0, 0, next)),
            Way::Passes => Ok(work_of(PASS, 0, 0, 0, next)),
            Way::Shifts => {
                let number = shifts::shift_number((entry / LANE % PART) as u8, operand.reg);
                Ok(work_of(OPERATE, number, operand.rm as usize, immediate as u64, next))
            }
            Way::Extracts => {
                let value = mmx[operand.rm as usize];
                Ok(picking::extracted(entry, value, immediate, operand.reg, next))
            }
            Way::Stores => {
                let spot = operands::located(integers, entry, operand, memory.len())?;
                Ok(put(spot, mmx[operand.reg as usize], next))
            }
            Way::Loads | Way::Computes => self.computed(mmx, integers, memory),
            Way::Suffixes => self.suffixed(mmx, integers, memory),
            Way::Inserts | Way::Shuffles => self.with_immediate(mmx, integers, memory),
            Way::Masks => picking::masked(mmx, integers, operand, next, memory),
        }
    }
}

// What remains to be done, as one work, which a refusal is too, by its number.
fn one_work(answer: Result<Work, Refusal>) -> Work
    ensures { result ≡ work_in answer }
{
    match answer {
        Ok(work) => work,
        Err(refusal) => refused(refusal.number()),
    }
}

// The instruction at a position by the reader: its refusals, then what one of loops does by the zero mark, then `bar`, the refusal of the control
// marks, where they stop it, then that of its operand. (As a Result, in place of a work, a MOV takes 56 instructions of the processor and not 43.)
fn read(
    table: &[u32; 256],
    mmx: &[u64; 8],
    integers: &[u32; 8],
    bar: Option<Refusal>,
    zero: bool,
    code: &[u8],
    at: usize,
    memory: &[u8],
) -> Work
    requires { (table.now ≡ opcode_table) × ((length code.now ≤ longest_code) × (length memory.now ≤ longest_memory)) }
    ensures { Gathered result mmx.now integers.now (number_in bar) zero code.now at memory.now }
{
    let found = match codec::read_from(table, code, at) {
        Ok(found) => found,
        Err(refusal) => return refused(refusal.number()),
    };
    let instruction = found.instruction;
    if instruction.first != ESCAPE {
        return one_work(loops::looped(
            integers,
            zero,
            found.entry,
            instruction,
            code.len(),
            found.next,
        ));
    }
    let known = Known {
        entry: found.entry,
        instruction,
        next: found.next,
    };
    match stopping(bar, found.entry) {
        Some(refusal) => refused(refusal.number()),
        None => one_work(known.sorted(mmx, integers, memory)),
    }
}

// The instruction at a position: at once, if it can be, else by the reader. A refusal is handed on as a work, by its number. (When a Result was tried
// here, an MMX instruction took 68.5 instructions of the processor, and 64.3 without; the bar is 66.)
pub(crate) fn gathered(
    table: &[u32; 256],
    quick: &[u32; 256],
    mmx: &[u64; 8],
    integers: &[u32; 8],
    bar: Option<Refusal>,
    zero: bool,
    code: &[u8],
    at: usize,
    memory: &[u8],
) -> Work
    requires { (table.now ≡ opcode_table) × ((quick.now ≡ open_table (number_in bar)) × ((length code.now ≤ longest_code) × (length memory.now ≤ longest_memory))) }
    ensures { Gathered result mmx.now integers.now (number_in bar) zero code.now at memory.now }
{
    if let Some(work) = quick::at_once(quick, mmx, integers, code, at, memory) {
        return work;
    }
    read(table, mmx, integers, bar, zero, code, at, memory)
}
