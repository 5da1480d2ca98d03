// Instructions read and gathered at once. One that the reader or the memory refuses has no answer here, nor have those of loops, the odd forms of
// manual 000 and EMMS as the code's last two bytes: they are left to the reader.
ghost use Rattle.std.specs.Prelude.{◌≡◌, ◌/◌, ◌%◌, ◌^◌, ◌≤◌, ◌<◌, length, get_or, IfSome};
ghost use Rattle.codec.specs.Operands.{middle, lower};
ghost use Rattle.codec.specs.Finding.{find_with};
ghost use Rattle.machine.specs.inner.Quick.{Quick};

use crate::pointers::{self, Pointer};
use crate::shifts;
use codec::fields::{MIDDLE, UPPER, VALUES, allowed, is_suffix};
use codec::forms::{
    EMMS, FORM, LANE, LOAD_D, LOAD_Q, LOW, PART, SHIFT_Q, SHIFT_WD, STORE_D, STORE_Q, STREAM,
    SUFFIXED, TWO_OPERANDS,
};
use codec::modes::REGISTER;
use codec::prefixes::ESCAPE;
use lanes::MOVE;
use works::{DOUBLEWORD, EMPTY, OPERATE, QUADWORD, STORE, TO_INTEGER, Work, work_of};

// The bytes before the ModRM byte.
const OPCODE: usize = 2;

// The least ModRM byte with mod 11.
const REGISTERS: u8 = UPPER * REGISTER;

// An instruction whose opcode was read: what is lent to it, its entry in our table, and the byte behind its opcode, which is its ModRM byte if it has
// one, with that byte's position in the code.
#[derive(Clone, Copy)]
struct Opened<'a> {
    mmx: &'a [u64; 8],
    integers: &'a [u32; 8],
    memory: &'a [u8],
    code: &'a [u8],
    at: usize,
    entry: u32,
    modrm: u8,
    ghost here: { at < length code.now },
    ghost named: { modrm ≡ get_or code.now at 0 },
}

impl Opened<'_> {
    ghost use Rattle.machine.specs.inner.Opened.{Answers, Loads, Stores, Suffixes, SuffixesInMemory};

    // The number of the operation, and the registers that reg and rm name.
    fn number(&self) -> u8
        ensures { result ≡ self.now.entry % 256 }
    {
        (self.entry % PART) as u8
    }

    fn reg(&self) -> usize
        ensures { result ≡ middle self.now.modrm }
    {
        usize::from(self.modrm / MIDDLE % VALUES)
    }

    fn rm(&self) -> usize
        ensures { result ≡ lower self.now.modrm }
    {
        usize::from(self.modrm % VALUES)
    }

    // An operation on the register that reg names with so many bytes of memory.
    #[tactic(auto, using(crate::proofs::laws::quick::Operands::answered_within, crate::proofs::laws::quick::Operands::loads_value))]
    fn load(&self, pointer: Pointer, size: u8) -> Option<Work>
        ensures { IfSome result (Loads self.now pointer size) }
    {
        let address = pointer.address as usize;
        if works::is_inside(self.memory.len(), address, usize::from(size)) {
            let value = words::load(self.memory, address, usize::from(size));
            return Some(work_of(OPERATE, self.number(), self.reg(), value, pointer.next));
        }
        None
    }

    // A store of so many bytes of that register.
    #[tactic(auto, using(crate::proofs::laws::quick::Operands::answered_within))]
    fn store(&self, pointer: Pointer, size: u8) -> Option<Work>
        ensures { IfSome result (Stores self.now pointer size) }
    {
        let address = pointer.address as usize;
        if works::is_inside(self.memory.len(), address, usize::from(size)) {
            return Some(work_of(STORE, size, address, self.mmx[self.reg()], pointer.next));
        }
        None
    }

    // The suffix at a position, with what that register held and the operand's number.
    #[tactic(auto, using(crate::proofs::laws::quick::Operands::answered_suffix))]
    fn suffixed(&self, value: u64, at: usize) -> Option<Work>
        ensures { IfSome result (Suffixes self.now value at) }
    {
        let suffix = u32::from(*self.code.get(at)?);
        if is_suffix(suffix) {
            let register = self.reg();
            return Some(works::of_suffix(suffix, self.mmx[register], value, register, at + 1));
        }
        None
    }

    // The same, with an operand in memory.
    #[tactic(auto, using(crate::proofs::laws::quick::Operands::answered_in_memory))]
    fn suffixed_in_memory(&self, pointer: Pointer) -> Option<Work>
        ensures { IfSome result (SuffixesInMemory self.now pointer) }
    {
        let address = pointer.address as usize;
        if works::is_inside(self.memory.len(), address, usize::from(QUADWORD)) {
            let value = words::load(self.memory, address, usize::from(QUADWORD));
            return self.suffixed(value, pointer.next);
        }
        None
    }

    // EMMS, whose opcode ends before the ModRM byte.
    #[tactic(auto, using(crate::proofs::laws::quick::Working::empties))]
    fn alone(&self) -> Option<Work>
        ensures { IfSome result (Answers self.now) }
    {
        if self.entry / FORM == EMMS {
            return Some(work_of(EMPTY, 0, 0, 0, self.at));
        }
        None
    }

    // A shift by an immediate of the register that rm names.
    #[tactic(auto, using(crate::proofs::laws::quick::Working::shifts_immediate))]
    fn shifted(&self) -> Option<Work>
        requires { (192 ≤ self.now.modrm) × ((2 ≤ self.now.entry / 2 ^ 24) × (self.now.entry / 2 ^ 24 ≤ 3)) }
        ensures { IfSome result (Answers self.now) }
    {
        let digit = self.modrm / MIDDLE % VALUES;
        if allowed(self.entry / FORM, REGISTER, digit, self.modrm % VALUES) {
            let immediate = *self.code.get(self.at + 1)?;
            let number = shifts::shift_number((self.entry / LANE % PART) as u8, digit);
            return Some(work_of(
                OPERATE,
                number,
                self.rm(),
                u64::from(immediate),
                self.at + 2,
            ));
        }
        None
    }

    // A ModRM byte with mod 11: registers alone, by the form.
    #[tactic(auto, using(crate::proofs::laws::quick::Working::registering))]
    fn in_registers(&self) -> Option<Work>
        requires { 192 ≤ self.now.modrm }
        ensures { IfSome result (Answers self.now) }
    {
        let form = self.entry / FORM;
        let reg = self.reg();
        let rm = self.rm();
        let next = self.at + 1;
        // tried as an arm of the match: 71.5 instructions of the processor for one of MMX, not 64.8
        if LOAD_Q <= form {
            return Some(work_of(OPERATE, self.number(), reg, self.mmx[rm], next));
        }
        match form {
            STORE_Q => Some(work_of(OPERATE, MOVE, rm, self.mmx[reg], next)),
            LOAD_D => Some(work_of(
                OPERATE,
                self.number(),
                reg,
                u64::from(self.integers[rm]),
                next,
            )),
            STORE_D => Some(work_of(TO_INTEGER, 0, rm, self.mmx[reg], next)),
            SUFFIXED => self.suffixed(self.mmx[rm], next),
            SHIFT_WD | SHIFT_Q => self.shifted(),
            _ => self.alone(),
        }
    }

    // A ModRM byte with another mod, or the byte that follows EMMS.
    fn in_memory(&self) -> Option<Work>
        requires { self.now.modrm < 192 }
        ensures { IfSome result (Answers self.now) }
    {
        let form = self.entry / FORM;
        if form < TWO_OPERANDS {
            return self.alone();
        }
        let pointer = pointers::pointer_at(self.integers, self.code, self.at + 1, self.modrm)?;
        // tested first for the same reason
        if LOAD_Q <= form {
            if form == LOW {
                return self.load(pointer, DOUBLEWORD);
            }
            return self.load(pointer, QUADWORD);
        }
        match form {
            STORE_Q | STREAM => self.store(pointer, QUADWORD),
            LOAD_D => self.load(pointer, DOUBLEWORD),
            STORE_D => self.store(pointer, DOUBLEWORD),
            _ => self.suffixed_in_memory(pointer),
        }
    }

    // By its mod.
    fn gathered(&self) -> Option<Work>
        ensures { IfSome result (Answers self.now) }
    {
        if REGISTERS <= self.modrm {
            return self.in_registers();
        }
        self.in_memory()
    }
}

// The instruction at a position, with a table of `works::table`.
#[tactic(auto, using(crate::proofs::laws::quick::Joining::found_after))]
pub(crate) fn at_once(
    quick: &[u32; 256],
    mmx: &[u64; 8],
    integers: &[u32; 8],
    code: &[u8],
    at: usize,
    memory: &[u8],
) -> Option<Work>
    ensures { IfSome result (λ work. Quick work mmx.now integers.now memory.now (find_with quick.now code.now at)) }
{
    let [first, second, modrm, ..] = code.get(at..)? else {
        return None;
    };
    if *first != ESCAPE {
        return None;
    }
    let opened = Opened {
        mmx,
        integers,
        memory,
        code,
        at: at + OPCODE,
        entry: quick[usize::from(*second)],
        modrm: *modrm,
    };
    opened.gathered()
}
