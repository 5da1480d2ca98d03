// The reader: one function for each part of an instruction, from left to right, each handing on the position after it.
// Code, position and opcode are parameters and no struct: with another position at each call it would be made anew each time.
#![tactic(auto, using(crate::proofs::Steps::reading, crate::proofs::Judging::judging))]

ghost use Rattle.std.specs.Prelude.{◌≡◌, ◌+◌, ◌*◌, ◌≤◌, length, take, drop};
ghost use Rattle.words.specs.Number.{number};
ghost use Rattle.codec.specs.Opcodes.{escape};
ghost use Rattle.codec.specs.Table.{entry_of_first, form_in};
ghost use Rattle.codec.specs.Operands.{upper, middle, lower, operand_of};
ghost use Rattle.codec.specs.inner.Fields.{Sized};
ghost use Rattle.codec.specs.Reader.{reads};
ghost use Rattle.codec.specs.Reads.{immediate_reader, displacement_reader, sib_reader, modrm_reader, first_reader, second_reader};
ghost use Rattle.codec.specs.Finding.{found, found_in, paper_of_found};
ghost use Rattle.codec.specs.inner.Entries.{found_after, read_as};

use crate::forms::{ABSENT, FORM, SHUFFLE, SUFFIXED};
use crate::prefixes::ESCAPE;
use crate::{Found, Instruction, NO_OPERAND, Operand, fields, opcodes, prefixes};
use refusals::Refusal;

// A ModRM byte from here on has mod 11.
const REGISTERS: u8 = 0xc0;

// The opcode bytes, with their entry and its form.
#[derive(Clone, Copy)]
pub(crate) struct Opcode {
    pub(crate) first: u8,
    pub(crate) second: u8,
    pub(crate) entry: u32,
    pub(crate) form: u32,
}

// The number of k bytes at a position, the lowest first.
fn number_at(code: &[u8], at: usize, k: usize) -> u32
    requires { (at + k ≤ length code.now) × Sized k }
    ensures { result ≡ number (take k (drop at code.now)) }
{
    match k {
        fields::NO_BYTE => 0,
        fields::ONE_BYTE => u32::from(code[at]),
        _ => u32::from_le_bytes([code[at], code[at + 1], code[at + 2], code[at + 3]]),
    }
}

// The immediate, if the form has one, and the whole record, where the immediate is no suffix.
fn number_after(code: &[u8], at: usize, opcode: Opcode, operand: Operand) -> Result<Found, Refusal>
    requires { (at ≤ length code.now) × (opcode.form ≡ 16 → ⊥) }
    ensures { paper_of_found result ≡ found_after opcode (λ form first second. immediate_reader form first second operand) code.now at }
{
    let k = fields::immediate_size(opcode.form);
    if code.len() - at < k {
        return Err(Refusal::CodeEnds);
    }
    let immediate = number_at(code, at, k);
    Ok(Found {
        entry: opcode.entry,
        instruction: Instruction {
            first: opcode.first,
            second: opcode.second,
            operand,
            immediate,
        },
        next: at + k,
    })
}

// The displacement, if the ModRM and SIB bytes ask for one, and what follows it.
fn displacement_at(
    code: &[u8],
    at: usize,
    opcode: Opcode,
    modrm: u8,
    sib: u8,
) -> Result<Found, Refusal>
    requires { (at ≤ length code.now) × (opcode.form ≡ 16 → ⊥) }
    ensures { paper_of_found result ≡ found_after opcode (λ form first second. displacement_reader form first second modrm sib) code.now at }
{
    let (mode, _, rm) = fields_of(modrm);
    let (_, _, base) = fields_of(sib);
    let k = fields::displacement_size(mode, rm, base);
    if code.len() - at < k {
        return Err(Refusal::CodeEnds);
    }
    let displacement = number_at(code, at, k);
    number_after(code, at + k, opcode, operand_of(modrm, sib, displacement))
}

// The three fields of a ModRM or SIB byte, from the upper one down.
fn fields_of(byte: u8) -> (u8, u8, u8)
    ensures { result ≡ (upper byte, middle byte, lower byte) }
{
    (
        byte / fields::UPPER,
        byte / fields::MIDDLE % fields::VALUES,
        byte % fields::VALUES,
    )
}

// The operand of a ModRM byte, an SIB byte (0 where there is none) and a displacement.
fn operand_of(modrm: u8, sib: u8, displacement: u32) -> Operand
    ensures { result ≡ operand_of modrm sib displacement }
{
    let (mode, reg, rm) = fields_of(modrm);
    let (scale, index, base) = fields_of(sib);
    Operand {
        mode,
        reg,
        rm,
        scale,
        index,
        base,
        displacement,
    }
}

// The SIB byte, if the ModRM byte asks for one, and what follows it.
fn sib_at(code: &[u8], at: usize, opcode: Opcode, modrm: u8) -> Result<Found, Refusal>
    requires { (at ≤ length code.now) × (opcode.form ≡ 16 → ⊥) }
    ensures { paper_of_found result ≡ found_after opcode (λ form first second. sib_reader form first second modrm) code.now at }
{
    if REGISTERS <= modrm {
        return number_after(code, at, opcode, operand_of(modrm, 0, 0));
    }
    let (mode, _, rm) = fields_of(modrm);
    if fields::sib_follows(mode, rm) {
        if code.len() <= at {
            return Err(Refusal::CodeEnds);
        }
        displacement_at(code, at + 1, opcode, modrm, code[at])
    } else {
        displacement_at(code, at, opcode, modrm, 0)
    }
}

// The ModRM byte, and what follows it.
fn modrm_at(code: &[u8], at: usize, opcode: Opcode) -> Result<Found, Refusal>
    requires { opcode.form ≡ 16 → ⊥ }
    ensures { paper_of_found result ≡ found_after opcode modrm_reader code.now at }
{
    if code.len() <= at {
        return Err(Refusal::CodeEnds);
    }
    let modrm = code[at];
    let (mode, reg, rm) = fields_of(modrm);
    if fields::allowed(opcode.form, mode, reg, rm) {
        sib_at(code, at + 1, opcode, modrm)
    } else {
        Err(Refusal::NotAllowed)
    }
}

// An opcode as its operands are read: one with a suffix as PSHUFW's, whose immediate stands in the suffix's place.
fn read_as(opcode: Opcode) -> Opcode
    ensures { result ≡ read_as opcode }
{
    if opcode.form == SUFFIXED {
        return Opcode {
            form: SHUFFLE,
            ..opcode
        };
    }
    opcode
}

// The operands, the immediate, and then the suffix, if it is one. (What hands back a record without being copied into its caller would keep it in
// memory for every instruction: so the suffix is looked at last.)
fn operands_at(code: &[u8], at: usize, opcode: Opcode) -> Result<Found, Refusal>
    ensures { paper_of_found result ≡ found_after opcode modrm_reader code.now at }
{
    let found = modrm_at(code, at, read_as(opcode))?;
    if opcode.form == SUFFIXED && !fields::is_suffix(found.instruction.immediate) {
        return Err(Refusal::NotListed);
    }
    Ok(found)
}

// The ModRM byte of ADD, which names a register, and the immediate. (`modrm_at` has one caller and is copied into it. With a second it would not be:
// one function for both made the odd forms dearer by 80 to 110 instructions.)
#[tactic(auto, using(crate::proofs::Steps::reading, crate::proofs::Steps::register_on))]
fn register_at(code: &[u8], at: usize, opcode: Opcode) -> Result<Found, Refusal>
    requires { opcode.form ≡ 11 }
    ensures { paper_of_found result ≡ found_after opcode modrm_reader code.now at }
{
    if code.len() <= at {
        return Err(Refusal::CodeEnds);
    }
    let modrm = code[at];
    let (mode, reg, rm) = fields_of(modrm);
    if fields::allowed(opcode.form, mode, reg, rm) {
        return number_after(code, at + 1, opcode, operand_of(modrm, 0, 0));
    }
    Err(Refusal::NotAllowed)
}

// What follows a first byte other than 0F, by its form.
#[tactic(auto, using(crate::proofs::Steps::reading, crate::proofs::Steps::first_adds))]
pub(crate) fn first_at(code: &[u8], at: usize, first: u8) -> Result<Found, Refusal>
    requires { at ≤ length code.now }
    ensures { paper_of_found result ≡ found (entry_of_first first) (reads (first_reader first) at (drop at code.now)) }
{
    let form = opcodes::first_form(first);
    if form == ABSENT {
        return Err(prefixes::first_refusal(first));
    }
    let opcode = Opcode {
        first,
        second: 0,
        entry: form * FORM,
        form,
    };
    if fields::has_operand(form) {
        register_at(code, at, opcode)
    } else {
        number_after(code, at, opcode, NO_OPERAND)
    }
}

// The second byte, after 0F, and what follows it by its form.
pub(crate) fn second_at(table: &[u32; 256], code: &[u8], at: usize) -> Result<Found, Refusal>
    ensures { paper_of_found result ≡ found_in table.now (reads (second_reader (form_in table.now) escape) at (drop at code.now)) }
{
    if code.len() <= at {
        return Err(Refusal::CodeEnds);
    }
    let second = code[at];
    let entry = opcodes::entry_in(table, second);
    let form = entry / FORM;
    let opcode = Opcode {
        first: ESCAPE,
        second,
        entry,
        form,
    };
    if form == ABSENT {
        return Err(Refusal::NotListed);
    }
    if fields::has_operand(form) {
        operands_at(code, at + 1, opcode)
    } else {
        number_after(code, at + 1, opcode, NO_OPERAND)
    }
}
