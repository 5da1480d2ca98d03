// The writer: whether a record has bytes, how many, and one function for each part that puts them, from left to right.
#![tactic(auto, using(crate::proofs::Puts::puts, crate::proofs::Checks::checks))]

ghost use Rattle.std.specs.Prelude.{◌≡◌, true, ◌&&◌, ◌+◌, ◌≤◌, length};
ghost use Rattle.basis.specs.Names.{sets};
ghost use Rattle.words.specs.Number.{bytes};
ghost use Rattle.codec.specs.Forms.{immediate_size, accepts};
ghost use Rattle.codec.specs.Opcodes.{form_for, opcode_bytes};
ghost use Rattle.codec.specs.Table.{form_of};
ghost use Rattle.codec.specs.Operands.{joined};
ghost use Rattle.codec.specs.inner.Fields.{Fields, Sized};
ghost use Rattle.codec.specs.Fits.{fits, sib_fits, operand_fits, operand_is_zero, parts_fit, opcode_fits, has_bytes};
ghost use Rattle.codec.specs.Writes.{sib_bytes, operand_bytes, bytes_of};
ghost use Rattle.codec.specs.inner.Fields.{operand_size};

use crate::forms::ABSENT;
use crate::prefixes::ESCAPE;
use crate::{Instruction, NO_OPERAND, Operand, fields};

// How many values mod and scale have.
const UPPER_VALUES: u8 = 4;

// The sizes of an opcode: one byte, or 0F and another.
const ONE_BYTE_OPCODE: usize = 1;

const TWO_BYTE_OPCODE: usize = 2;

// The size of the ModRM byte, alone and with the SIB byte.
const MODRM_SIZE: usize = 1;

const SIB_SIZE: usize = 2;

// Whether a number fits a field of k bytes; with none it is 0.
fn field_fits(k: usize, value: u32) -> bool
    requires { Sized k }
    ensures { result ≡ fits k value }
{
    match k {
        fields::NO_BYTE => value == 0,
        fields::ONE_BYTE => value < fields::BYTE,
        _ => true,
    }
}

// Whether the fields of an SIB byte fit it; where there is none they are 0.
#[tactic(auto, using(crate::proofs::Tests::tests), unfolding(crate::specs::Fits::sib_fits))]
fn sib_fits(there: bool, scale: u8, index: u8, base: u8) -> bool
    ensures { result ≡ sib_fits there scale index base }
{
    if there {
        scale < UPPER_VALUES && index < fields::VALUES && base < fields::VALUES
    } else {
        scale == 0 && index == 0 && base == 0
    }
}

// Whether each field of an operand fits its place.
#[tactic(auto, using(crate::proofs::Tests::tests), unfolding(crate::specs::Fits::operand_fits))]
fn operand_fits(operand: Operand) -> bool
    ensures { result ≡ operand_fits operand }
{
    let sib = fields::sib_follows(operand.mode, operand.rm);
    let size = fields::displacement_size(operand.mode, operand.rm, operand.base);
    operand.mode < UPPER_VALUES
        && operand.reg < fields::VALUES
        && operand.rm < fields::VALUES
        && sib_fits(sib, operand.scale, operand.index, operand.base)
        && field_fits(size, operand.displacement)
}

// Whether there is nothing in an operand.
#[tactic(auto, using(crate::proofs::Tests::tests), unfolding(crate::specs::Fits::operand_is_zero))]
fn operand_is_zero(operand: Operand) -> bool
    ensures { result ≡ operand_is_zero operand }
{
    operand == NO_OPERAND
}

// Whether the immediate is one that the form may have.
fn immediate_fits(form: u32, immediate: u32) -> bool
    ensures { result ≡ (fits (immediate_size (form_of form)) immediate && accepts (form_of form) immediate) }
{
    field_fits(fields::immediate_size(form), immediate) && fields::accepted(form, immediate)
}

// Whether the operand and the immediate are such as the form has.
fn parts_fit(form: u32, operand: Operand, immediate: u32) -> bool
    ensures { result ≡ parts_fit (form_of form) operand immediate }
{
    if form == ABSENT {
        return false;
    }
    if fields::has_operand(form) {
        fields::allowed(form, operand.mode, operand.reg, operand.rm)
            && operand_fits(operand)
            && immediate_fits(form, immediate)
    } else {
        operand_is_zero(operand) && immediate_fits(form, immediate)
    }
}

// Whether the opcode bytes are 0F and another, or one, and the second is 0.
fn opcode_fits(first: u8, second: u8) -> bool
    ensures { result ≡ opcode_fits first second }
{
    first == ESCAPE || second == 0
}

// Whether any byte string reads as the record. (Form and record are parameters here, in `size_of` and in `put`, and no struct: `write` alone hands
// them on, and made them.)
pub(crate) fn has_bytes(form: u32, instruction: Instruction) -> bool
    requires { form_of form ≡ form_for instruction.first instruction.second }
    ensures { result ≡ has_bytes instruction }
{
    opcode_fits(instruction.first, instruction.second)
        && parts_fit(form, instruction.operand, instruction.immediate)
}

// How many bytes the opcode has.
fn opcode_size(instruction: Instruction) -> usize
    ensures { (result ≡ length (opcode_bytes instruction.first instruction.second)) × (result ≤ 2) }
{
    if instruction.first == ESCAPE {
        return TWO_BYTE_OPCODE;
    }
    ONE_BYTE_OPCODE
}

// How many bytes the record has.
pub(crate) fn size_of(form: u32, instruction: Instruction) -> usize
    requires { form_of form ≡ form_for instruction.first instruction.second }
    ensures { result ≡ length (bytes_of instruction) }
{
    let start = opcode_size(instruction);
    let j = fields::immediate_size(form);
    if fields::has_operand(form) {
        let operand = instruction.operand;
        let k = fields::displacement_size(operand.mode, operand.rm, operand.base) + j;
        if fields::sib_follows(operand.mode, operand.rm) {
            return start + SIB_SIZE + k;
        }
        return start + MODRM_SIZE + k;
    }
    start + j
}

// A byte of three fields.
fn byte_of(high: u8, mid: u8, low: u8) -> u8
    requires { Fields high mid low }
    ensures { result ≡ joined high mid low }
{
    high * fields::UPPER + mid * fields::MIDDLE + low
}

// The k bytes of a number, the lowest first.
fn put_number(buffer: &mut [u8], at: usize, k: usize, value: u32)
    requires { (at + k ≤ length buffer.old) × Sized k }
    ensures { buffer.new ≡ sets buffer.old at (bytes k value) }
{
    match k {
        fields::NO_BYTE => {}
        fields::ONE_BYTE => buffer[at] = (value % fields::BYTE) as u8,
        _ => buffer[at..at + 4].copy_from_slice(&value.to_le_bytes()),
    }
}

// The SIB byte, if the operand has one. The position after it.
fn put_sib(buffer: &mut [u8], at: usize, operand: Operand) -> usize
    requires { (at + length (sib_bytes operand) ≤ length buffer.old) × (operand_fits operand ≡ true) }
    ensures { (result ≡ at + length (sib_bytes operand)) × (buffer.new ≡ sets buffer.old at (sib_bytes operand)) }
{
    if fields::sib_follows(operand.mode, operand.rm) {
        buffer[at] = byte_of(operand.scale, operand.index, operand.base);
        at + 1
    } else {
        at
    }
}

// The ModRM byte, and what follows it of the operand. The position after it.
fn put_operand(buffer: &mut [u8], at: usize, operand: Operand) -> usize
    requires { (at + operand_size operand ≤ length buffer.old) × (operand_fits operand ≡ true) }
    ensures { (result ≡ at + operand_size operand) × (buffer.new ≡ sets buffer.old at (operand_bytes operand)) }
{
    buffer[at] = byte_of(operand.mode, operand.reg, operand.rm);
    let next = put_sib(buffer, at + 1, operand);
    let k = fields::displacement_size(operand.mode, operand.rm, operand.base);
    put_number(buffer, next, k, operand.displacement);
    next + k
}

// The opcode bytes, at the start. The position after them.
fn put_opcode(buffer: &mut [u8], instruction: Instruction) -> usize
    requires { length (opcode_bytes instruction.first instruction.second) ≤ length buffer.old }
    ensures { (result ≡ length (opcode_bytes instruction.first instruction.second)) × (buffer.new ≡ sets buffer.old 0 (opcode_bytes instruction.first instruction.second)) }
{
    buffer[0] = instruction.first;
    if instruction.first == ESCAPE {
        buffer[1] = instruction.second;
        return TWO_BYTE_OPCODE;
    }
    ONE_BYTE_OPCODE
}

// The bytes of a record that has bytes, at the start of a buffer that has room for them.
pub(crate) fn put(buffer: &mut [u8], form: u32, instruction: Instruction)
    requires { (form_of form ≡ form_for instruction.first instruction.second) × ((length (bytes_of instruction) ≤ length buffer.old) × (has_bytes instruction ≡ true)) }
    ensures { buffer.new ≡ sets buffer.old 0 (bytes_of instruction) }
{
    let start = put_opcode(buffer, instruction);
    let k = fields::immediate_size(form);
    if fields::has_operand(form) {
        let operand = instruction.operand;
        let next = put_operand(buffer, start, operand);
        put_number(buffer, next, k, instruction.immediate);
        return;
    }
    put_number(buffer, start, k, instruction.immediate);
}
