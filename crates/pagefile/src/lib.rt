// The page file: whether it is well formed, and which part of it holds the code, the memory and the registers.
#![tactic(auto)]

ghost use Rattle.std.specs.Prelude.{◌≡◌, ◌<◌, length, drop, true, false, MatchOption};
ghost use Rattle.pagefile.specs.Fields.{may_hold};
ghost use Rattle.pagefile.specs.Parsing.{contents_in, stands, size, remaining, well_formed, contents_of, code_of, memory_of, mmx_of, integers_of, page_of, paper_of_page};

use refusals::Refusal;

// The tags of the five fields: numbers, and no enum, since the tags up to one are counted, and each is compared with a byte of the file.
const CODE: u8 = 1;

const MEMORY: u8 = 2;

const MMX_REGISTERS: u8 = 3;

const INTEGER_REGISTERS: u8 = 4;

const MARKS: u8 = 5;

// The bytes of a field's length, and of its tag and length together.
const LENGTH_BYTES: usize = 2;

const HEADING_BYTES: usize = 3;

// The bytes that the fields of fixed length hold.
const MMX_BYTES: usize = 64;

const INTEGER_BYTES: usize = 32;

const MARKS_BYTES: usize = 1;

// The marks have bits 0 to 4, so they are below this.
const MARKS_LIMIT: u8 = 32;

// The bytes of the longest file, and of a buffer for one: a byte more, so that a longer file is seen as such.
pub const LONGEST_FILE: usize = 65536;

pub const FILE_BYTES: usize = LONGEST_FILE + 1;

// Whether a field of this tag may have these contents.
#[tactic(auto, unfolding(crate::specs::Fields::may_hold))]
fn may_hold(tag: u8, contents: &[u8]) -> bool
    ensures { result ≡ may_hold tag contents.now }
{
    match tag {
        MMX_REGISTERS => contents.len() == MMX_BYTES,
        INTEGER_REGISTERS => contents.len() == INTEGER_BYTES,
        MARKS => contents.len() == MARKS_BYTES && contents[0] < MARKS_LIMIT,
        _ => true,
    }
}

// The contents of the field of this tag, if one stands at the front of what remains of a file.
#[tactic(auto, using(crate::proofs::Places::fields))]
fn field(rest: &[u8], tag: u8) -> Option<&[u8]>
    ensures { MatchOption result (stands tag rest.now ≡ false) (λ contents. (stands tag rest.now ≡ true) × (contents.now ≡ contents_in rest.now)) }
{
    if rest.len() < HEADING_BYTES || rest[0] != tag {
        return None;
    }
    let count = words::load(rest, 1, LENGTH_BYTES) as usize;
    let after = &rest[HEADING_BYTES..];
    if after.len() < count {
        return None;
    }
    let contents = &after[..count];
    if may_hold(tag, contents) {
        Some(contents)
    } else {
        None
    }
}

// What remains without that field.
#[tactic(auto, using(crate::proofs::Places::fields))]
fn after_field(rest: &[u8], tag: u8) -> &[u8]
    ensures { result.now ≡ drop (size tag rest.now) rest.now }
{
    match field(rest, tag) {
        Some(contents) => &rest[HEADING_BYTES + contents.len()..],
        None => rest,
    }
}

// What remains of a file after the fields of the tags up to this one.
#[tactic(auto, using(crate::proofs::Places::remains))]
fn remaining(file: &[u8], tag: u8) -> &[u8]
    ensures { result.now ≡ remaining tag file.now }
{
    let mut rest = file;
    for before in 0..tag {
        rest = after_field(rest, before + 1);
    }
    rest
}

// Whether a file is no longer than allowed, and its fields leave nothing over.
#[tactic(auto, using(crate::proofs::Parts::parts))]
fn well_formed(file: &[u8]) -> bool
    ensures { result ≡ well_formed file.now }
{
    file.len() <= LONGEST_FILE && remaining(file, MARKS).is_empty()
}

// The contents of the field of this tag, as the part of the file that they stand in. No bytes, where the field is absent or the file malformed.
#[tactic(auto, using(crate::proofs::Parts::parts))]
fn contents(file: &[u8], tag: u8) -> &[u8]
    requires { 0 < tag }
    ensures { result.now ≡ contents_of tag file.now }
{
    if !well_formed(file) {
        return &[];
    }
    field(remaining(file, tag - 1), tag).unwrap_or(&[])
}

// The marks of a well-formed file, 0 where their field is absent.
#[tactic(auto, using(crate::proofs::Parts::parts))]
pub fn read(file: &[u8]) -> Result<u8, Refusal>
    ensures { paper_of_page result ≡ page_of file.now }
{
    if !well_formed(file) {
        return Err(Refusal::Malformed);
    }
    match contents(file, MARKS) {
        [marks, ..] => Ok(*marks),
        [] => Ok(0),
    }
}

// The code of a file: no bytes, where the field is absent or the file malformed. So it is with the other parts.
// The four have one form, and no parameter for the tag: each is public, and docs/PROMISES.md names it.
pub fn code(file: &[u8]) -> &[u8]
    ensures { result.now ≡ code_of file.now }
{
    contents(file, CODE)
}

// The memory of a file.
pub fn memory(file: &[u8]) -> &[u8]
    ensures { result.now ≡ memory_of file.now }
{
    contents(file, MEMORY)
}

// The eight MMX registers of a file, MM0 first.
pub fn mmx_registers(file: &[u8]) -> &[u8]
    ensures { result.now ≡ mmx_of file.now }
{
    contents(file, MMX_REGISTERS)
}

// The eight integer registers of a file, EAX first.
pub fn integer_registers(file: &[u8]) -> &[u8]
    ensures { result.now ≡ integers_of file.now }
{
    contents(file, INTEGER_REGISTERS)
}
