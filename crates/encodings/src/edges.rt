// The edges of reading: codes that are cut short or refused.
use crate::siblings::SIBLING;
use crate::{ADD, ESCAPE};
use codec::LONGEST_CODE;
use refusals::Refusal;
use std::io;
use std::io::Write;

// The first bytes of MOV with register 0, and of JNZ.
pub(crate) const MOV: u8 = 0xb8;

pub(crate) const JNZ: u8 = 0x75;

// A second byte that is SFENCE's with digit 7 and rm 0 alone.
pub(crate) const OF_SFENCE: u8 = 0xae;

// A suffix, and one that is not listed.
pub(crate) const PFMAX: u8 = 0xa4;

const PFMUL: u8 = 0xb4;

// A line of a name and a number.
pub(crate) fn print(out: &mut impl Write, name: &str, n: u64) -> io::Result<()> {
    writeln!(out, "{name} {n}")
}

// The end of an answer's line: the number of its refusal. The text has 0 where nothing is refused.
pub(crate) fn print_refusal<T: Drop>(
    out: &mut impl Write,
    answer: Result<T, Refusal>,
) -> io::Result<()> {
    let number = match answer {
        Ok(_) => 0,
        Err(refusal) => refusal.number(),
    };
    writeln!(out, "is {number}")
}

// A first byte that is refused as a prefix, on its own.
fn is_prefix(first: u8) -> bool {
    matches!(codec::read(&[first], 0), Err(Refusal::Prefixed))
}

// A suffix that is listed.
fn is_suffix(suffix: u8) -> bool {
    codec::read(&[ESCAPE, SIBLING, 0xc1, suffix], 0).is_ok()
}

// Those of all 256 bytes that pass a test, in hex.
fn print_bytes<F: Fn(u8) -> bool>(out: &mut impl Write, name: &str, passes: F) -> io::Result<()>
    requires { F.IsAlwaysCallable passes }
{
    write!(out, "{name}")?;
    for byte in 0u8..=255 {
        if passes(byte) {
            write!(out, " {byte:02x}")?;
        }
    }
    writeln!(out)
}

// Codes that are read at their start; each is printed with its bytes in hex.
const CODES: &[&[u8]] = &[
    // Shifts by an immediate.
    &[ESCAPE, 0x71, 0xc0, 0x01],
    &[ESCAPE, 0x71, 0x00],
    &[ESCAPE, 0x71, 0xd0],
    // Forms of registers or of memory that manual 000 does not list, before what would follow them; and listed ones that are cut short.
    &[ESCAPE, 0xc5, 0x00],
    &[ESCAPE, 0xc5, 0xc0],
    &[ESCAPE, 0xd7, 0x00],
    &[ESCAPE, 0xe7, 0xc0],
    &[ESCAPE, 0xf7, 0x00],
    // Prefetches.
    &[ESCAPE, 0x18, 0xc0],
    &[ESCAPE, 0x18, 0x20],
    &[ESCAPE, 0x18, 0x04],
    // SFENCE.
    &[ESCAPE, OF_SFENCE],
    &[ESCAPE, OF_SFENCE, 0xe8],
    &[ESCAPE, OF_SFENCE, 0xf0],
    &[ESCAPE, OF_SFENCE, 0xf9],
    &[ESCAPE, OF_SFENCE, 0x38],
    &[ESCAPE, OF_SFENCE, 0x3c],
    // First bytes and opcodes that are not listed, and none.
    &[ESCAPE, 0x0b],
    &[0x90],
    &[ESCAPE],
    // Instructions of loops, cut short and whole.
    &[MOV, 0x00, 0x00, 0x00],
    &[MOV, 0x00, 0x00, 0x00, 0x00],
    &[0x49],
    &[JNZ],
    // ADD cut short, and with ModRM bytes that are not listed.
    &[ADD],
    &[ADD, 0xc0],
    &[ADD, 0x00],
    &[ADD, 0xc8],
    // The bytes of JNZ and ADD after 0F: PCMPEQW's, and none of the table.
    &[ESCAPE, JNZ, 0xc0],
    &[ESCAPE, ADD],
    // Siblings without a suffix, and with one that is not listed, behind each sort of operand bytes; and the second bytes beside theirs.
    &[ESCAPE, SIBLING],
    &[ESCAPE, SIBLING, 0xc0],
    &[ESCAPE, SIBLING, 0xc0, PFMUL],
    &[ESCAPE, SIBLING, 0xc0, PFMAX],
    &[ESCAPE, SIBLING, 0x04],
    &[ESCAPE, SIBLING, 0x04, PFMAX],
    &[ESCAPE, 0x0d],
    &[ESCAPE, 0x0e],
    // A displacement that is a suffix, before one that is listed or not, or before none; and the other way round.
    &[ESCAPE, SIBLING, 0x40, PFMAX],
    &[ESCAPE, SIBLING, 0x40, PFMAX, PFMUL],
    &[ESCAPE, SIBLING, 0x40, PFMUL, PFMAX],
];

// All of reading.
pub(crate) fn print_edges(out: &mut impl Write) -> io::Result<()> {
    print_bytes(out, "prefixes", is_prefix)?;
    print_bytes(out, "suffixes", is_suffix)?;
    for code in CODES {
        for byte in *code {
            write!(out, "{byte:02X} ")?;
        }
        print_refusal(out, codec::read(code, 0))?;
    }
    write!(out, "no byte ")?;
    print_refusal(out, codec::read(&[], 0))?;
    write!(out, "4097 bytes ")?;
    print_refusal(out, codec::read(&[ESCAPE; LONGEST_CODE + 1], 0))
}
