// Every encoding of the table, of loops and of siblings, read and written back: their number, the differences and the sum of the lengths. Then the
// edges of reading and writing.
#![tactic(auto)]

mod edges;
mod siblings;
mod writings;

use codec::Instruction;
use codec::modes::SIB;
use refusals::Refusal;
use std::io;
use std::io::Write;

// What stands in the writer's buffer before it writes.
pub(crate) const FILL: u8 = 0xcc;

// Room for the longest encoding and more.
pub(crate) const ROOM: usize = 12;

// The first byte of every opcode of two, and the second byte of EMMS, which no operand follows.
pub(crate) const ESCAPE: u8 = 0x0f;

const EMMS: u8 = 0x77;

// The first bytes of DEC with register 0, which nothing follows, and of ADD.
pub(crate) const DEC: u8 = 0x48;

pub(crate) const ADD: u8 = 0x83;

// How many first bytes DEC has, one for each register.
const OF_REGISTERS: u8 = 8;

// The ModRM bytes from here on have mod 11.
pub(crate) const REGISTERS: u8 = 0xc0;

// What was tried so far: what is read, how often it is not written back, its bytes, and what is not listed.
#[derive(Clone, Copy)]
pub(crate) struct Tally {
    encodings: u64,
    differences: u64,
    bytes: u64,
    unlisted: u64,
}

const NOTHING: Tally = Tally {
    encodings: 0,
    differences: 0,
    bytes: 0,
    unlisted: 0,
};

// Whether a buffer starts with the first n bytes of a code and is as it was behind them.
fn agrees(code: &[u8; ROOM], buffer: &[u8; ROOM], n: usize) -> bool {
    buffer
        .iter()
        .zip(code)
        .take(n)
        .all(|(there, read)| *there == *read)
        && buffer.iter().skip(n).all(|there| *there == FILL)
}

// Whether the instruction of n bytes that a code starts with is written as it stands there.
fn writes_back(code: &[u8; ROOM], instruction: Instruction, n: usize) -> bool {
    let mut buffer = [FILL; ROOM];
    codec::write(instruction, &mut buffer) == Ok(n) && agrees(code, &buffer, n)
}

// One code more that is refused.
fn refused(tally: Tally, refusal: Refusal) -> Tally {
    match refusal {
        Refusal::NotListed => Tally {
            unlisted: tally.unlisted.wrapping_add(1),
            ..tally
        },
        _ => tally,
    }
}

// Reads a code and writes it back, if it is an encoding.
pub(crate) fn try_code(tally: Tally, code: &[u8; ROOM]) -> Tally {
    match codec::read(code, 0) {
        Ok((instruction, n)) => {
            let differs = !writes_back(code, instruction, n);
            Tally {
                encodings: tally.encodings.wrapping_add(1),
                differences: tally.differences.wrapping_add(u64::from(differs)),
                bytes: tally.bytes.wrapping_add(n as u64),
                ..tally
            }
        }
        Err(refusal) => refused(tally, refusal),
    }
}

// The tally that a step leaves of this one, at each byte in turn.
pub(crate) fn over_bytes<F: Fn(Tally, u8) -> Tally>(start: Tally, step: F) -> Tally
    requires { F.IsAlwaysCallable step }
{
    let mut tally = start;
    for byte in 0u8..=255 {
        tally = step(tally, byte);
    }
    tally
}

// A second byte, a ModRM byte and an SIB byte, and more bytes for a displacement and an immediate.
fn try_sib(tally: Tally, second: u8, modrm: u8, sib: u8) -> Tally {
    try_code(
        tally,
        &[
            ESCAPE, second, modrm, sib, 0x81, 0x42, 0xc3, 0x24, 0x95, 0x66, 0xf7, 0x18,
        ],
    )
}

// A second byte and a ModRM byte, with each SIB byte if one follows.
fn try_modrm(tally: Tally, second: u8, modrm: u8) -> Tally {
    if modrm < REGISTERS && modrm % 8 == SIB {
        over_bytes(tally, |tally, sib| try_sib(tally, second, modrm, sib))
    } else {
        try_sib(tally, second, modrm, 0)
    }
}

// A second byte, with each ModRM byte if one follows.
fn try_second(tally: Tally, second: u8) -> Tally {
    if second == EMMS {
        try_modrm(tally, second, 0)
    } else {
        over_bytes(tally, |tally, modrm| try_modrm(tally, second, modrm))
    }
}

// A first byte, the one behind it and a third, and more bytes: not those that `try_sib` has behind an SIB byte, so each has its code.
fn try_third(tally: Tally, first: u8, next: u8, third: u8) -> Tally {
    try_code(
        tally,
        &[
            first, next, third, 0x42, 0xc3, 0x24, 0x95, 0x66, 0xf7, 0x18, 0x2a, 0x5b,
        ],
    )
}

// A first byte and the one behind it, with each immediate if that is a ModRM byte.
fn try_next(tally: Tally, first: u8, next: u8) -> Tally {
    if first == ADD {
        over_bytes(tally, |tally, immediate| {
            try_third(tally, first, next, immediate)
        })
    } else {
        try_third(tally, first, next, 0x81)
    }
}

// A first byte other than 0F, with each byte behind it if one follows.
fn try_first(tally: Tally, first: u8) -> Tally {
    if first == ESCAPE {
        tally
    } else if first / OF_REGISTERS == DEC / OF_REGISTERS {
        try_next(tally, first, 0)
    } else {
        over_bytes(tally, |tally, next| try_next(tally, first, next))
    }
}

// The number of encodings under this name, and what is counted with them.
fn print_tally(out: &mut impl Write, name: &str, tally: Tally) -> io::Result<()> {
    edges::print(out, name, tally.encodings)?;
    edges::print(out, "differences", tally.differences)?;
    edges::print(out, "bytes", tally.bytes)
}

fn main(rt: HostRuntime) -> io::Result<()> {
    let mut out = io::writer(&rt);
    print_tally(&mut out, "encodings", over_bytes(NOTHING, try_second))?;
    print_tally(
        &mut out,
        "encodings of loops",
        over_bytes(NOTHING, try_first),
    )?;
    let siblings = over_bytes(NOTHING, siblings::try_operand);
    print_tally(&mut out, "encodings of siblings", siblings)?;
    edges::print(&mut out, "suffixes not listed", siblings.unlisted)?;
    edges::print_edges(&mut out)?;
    writings::print_edges(&mut out)
}
