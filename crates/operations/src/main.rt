// Performs each packed operation on numbers of a fixed generator, and prints its name and a number that all results went into, a line for each
// operation; then the same of the functions beside `lanes::operate`. With three bytes on standard input, a line's number and a count of rounds (low
// byte first), it performs that line's alone.
#![tactic(auto)]

use std::io;
use std::io::{Read, Write};

// The lines of the functions. The last line before them is that of a number that names no operation.
// No enum: a line comes in as a byte of the input, and an operation's is its number in `lanes`.
const EXTRACT: u8 = 59;

const INSERT: u8 = 60;

const SHUFFLE: u8 = 61;

const TOP_BITS: u8 = 62;

const BLEND: u8 = 63;

// The name of the number that names none, which is also that of numbers past the last line.
const KEEP: &str = "KEEP";

// The names by line: the 58 operations' in the order of their numbers, that of a number that names none, and the five functions'.
const NAMES: [&str; 64] = [
    "PUNPCKLBW",
    "PUNPCKLWD",
    "PUNPCKLDQ",
    "PACKSSWB",
    "PACKUSWB",
    "PACKSSDW",
    "PCMPGTB",
    "PCMPGTW",
    "PCMPGTD",
    "PUNPCKHBW",
    "PUNPCKHWD",
    "PUNPCKHDQ",
    "MOVE",
    "PCMPEQB",
    "PCMPEQW",
    "PCMPEQD",
    "PSRLW",
    "PSRLD",
    "PSRLQ",
    "PSRAW",
    "PSRAD",
    "PSLLW",
    "PSLLD",
    "PSLLQ",
    "PMULLW",
    "PMULHW",
    "PMADDWD",
    "PSUBUSB",
    "PSUBUSW",
    "PADDUSB",
    "PADDUSW",
    "PSUBSB",
    "PSUBSW",
    "PADDSB",
    "PADDSW",
    "PAND",
    "PANDN",
    "POR",
    "PXOR",
    "PSUBB",
    "PSUBW",
    "PSUBD",
    "PADDB",
    "PADDW",
    "PADDD",
    "MASKMOVQ",
    "PAVGB",
    "PAVGW",
    "PEXTRW",
    "PINSRW",
    "PMAXSW",
    "PMAXUB",
    "PMINSW",
    "PMINUB",
    "PMOVMSKB",
    "PMULHUW",
    "PSADBW",
    "PSHUFW",
    KEEP,
    "extract",
    "insert",
    "shuffle",
    "top_bits",
    "blend",
];

const LINES: u8 = 64;

const ROUNDS: u64 = 1000;

// The sorts of sources, the least number that is never a shift count of theirs, and where the third differs from the destination.
const SOURCES: u64 = 3;

const COUNTS: u64 = 72;

const ONE_BYTE: u64 = 0xff_0000_0000;

// The generator's number after x.
fn next(x: u64) -> u64 {
    let y = x ^ (x << 13);
    let z = y ^ (y >> 7);
    z ^ (z << 17)
}

// The source of a round, in turn: any number; one that is a shift count about as often as not; the destination but for one byte.
fn source_of(x: u64, destination: u64, i: u64) -> u64 {
    match i % SOURCES {
        0 => x,
        1 => x % COUNTS,
        _ => destination ^ (x & ONE_BYTE),
    }
}

// What the operation or the function of a line leaves. An operation takes two numbers; MASKMOVQ and PINSRW, without a third, keep the destination.
fn result_of(line: u8, destination: u64, source: u64, third: u64) -> u64 {
    match line {
        EXTRACT => lanes::extract(destination, source),
        INSERT => lanes::insert(destination, source, third),
        SHUFFLE => lanes::shuffle(destination, source),
        TOP_BITS => lanes::top_bits(destination),
        BLEND => lanes::blend(destination, source, third),
        _ => lanes::operate(line, destination, source),
    }
}

// The results of a line in so many rounds, mixed into one number. The third number of a round is the generator's next one.
fn mixed(line: u8, rounds: u64) -> u64 {
    let mut destination: u64 = 0x0123_4567_89ab_cdef;
    let mut source: u64 = 0x8000_7fff_ff80_017f;
    let mut total: u64 = 1;
    for i in 0..rounds {
        let third = next(source);
        let result = result_of(line, destination, source_of(source, destination, i), third);
        total = std::num::wrapping_add_u64(next(total), result);
        destination = next(destination);
        source = third;
    }
    total
}

fn print(out: &mut impl Write, line: u8, rounds: u64) -> io::Result<()> {
    let name = NAMES.get(usize::from(line)).unwrap_or(&KEEP);
    writeln!(out, "{name:<10}{:016x}", mixed(line, rounds))
}

fn print_all(out: &mut impl Write) -> io::Result<()> {
    for line in 0..LINES {
        print(out, line, ROUNDS)?;
    }
    Ok(())
}

fn main(rt: HostRuntime) -> io::Result<()> {
    let mut input = [0u8; 3];
    let mut out = io::writer(&rt);
    match rt.reader().read_exact(&mut input) {
        Ok(()) => {
            let [line, low, high] = input;
            print(&mut out, line, u64::from(u16::from_le_bytes([low, high])))
        }
        Err(_) => print_all(&mut out),
    }
}
