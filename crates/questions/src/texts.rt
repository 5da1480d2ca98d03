// What is printed: answers, and what is left.
use machine::{End, Machine};
use std::io;
use std::io::Write;
use studio::{Asked, Manner, Meeting, Place, Unanswered};

// The bytes of a quadword.
const QUADWORD: usize = 8;

fn show_place(out: &mut impl Write, place: Place) -> io::Result<()> {
    match place {
        Place::Mmx(register) => write!(out, "mm{register}"),
        Place::Integer(register) => write!(out, "integer register {register}"),
        Place::Byte(address) => write!(out, "byte {address}"),
        Place::ZeroMark => write!(out, "the zero mark"),
    }
}

fn show_manner(out: &mut impl Write, manner: Manner) -> io::Result<()> {
    match manner {
        Manner::BothWrite => write!(out, ", both write"),
        Manner::WriteRead => write!(out, ", the earlier writes, the later reads"),
        Manner::ReadWrite => write!(out, ", the earlier reads, the later writes"),
    }
}

fn show_meeting(out: &mut impl Write, meeting: Option<Meeting>) -> io::Result<()> {
    match meeting {
        None => write!(out, "they do not meet"),
        Some(Meeting::Emms) => write!(out, "EMMS"),
        Some(Meeting::At(place, manner)) => {
            show_place(out, place)?;
            show_manner(out, manner)
        }
    }
}

// A run's answer, as the page program says it.
fn show_run(out: &mut impl Write, end: End, at: usize, count: u32) -> io::Result<()> {
    match end {
        End::Done => write!(out, "done")?,
        End::Spent => write!(out, "spent")?,
        End::Refused(refusal) => write!(out, "refused {refusal}")?,
    }
    write!(out, " {count} at {at}")
}

fn show_unanswered(out: &mut impl Write, why: Unanswered) -> io::Result<()> {
    match why {
        Unanswered::Refused(refusal) => {
            let number = refusal.number();
            write!(out, "refused {number}")
        }
        Unanswered::NotDone(end, at, count) => {
            write!(out, "the run: ")?;
            show_run(out, end, at, count)
        }
    }
}

// MM0, the tag mark, and the first eight bytes of the memory as a number.
fn show_left(out: &mut impl Write, machine: Machine, memory: &[u8]) -> io::Result<()> {
    let first = machine.mmx[0];
    let tags = if machine.marks.valid {
        "valid"
    } else {
        "empty"
    };
    let bytes = words::load(memory, 0, QUADWORD);
    write!(out, "; mm0 {first:016x} {tags}, memory {bytes:016x}\n")
}

pub(crate) fn show_answer(out: &mut impl Write, asked: Asked, memory: &[u8]) -> io::Result<()> {
    match asked.why {
        Ok(meeting) => show_meeting(out, meeting)?,
        Err(why) => show_unanswered(out, why)?,
    }
    show_left(out, asked.machine, memory)
}
