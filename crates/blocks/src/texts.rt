// What is printed: answers, what is left, places, footprints.
use machine::{End, Footprint, Machine, Places, Ran, Stepped};
use refusals::Refusal;
use std::io;
use std::io::Write;

// The bytes of a quadword.
const QUADWORD: usize = 8;

pub(crate) fn show_refusal(out: &mut impl Write, refusal: u8) -> io::Result<()> {
    write!(out, "refused {refusal}")
}

// What a run came to, as the page program says it.
pub(crate) fn show_run(out: &mut impl Write, ran: Ran) -> io::Result<()> {
    match ran.end {
        End::Done => write!(out, "done")?,
        End::Spent => write!(out, "spent")?,
        End::Refused(refusal) => show_refusal(out, refusal)?,
    }
    write!(out, " {} at {}", ran.count, ran.at)
}

// What a step came to, and the position that it hands back.
pub(crate) fn show_step(out: &mut impl Write, stepped: Stepped) -> io::Result<()> {
    match stepped.answer {
        Ok(()) => write!(out, "completed")?,
        Err(refusal) => show_refusal(out, refusal)?,
    }
    write!(out, " at {}", stepped.at)
}

pub(crate) fn show_tags(out: &mut impl Write, machine: Machine) -> io::Result<()> {
    if machine.marks.valid {
        write!(out, " valid")
    } else {
        write!(out, " empty")
    }
}

// MM0 and the tag mark.
fn show_first(out: &mut impl Write, machine: Machine) -> io::Result<()> {
    write!(out, ", mm0 {:016x}", machine.mmx[0])?;
    show_tags(out, machine)
}

// The same with the first eight bytes of the memory as a number, or all that it has.
pub(crate) fn show_memory(out: &mut impl Write, machine: Machine, memory: &[u8]) -> io::Result<()> {
    show_first(out, machine)?;
    let first = words::load(memory, 0, memory.len().min(QUADWORD));
    write!(out, ", memory {first:016x}")
}

// EAX, ECX, EDI, the zero mark, MM0 and the tag mark.
pub(crate) fn show_counters(out: &mut impl Write, machine: Machine) -> io::Result<()> {
    let [eax, ecx, .., edi] = machine.integers;
    let zero = u8::from(machine.marks.zero);
    write!(
        out,
        ", eax {eax:08x} ecx {ecx:08x} edi {edi:08x} zero {zero}"
    )?;
    show_first(out, machine)
}

// Places: the masks of the registers, the range of the bytes, and the zero mark where it is one.
fn show_places(out: &mut impl Write, places: Places) -> io::Result<()> {
    write!(out, "{} and {}", places.mmx, places.integers)?;
    write!(out, " and {} bytes at {}", places.length, places.start)?;
    if places.zero {
        write!(out, " and zero")?;
    }
    Ok(())
}

fn show_footprint(out: &mut impl Write, footprint: Footprint) -> io::Result<()> {
    write!(out, "reads ")?;
    show_places(out, footprint.reads)?;
    write!(out, ", writes ")?;
    show_places(out, footprint.writes)
}

pub(crate) fn show_tracing(
    out: &mut impl Write,
    tracing: Result<Footprint, Refusal>,
) -> io::Result<()> {
    match tracing {
        Ok(footprint) => show_footprint(out, footprint),
        Err(refusal) => show_refusal(out, refusal.number()),
    }
}

// Whether two footprints meet, or the refusal of the first that there is not.
pub(crate) fn show_meeting(
    out: &mut impl Write,
    one: Result<Footprint, Refusal>,
    other: Result<Footprint, Refusal>,
) -> io::Result<()> {
    match (one, other) {
        (Ok(first), Ok(second)) => {
            if machine::meets(first, second) {
                write!(out, "meet")
            } else {
                write!(out, "do not meet")
            }
        }
        (Err(refusal), _) | (_, Err(refusal)) => show_refusal(out, refusal.number()),
    }
}
