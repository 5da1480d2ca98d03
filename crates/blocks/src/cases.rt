// Cases: what each is given, and what is printed of it.
use crate::texts::{
    show_counters, show_meeting, show_memory, show_run, show_step, show_tags, show_tracing,
};
use machine::Machine;
use std::io;
use std::io::Write;

// What is printed of the machine that a run or a step leaves.
#[derive(Clone, Copy)]
pub(crate) enum Left {
    Nothing,
    Tags,
    // MM0, the tag mark and the memory
    Picture,
    // integer registers, the zero mark, MM0 and the tag mark
    Counters,
}

// What is done with a case: a meeting is that of the instructions at 0 and at the case's position. No closure stands for it, since a form also says
// how long the usual memory is.
#[derive(Clone, Copy)]
pub(crate) enum Form {
    Run(Left),
    Step(Left),
    Footprint,
    Meeting,
}

// What a case is given beside its code and its memory.
#[derive(Clone, Copy)]
pub(crate) struct Given {
    pub(crate) machine: Machine,
    pub(crate) at: usize,
    pub(crate) floor: usize,
    pub(crate) budget: u32,
}

fn show_left(out: &mut impl Write, left: Left, machine: Machine, memory: &[u8]) -> io::Result<()> {
    match left {
        Left::Nothing => Ok(()),
        Left::Tags => show_tags(out, machine),
        Left::Picture => show_memory(out, machine, memory),
        Left::Counters => show_counters(out, machine),
    }
}

pub(crate) fn play(
    out: &mut impl Write,
    form: Form,
    given: Given,
    code: &[u8],
    memory: &mut [u8],
) -> io::Result<()> {
    let machine = given.machine;
    match form {
        Form::Run(left) => {
            let ran = machine.run(code, memory, given.floor, given.budget);
            show_run(out, ran)?;
            show_left(out, left, ran.machine, memory)
        }
        Form::Step(left) => {
            let stepped = machine.step(code, given.at, memory, given.floor);
            show_step(out, stepped)?;
            show_left(out, left, stepped.machine, memory)
        }
        Form::Footprint => show_tracing(out, machine.footprint(code, given.at, memory)),
        Form::Meeting => {
            let one = machine.footprint(code, 0, memory);
            let other = machine.footprint(code, given.at, memory);
            show_meeting(out, one, other)
        }
    }
}
