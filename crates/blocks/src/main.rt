// Blocks through `run`: the customer's example, the edges of documents 01 and 02; single steps; blocks and steps over a floor; footprints and
// meetings; loops; and then the block on standard input.
#![tactic(auto)]

mod cases;
mod floor_steps;
mod floors;
mod footprints;
mod loop_steps;
mod loops;
mod machines;
mod meetings;
mod runs;
mod steps;
mod tables;
mod texts;

use cases::{Form, Left};
use std::io;
use std::io::{Read, Write};
use tables::play_all;

// Room for the block on standard input, and the memory lent to it.
const ROOM: usize = 4096;

const MEMORY: usize = 256;

fn standard_input(input: &mut impl Read, out: &mut impl Write) -> io::Result<()> {
    let mut space = [0u8; ROOM];
    let size = inputs::read_full(input, &mut space);
    let mut memory = [0u8; MEMORY];
    write!(out, "standard input: ")?;
    cases::play(
        out,
        Form::Run(Left::Picture),
        tables::usual_given(),
        &space[..size],
        &mut memory,
    )?;
    write!(out, "\n")
}

fn main(rt: HostRuntime) -> io::Result<()> {
    let mut out = io::writer(&rt);
    play_all(&mut out, Form::Run(Left::Picture), runs::CASES)?;
    play_all(&mut out, Form::Step(Left::Nothing), steps::CASES)?;
    play_all(&mut out, Form::Step(Left::Tags), steps::STOPPED)?;
    play_all(&mut out, Form::Run(Left::Picture), floors::CASES)?;
    play_all(&mut out, Form::Step(Left::Picture), floor_steps::CASES)?;
    play_all(&mut out, Form::Footprint, footprints::CASES)?;
    play_all(&mut out, Form::Meeting, meetings::CASES)?;
    play_all(&mut out, Form::Run(Left::Counters), loops::CASES)?;
    play_all(&mut out, Form::Step(Left::Counters), loop_steps::STEPS)?;
    play_all(&mut out, Form::Footprint, loop_steps::FOOTPRINTS)?;
    play_all(&mut out, Form::Meeting, loop_steps::MEETINGS)?;
    standard_input(&mut rt.reader(), &mut out)
}
