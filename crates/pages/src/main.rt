// Plays the page files that its arguments name, one after another, and writes the text of each after its name.
#![tactic(auto)]

use std::env::{Env, FillError};
use std::fs::File;
use std::io;
use std::io::Read;
use std::rt::Files;

// Room for any path.
const NAME_BYTES: usize = 4096;

fn write(rt: &impl Print, text: &[u8]) -> io::Result<()> {
    rt.write_all(text)
}

fn write_heading(rt: &impl Print, name: &[u8]) -> io::Result<()> {
    write(rt, b"== ")?;
    write(rt, name)?;
    write(rt, b"\n")
}

// The text of a page, from an open file.
fn write_text(rt: &impl Print, input: &mut impl Read) -> io::Result<()> {
    let mut file = [0u8; pagefile::FILE_BYTES];
    let n = inputs::read_full(input, &mut file);
    let mut text = printout::buffer();
    let written = player::play(&file[..n], &mut text);
    write(rt, &text[0..written])
}

// What is written of a file that a text names.
fn play_path(rt: &(impl Files + Print), path: &str) -> io::Result<()> {
    match File::open(rt, path) {
        Ok(mut input) => write_text(rt, &mut input),
        Err(_) => write(rt, b"this file cannot be opened\n"),
    }
}

fn play_named(rt: &(impl Files + Print), name: &[u8]) -> io::Result<()> {
    write_heading(rt, name)?;
    match std::str::from_utf8(name) {
        Ok(path) => play_path(rt, path),
        Err(_) => write(rt, b"this file cannot be opened\n"),
    }
}

// Says whether there is such an argument. One that has no room is played as a file without a name.
fn play_argument(rt: &(impl Env + Files + Print), i: usize) -> io::Result<bool> {
    let mut name = [0u8; NAME_BYTES];
    match rt.arg(i, &mut name) {
        Ok(length) => play_named(rt, &name[..length])?,
        Err(FillError::TooLong) => play_named(rt, b"")?,
        Err(FillError::NotPresent) => return Ok(false),
    }
    Ok(true)
}

fn main(rt: HostRuntime) -> io::Result<()> {
    for i in 1..usize::MAX {
        if !play_argument(&rt, i)? {
            return Ok(());
        }
    }
    Ok(())
}
