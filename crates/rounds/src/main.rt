// Plays the page file on standard input again and again, each time from the same start, and prints what the last time gave: the text that the
// page program prints of it.
#![tactic(auto)]

use std::io;
use std::io::Write;

// How often the page is played.
const ROUNDS: u32 = 20_000;

// All rounds but the last.
fn play_before(file: &[u8], text: &mut [u8]) {
    for _ in 1..ROUNDS {
        player::play(file, text);
    }
}

fn print(output: &mut impl Write, file: &[u8]) -> io::Result<()> {
    let mut text = printout::buffer();
    play_before(file, &mut text);
    let written = player::play(file, &mut text);
    output.write_all(&text[0..written])
}

fn main(rt: HostRuntime) -> io::Result<()> {
    let mut file = [0u8; pagefile::FILE_BYTES];
    let n = inputs::read_full(&mut rt.stdin(), &mut file);
    print(&mut rt.stdout(), &file[..n])
}
