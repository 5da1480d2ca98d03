// Questions of `why_not`: the example of demand 3, EMMS, the three manners, the order of places, what memory operands share, the zero mark, runs
// that are not done, 29 and 30.
#![tactic(auto)]

mod blocks;
mod cases;
mod limits;
mod places;
mod refused;
mod texts;

use cases::ask_blocks;
use std::io;
use std::io::Write;

fn main(rt: HostRuntime) -> io::Result<()> {
    let mut out = io::writer(&rt);
    ask_blocks(&mut out, blocks::BLOCKS)?;
    ask_blocks(&mut out, places::BLOCKS)?;
    ask_blocks(&mut out, refused::BLOCKS)?;
    limits::all(&mut out)
}
