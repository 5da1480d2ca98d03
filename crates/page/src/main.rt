// The page program: from one page file on standard input to what is printed of it, on standard output. Where a read fails nothing is printed;
// that, and a text that could not be written whole, is told on standard error, and the exit status is then 1.
#![tactic(auto)]

ghost use Rattle.std.specs.Prelude.{IsTrue};
ghost use Rattle.std.specs.Io.KnownBytes.{Appends};
ghost use Rattle.player.specs.Page.{page_text};
ghost use Rattle.page.specs.Prints.{PrintsPage};

use std::io::{Read, Write};
use std::process::ExitCode;

// Prints what is printed of a page file, and answers whether all of it was written.
fn print<W: Write>(output: &mut W, file: &[u8]) -> bool
    ensures { IsTrue result → Appends (W.contents output.old) (W.contents output.new) (page_text file.now) }
{
    let mut out = printout::buffer();
    let written = player::play(file, &mut out);
    output.write_all(&out[0..written]).is_ok()
}

// There is nowhere to tell that a line could not be told.
fn tell(errors: &mut impl Write, line: &[u8]) {
    let _ = errors.write_all(line);
}

// Plays the page file that the input holds: prints its text on the output, or tells why not. The answer is whether the whole text was printed.
fn play_page<R: Read, W: Write, E: Write>(input: &mut R, output: &mut W, errors: &mut E) -> bool
    ensures { IsTrue result → PrintsPage (R.remaining input.old) (W.contents output.old) (W.contents output.new) }
{
    let mut file = [0u8; pagefile::FILE_BYTES];
    match inputs::read_all(input, &mut file) {
        Ok(n) => {
            if print(output, &file[..n]) {
                return true;
            }
            tell(errors, b"page: the text could not be written whole\n");
        }
        Err(_) => tell(errors, b"page: the file could not be read to its end\n"),
    }
    false
}

fn main(rt: HostRuntime) -> ExitCode {
    if play_page(&mut rt.stdin(), &mut rt.stdout(), &mut rt.stderr()) {
        ExitCode::SUCCESS
    } else {
        ExitCode::FAILURE
    }
}
