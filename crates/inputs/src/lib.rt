// What an input gives, read into a lent buffer: all of it, for the page program, which tells of a read that fails; or what came before such a
// read too, for the test programs.
#![tactic(auto)]

ghost use Rattle.std.specs.Prelude.{◌<◌, ◌≤◌, length, take, IfOk, IsOk};
ghost use Rattle.std.specs.Io.KnownBytes.{Consumes, IsAtEnd};

use std::io;
use std::io::Read;

// Reads until the buffer is full, the input ends or a read fails, and says how many bytes stand at the buffer's start, those that the input had
// next, and whether no read failed. A pipe gives its bytes in parts, so that a short read is no end: an answer of 0 is.
fn read_on<R: Read>(input: &mut R, buffer: &mut [u8]) -> (usize, io::Result<()>)
    ensures within { result.0 ≤ length buffer.new }
    ensures bytes { Consumes (R.remaining input.old) (R.remaining input.new) (take result.0 buffer.new) }
    ensures whole { IsOk result.1 → result.0 < length buffer.new → IsAtEnd (R.remaining input.new) }
{
    let mut done: usize = 0;
    // no iterator: what a read gives decides where the next one goes
    while done < buffer.len() {
        match input.read(&mut buffer[done..]) {
            Ok(0) => return (done, Ok(())),
            Ok(count) => done += count,
            Err(error) => return (done, Err(error)),
        }
    }
    (done, Ok(()))
}

// Reads until the buffer is full or the input ends, and says how many bytes stand at the buffer's start: those that the input had next. They are
// fewer than the buffer holds only where the input has no more.
pub fn read_all<R: Read>(input: &mut R, buffer: &mut [u8]) -> io::Result<usize>
    ensures within { IfOk result (λ n. n ≤ length buffer.new) }
    ensures bytes { IfOk result (λ n. Consumes (R.remaining input.old) (R.remaining input.new) (take n buffer.new)) }
    ensures whole { IfOk result (λ n. n < length buffer.new → IsAtEnd (R.remaining input.new)) }
{
    let (done, ended) = read_on(input, buffer);
    ended?;
    Ok(done)
}

// Reads until the buffer is full, the input ends or a read fails, and says how many bytes stand at the buffer's start: those that the input had
// next.
pub fn read_full<R: Read>(input: &mut R, buffer: &mut [u8]) -> usize
    ensures within { result ≤ length buffer.new }
    ensures bytes { Consumes (R.remaining input.old) (R.remaining input.new) (take result buffer.new) }
{
    let (done, _) = read_on(input, buffer);
    done
}
