// From a page file to what is printed of it.
#![tactic(auto)]

ghost use Rattle.std.specs.Prelude.{◌≡◌, ◌≤◌, length, IfOk, IfErr};
ghost use Rattle.refusals.specs.Numbers.{number_of};
ghost use Rattle.manual.specs.State.{longest_memory};
ghost use Rattle.pagefile.specs.Parsing.{memory_of};
ghost use Rattle.printout.specs.Lines.{refusal_text};
ghost use Rattle.printout.specs.Printing.{printing, printed};
ghost use Rattle.player.specs.Page.{answer_text, run_in, page_text};

use codec::LONGEST_CODE;
use machine::{LONGEST_MEMORY, Machine};
use refusals::Refusal;

// The instructions that a page may run.
const BUDGET: u32 = 4096;

// A page may write every byte of its memory.
const FLOOR: usize = 0;

// Runs a page's code in a copy of its memory, at the start of a buffer, and prints.
#[tactic(auto, using(crate::proofs::Playing::run_of_parts))]
fn run(file: &[u8], marks: u8, buffer: &mut [u8], out: &mut [u8]) -> usize
    requires { length (memory_of file.now) ≤ length buffer.old }
    ensures { printing result out.new ≡ printed (answer_text (run_in (memory_of file.now) marks file.now)) out.old }
{
    let given = pagefile::memory(file);
    let memory = &mut buffer[..given.len()];
    memory.copy_from_slice(given);
    let machine = Machine::from_page(
        pagefile::mmx_registers(file),
        pagefile::integer_registers(file),
        marks,
    );
    let ran = machine.run(pagefile::code(file), memory, FLOOR, BUDGET);
    printout::report(out, ran, memory)
}

// The marks of a page that may be run; or its refusal, by 13 before 1, and by 1 before 2.
#[tactic(auto, using(crate::proofs::Playing::admitting))]
fn admitted(file: &[u8]) -> Result<u8, Refusal>
    ensures short { IfOk result (λ marks. length (memory_of file.now) ≤ longest_memory) }
    ensures runs { IfOk result (λ marks. page_text file.now ≡ answer_text (run_in (memory_of file.now) marks file.now)) }
    ensures refused { IfErr result (λ refusal. page_text file.now ≡ refusal_text (number_of refusal)) }
{
    let marks = pagefile::read(file)?;
    if LONGEST_MEMORY < pagefile::memory(file).len() {
        return Err(Refusal::MemoryTooLong);
    }
    if LONGEST_CODE < pagefile::code(file).len() {
        return Err(Refusal::CodeTooLong);
    }
    Ok(marks)
}

// All that is printed of a page file goes to the start of a buffer, and the answer is how many bytes that is. A buffer that is shorter stays as
// it is, and the answer is 0.
pub fn play(file: &[u8], out: &mut [u8]) -> usize
    ensures { printing result out.new ≡ printed (page_text file.now) out.old }
{
    match admitted(file) {
        Ok(marks) => run(file, marks, &mut [0; LONGEST_MEMORY], out),
        Err(refusal) => printout::refusal(out, refusal.number()),
    }
}
