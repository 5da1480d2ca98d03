// What the page program prints: the report of a run, or the refusal of a file, put at the start of a lent buffer.
#![tactic(auto)]

ghost use Rattle.std.specs.Prelude.{◌≡◌, replicate};
ghost use Rattle.printout.specs.Lines.{report_text, longest_report, refusal_text};
ghost use Rattle.printout.specs.Printing.{printing, printed};

mod count;
mod line;
mod put;

pub use count::LONGEST_REPORT;
use count::{LINE_END, REFUSED, has_room};
use machine::Ran;
use put::{Writer, decimal_places};

// A buffer with room for every report of a memory that the machine takes.
pub fn buffer() -> [u8; LONGEST_REPORT]
    ensures { result ≡ replicate longest_report 0 }
{
    [0; LONGEST_REPORT]
}

// All that is printed of what a run hands back, with the memory, goes to the start of a buffer, and the answer is how many bytes that is. A buffer
// that is shorter stays as it is, and the answer is 0: no Option, since `player::play` promises the same number, and docs/DECISIONS.md names it.
#[tactic(auto, using(crate::proofs::Rooms::rooms))]
pub fn report(out: &mut [u8], ran: Ran, memory: &[u8]) -> usize
    ensures { printing result out.new ≡ printed (report_text ran.end ran.count ran.at ran.machine.mmx ran.machine.integers ran.machine.marks.valid ran.machine.marks.zero memory.now) out.old }
{
    if !has_room(out.len(), ran, memory.len()) {
        return 0;
    }
    let mut text = Writer::new(out);
    text.put_top(ran);
    text.put_bottom(ran.machine.marks.valid, ran.machine.marks.zero, memory);
    text.written
}

// All that is printed of a file that is refused, in the same way. The number is no `Refusal`, so that callers may pass any, as they could.
#[tactic(auto, using(crate::proofs::Rooms::rooms), unfolding(crate::specs::Lines::refusal_text))]
pub fn refusal(out: &mut [u8], number: u8) -> usize
    ensures { printing result out.new ≡ printed (refusal_text number) out.old }
{
    if out.len() < REFUSED + decimal_places(number as u64) + LINE_END {
        return 0;
    }
    let mut text = Writer::new(out);
    text.put_number_line(b"refused ", number as u64);
    text.written
}
