// A run that is taken in parts: it goes on from where it was spent, and between two parts the footprint of the step that it has come to is traced.
ghost use Rattle.std.specs.Prelude.{◌≡◌};
ghost use Rattle.machine.specs.Footprints.{paper_of_footprint, masked_at};
ghost use Rattle.machine.specs.Runs.{paper_of_run};
ghost use Rattle.machine.specs.State.{state_of};
ghost use Rattle.studio.specs.inner.Parts.{Partly, continued};

use machine::{End, Footprint, Ran};
use refusals::Refusal;

// Every byte of the memory may be written.
pub(crate) const FLOOR: usize = 0;

// What a run has come to, with so much more of its budget. Where no instruction jumps, the rest of the code is a block of its own.
pub(crate) fn go_on(ran: Ran, code: &[u8], memory: &mut [u8], more: u32) -> Ran
    requires { Partly code.now more (paper_of_run ran memory.old) }
    ensures { paper_of_run result memory.new ≡ continued code.now more (paper_of_run ran memory.old) }
{
    match ran.end {
        End::Done | End::Refused(_) => ran,
        End::Spent => {
            let rest = ran.machine.run(&code[ran.at..], memory, FLOOR, more);
            Ran {
                at: ran.at + rest.at,
                count: ran.count + rest.count,
                ..rest
            }
        }
    }
}

// The footprint of the step that a run has come to.
pub(crate) fn trace(ran: Ran, code: &[u8], memory: &[u8]) -> Result<Footprint, Refusal>
    ensures { paper_of_footprint result ≡ masked_at code.now ran.at (state_of ran.machine memory.now) }
{
    ran.machine.footprint(code, ran.at, memory)
}
