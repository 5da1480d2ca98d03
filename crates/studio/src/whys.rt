// Why two instructions of a block cannot change places.
ghost use Rattle.std.specs.Prelude.{◌≡◌, true, ◌≤◌};
ghost use Rattle.manual.specs.Runs.{has_no_jump};
ghost use Rattle.machine.specs.State.{state_of};
ghost use Rattle.studio.specs.Whys.{budget, paper_of_asked, asked, why_not};
ghost use Rattle.studio.specs.inner.Parts.{Watches};

use crate::going::FLOOR;
use crate::{Asked, Unanswered, going, jumps, meetings};
use machine::{End, Footprint, Machine, Ran};
use refusals::Refusal;

// The instructions that the run may complete.
const BUDGET: u32 = 4096;

// A run, and the footprints of two of its instructions, each traced where the run had come to it.
#[derive(Clone, Copy)]
struct Watched {
    ran: Ran,
    first: Result<Footprint, Refusal>,
    second: Result<Footprint, Refusal>,
}

// The run in three parts: to the earlier instruction, on to the later one, and on to the end. (Machine, code and memory are parameters, here and in
// `ask`, as `why_not` is handed them.)
fn watch(machine: Machine, code: &[u8], memory: &mut [u8], low: u32, high: u32) -> Watched
    requires straight { has_no_jump code.now ≡ true }
    requires ordered { low ≤ high }
    requires within { high ≤ budget }
    ensures { Watches code.now (state_of machine memory.old) low high result memory.new }
{
    let near = machine.run(code, memory, FLOOR, low);
    let first = going::trace(near, code, memory);
    let far = going::go_on(near, code, memory, high - low);
    let second = going::trace(far, code, memory);
    let ran = going::go_on(far, code, memory, BUDGET - high);
    Watched { ran, first, second }
}

// Of a block without a jump, by the earlier and the later number: the run's answer where it is not done, then the refusal of the numbers, then the
// meeting.
#[tactic(auto, using(crate::proofs::laws::whys::Asking::asking))]
fn ask(machine: Machine, code: &[u8], memory: &mut [u8], low: u32, high: u32) -> Asked
    requires straight { has_no_jump code.now ≡ true }
    requires ordered { low ≤ high }
    ensures { paper_of_asked result memory.new ≡ asked code.now low high (state_of machine memory.old) }
{
    let bytes = memory.len();
    let watched = watch(machine, code, memory, low.min(BUDGET), high.min(BUDGET));
    let ran = watched.ran;
    let why = match ran.end {
        End::Done if low == high || ran.count <= high => {
            Err(Unanswered::Refused(Refusal::NumbersWrong))
        }
        End::Done => Ok(meetings::met(watched.first, watched.second, bytes)),
        end => Err(Unanswered::NotDone(end, ran.at, ran.count)),
    };
    Asked {
        why,
        machine: ran.machine,
    }
}

// Why two instructions of a block, by their numbers, cannot change places, in a run from a machine and a memory: the lowest place where they meet,
// and how. The numbers are counted from 0 and may come in either order. The memory is left as the run leaves it.
#[tactic(auto, using(crate::proofs::laws::whys::Asking::choosing))]
pub fn why_not(machine: Machine, code: &[u8], memory: &mut [u8], first: u32, second: u32) -> Asked
    ensures { paper_of_asked result memory.new ≡ why_not code.now first second (state_of machine memory.old) }
{
    if jumps::reaches_jump(code) {
        return Asked {
            why: Err(Unanswered::Refused(Refusal::BlockJumps)),
            machine,
        };
    }
    ask(machine, code, memory, first.min(second), first.max(second))
}
