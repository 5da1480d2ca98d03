// Runs of a machine by value over a floor, below which no byte of the memory is written: from a position on, from the code's start, and of one
// instruction.
ghost use Rattle.std.specs.Prelude.{◌≡◌, ◌≤◌, List, ℕ, length};
ghost use Rattle.refusals.specs.Numbers.{number_of};
ghost use Rattle.reorder.specs.Run.{stopped};
ghost use Rattle.codec.specs.Reads.{longest_code};
ghost use Rattle.works.specs.Bars.{number_in};
ghost use Rattle.manual.specs.State.{longest_memory};
ghost use Rattle.manual.specs.Steps.{refused_with, step_at};
ghost use Rattle.manual.specs.Runs.{run_of};
ghost use Rattle.machine.specs.State.{state_of};
ghost use Rattle.machine.specs.Steps.{paper_of_step};
ghost use Rattle.machine.specs.Runs.{paper_of_run};
ghost use Rattle.machine.specs.inner.Runs.{remaining};

use crate::{End, LONGEST_MEMORY, Machine, Ran, Stepped, stepping};
use codec::LONGEST_CODE;
use refusals::Refusal;

// The number of a refusal if there is one, or 0, as `works::table` takes it.
fn number_in(bar: Option<Refusal>) -> u8
    ensures { result ≡ number_in bar }
{
    match bar {
        Some(refusal) => refusal.number(),
        None => 0,
    }
}

// A run that is refused before it starts.
fn unstarted(machine: Machine, refusal: Refusal) -> Ran
    ensures { (memory : List ℕ) → paper_of_run result memory ≡ stopped (number_of refusal) 0 0 (state_of machine memory) }
{
    Ran {
        end: End::Refused(refusal.number()),
        at: 0,
        count: 0,
        machine,
    }
}

// A step that is refused before its instruction is looked at.
fn untaken(machine: Machine, at: usize, refusal: Refusal) -> Stepped
    ensures { (memory : List ℕ) → paper_of_step result memory ≡ refused_with (number_of refusal) at (state_of machine memory) }
{
    Stepped {
        answer: Err(refusal.number()),
        machine,
        at,
    }
}

impl Machine {
    // The instructions from a position on, where memory, floor and code are within their limits: steps over lent registers, as many as the budget
    // has.
    fn run_from(
        self,
        code: &[u8],
        start: usize,
        memory: &mut [u8],
        floor: usize,
        budget: u32,
    ) -> Ran
        requires { (length code.now ≤ longest_code) × ((length memory.old ≤ longest_memory) × ((floor ≤ length memory.old) × (start ≤ length code.now))) }
        ensures { paper_of_run result memory.new ≡ remaining floor budget code.now start 0 (state_of self memory.old) }
    {
        let table = codec::table();
        let mut mmx = self.mmx;
        let mut integers = self.integers;
        let mut marks = self.marks;
        let bar = works::barred(marks);
        let quick = works::table(number_in(bar));
        let mut at = start;
        let mut remaining = budget;
        // no `for`: a jump leads back, and done is tested before the budget
        while at < code.len() {
            if remaining == 0 {
                return Ran {
                    end: End::Spent,
                    at,
                    count: budget,
                    machine: Machine {
                        mmx,
                        integers,
                        marks,
                    },
                };
            }
            let moved = match stepping::advance(
                &table,
                &quick,
                &mut mmx,
                &mut integers,
                bar,
                marks.valid,
                marks.zero,
                code,
                at,
                memory,
                floor,
            ) {
                Ok(moved) => moved,
                Err(refusal) => {
                    return Ran {
                        end: End::Refused(refusal),
                        at,
                        count: budget - remaining,
                        machine: Machine {
                            mmx,
                            integers,
                            marks,
                        },
                    };
                }
            };
            at = moved.next;
            marks.valid = moved.valid;
            marks.zero = moved.zero;
            remaining -= 1;
        }
        Ran {
            end: End::Done,
            at,
            count: budget - remaining,
            machine: Machine {
                mmx,
                integers,
                marks,
            },
        }
    }

    // The instructions from position 0 on, over a floor. (Its three tests are those of `step` too: one function for them would have to say of each
    // refusal what the run and what the step is then.)
    #[tactic(auto, using(crate::proofs::laws::running::Budgets::starting))]
    pub fn run(self, code: &[u8], memory: &mut [u8], floor: usize, budget: u32) -> Ran
        ensures { paper_of_run result memory.new ≡ run_of floor code.now budget (state_of self memory.old) }
    {
        if LONGEST_MEMORY < memory.len() {
            return unstarted(self, Refusal::MemoryTooLong);
        }
        if memory.len() < floor {
            return unstarted(self, Refusal::FloorTooHigh);
        }
        if LONGEST_CODE < code.len() {
            return unstarted(self, Refusal::CodeTooLong);
        }
        self.run_from(code, 0, memory, floor, budget)
    }

    // The instruction at a position, over a floor.
    #[tactic(auto, using(crate::proofs::laws::running::Answering::answering))]
    pub fn step(self, code: &[u8], at: usize, memory: &mut [u8], floor: usize) -> Stepped
        ensures { paper_of_step result memory.new ≡ step_at floor code.now at (state_of self memory.old) }
    {
        if LONGEST_MEMORY < memory.len() {
            return untaken(self, at, Refusal::MemoryTooLong);
        }
        if memory.len() < floor {
            return untaken(self, at, Refusal::FloorTooHigh);
        }
        if LONGEST_CODE < code.len() {
            return untaken(self, at, Refusal::CodeTooLong);
        }
        if code.len() <= at {
            return untaken(self, at, Refusal::CodeEnds);
        }
        let ran = self.run_from(code, at, memory, floor, 1);
        let machine = ran.machine;
        let answer = match ran.end {
            End::Done | End::Spent => Ok(()),
            End::Refused(refusal) => Err(refusal),
        };
        Stepped {
            answer,
            machine,
            at: ran.at,
        }
    }
}
