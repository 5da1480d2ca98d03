// One step over lent registers: its work is gathered, and then done.
ghost use Rattle.std.specs.Prelude.{◌≡◌, ◌≤◌, length};
ghost use Rattle.codec.specs.Table.{opcode_table};
ghost use Rattle.codec.specs.Reads.{longest_code};
ghost use Rattle.manual.specs.State.{longest_memory};
ghost use Rattle.works.specs.Bars.{number_in, open_table};
ghost use Rattle.machine.specs.inner.Works.{Advanced};

use crate::gathering;
use refusals::Refusal;
use works::Moved;

// The step at a position over a floor, where memory, floor and code are within their limits, `bar` is the refusal of the control marks, `valid`
// the tag mark and `zero` the zero mark. (What it goes by are parameters, here and in `gathering`, and no struct: registers and memory are changed by
// each turn, so that one would be made at each.)
pub(crate) fn advance(
    table: &[u32; 256],
    quick: &[u32; 256],
    mmx: &mut [u64; 8],
    integers: &mut [u32; 8],
    bar: Option<Refusal>,
    valid: bool,
    zero: bool,
    code: &[u8],
    at: usize,
    memory: &mut [u8],
    floor: usize,
) -> Result<Moved, u8>
    requires { (table.now ≡ opcode_table) × ((quick.now ≡ open_table (number_in bar)) × ((length code.now ≤ longest_code) × ((length memory.old ≤ longest_memory) × (floor ≤ length memory.old)))) }
    ensures { Advanced result mmx.old integers.old (number_in bar) valid zero code.now at memory.old floor mmx.new integers.new memory.new }
{
    let work = gathering::gathered(table, quick, mmx, integers, bar, zero, code, at, memory);
    works::perform(work, mmx, integers, valid, zero, memory, floor)
}
