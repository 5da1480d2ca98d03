// Whether a block has a jump.
ghost use Rattle.std.specs.Prelude.{◌≡◌};
ghost use Rattle.manual.specs.Runs.{reaches_jump};

use codec::LONGEST_CODE;

// The first byte of a jump.
const JUMP_IF_NOT_ZERO: u8 = 0x75;

// Reading from 0 onward reaches a jump. A code that is too long is not read.
#[tactic(auto, using(crate::proofs::laws::jumps::Reaching::reaching))]
pub(crate) fn reaches_jump(code: &[u8]) -> bool
    ensures { result ≡ reaches_jump code.now }
{
    if LONGEST_CODE < code.len() {
        return false;
    }
    let table = codec::table();
    let mut at = 0;
    // each position is known when the instruction before it is read
    while let Ok(found) = codec::read_from(&table, code, at) {
        if found.instruction.first == JUMP_IF_NOT_ZERO {
            return true;
        }
        at = found.next;
    }
    false
}
