// Where a jump leads.
ghost use Rattle.std.specs.Prelude.{◌≡◌, cond, ◌+◌, leb};
ghost use Rattle.manual.specs.Jumps.{jumped};
ghost use Rattle.works.specs.Answers.{paper_of_target};

use refusals::Refusal;

// The least byte that stands for a negative displacement, and how many values a displacement has.
const SIGN: u32 = 128;

const DISPLACEMENTS: usize = 256;

// 256 more than a signed byte.
fn raised(byte: u32) -> usize
    ensures { result ≡ cond (leb 128 byte) byte (byte + 256) }
{
    if byte < SIGN {
        byte as usize + DISPLACEMENTS
    } else {
        byte as usize
    }
}

// Where a jump by a signed byte leads, with the position behind it, in a code of so many bytes.
#[tactic(auto, unfolding(manual::specs::Jumps::jumped))]
pub fn target_of(length: usize, behind: usize, displacement: u32) -> Result<usize, Refusal>
    ensures { paper_of_target result ≡ jumped length behind displacement }
{
    let ahead = raised(displacement);
    if ahead < DISPLACEMENTS {
        let back = DISPLACEMENTS - ahead;
        if behind < back || length < behind - back {
            return Err(Refusal::JumpsOutside);
        }
        return Ok(behind - back);
    }
    let forward = ahead - DISPLACEMENTS;
    if length < forward || length - forward < behind {
        return Err(Refusal::JumpsOutside);
    }
    Ok(behind + forward)
}
