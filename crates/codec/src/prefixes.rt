// The first byte: 0F, or why one that starts no instruction is refused, the prefixes by 4, every other by 5.
// The bytes are numbers and no enum, since they stand so in the code: a `match` goes by their names.
ghost use Rattle.std.specs.Prelude.{◌≡◌};
ghost use Rattle.refusals.specs.Numbers.{number_of};
ghost use Rattle.codec.specs.Reads.{refusal_of};

use refusals::Refusal;

// The first byte of every opcode of two.
pub const ESCAPE: u8 = 0x0f;

// The segment prefixes.
const ES: u8 = 0x26;

const CS: u8 = 0x2e;

const SS: u8 = 0x36;

const DS: u8 = 0x3e;

const FS: u8 = 0x64;

const GS: u8 = 0x65;

// The size prefixes.
const OPERAND_SIZE: u8 = 0x66;

const ADDRESS_SIZE: u8 = 0x67;

// The lock and repeat prefixes.
const LOCK: u8 = 0xf0;

const REPNE: u8 = 0xf2;

const REP: u8 = 0xf3;

// Why an instruction is refused whose first byte is neither 0F nor one of loops.
#[tactic(auto, unfolding(crate::specs::Reads::refusal_of))]
pub(crate) fn first_refusal(first: u8) -> Refusal
    ensures { number_of result ≡ refusal_of first }
{
    match first {
        ES | CS | SS | DS | FS | GS => Refusal::Prefixed,
        OPERAND_SIZE | ADDRESS_SIZE => Refusal::Prefixed,
        LOCK | REPNE | REP => Refusal::Prefixed,
        _ => Refusal::NotListed,
    }
}
