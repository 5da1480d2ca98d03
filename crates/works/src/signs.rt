// A byte with its sign.
ghost use Rattle.std.specs.Prelude.{◌≡◌, ◌%◌, ◌^◌};
ghost use Rattle.manual.specs.Addresses.{signed_byte};

// A byte's top bit, and what extends the sign of a byte with that bit turned over.
const SIGN: u32 = 0x80;

const TURNED_EXTENSION: u32 = 0xffffff80;

// The byte with its sign extended.
pub fn extended(byte: u8) -> u32
    ensures { result ≡ signed_byte byte % 2 ^ 32 }
{
    std::num::wrapping_add_u32(byte as u32 ^ SIGN, TURNED_EXTENSION)
}
