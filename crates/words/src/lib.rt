// Little-endian numbers of up to 8 bytes in a lent buffer. Any place and any size may be asked for: bytes that do not all lie in the buffer
// are read as 0, and are not written. Buffer, place and size are parameters and no struct, as `load` and `store` promise.
#![tactic(auto)]

ghost use Rattle.std.specs.Prelude.{◌≡◌, ◌+◌, ◌≤◌, length};
ghost use Rattle.basis.specs.Names.{sets};
ghost use Rattle.words.specs.Number.{number, bytes};
ghost use Rattle.words.specs.Buffer.{inside, loaded, stored};
ghost use Rattle.words.specs.inner.Bytewise.{gets};

// The bytes of a quadword, the most that a number has.
const QUADWORD: usize = 8;

// The bytes of a doubleword.
const DOUBLEWORD: usize = 4;

// How many values a byte has.
const BASE: u64 = 256;

// Whether a number of this size may be asked for at this place of a buffer with so many bytes.
#[tactic(auto, using(crate::proofs::Placing::placing))]
fn lies_inside(room: usize, at: usize, size: usize) -> bool
    ensures { result ≡ inside room at size }
{
    size <= QUADWORD && size <= room && at <= room - size
}

// Any size, from the most significant byte down.
fn load_bytes(buffer: &[u8], at: usize, size: usize) -> u64
    requires { (size ≤ 8) × (at + size ≤ length buffer.now) }
    ensures { result ≡ number (gets size buffer.now at) }
{
    let mut value: u64 = 0;
    for i in (at..at + size).rev() {
        value = u64::from(buffer[i]) + BASE * value;
    }
    value
}

// Any size, from the least significant byte up.
fn store_bytes(buffer: &mut [u8], at: usize, size: usize, value: u64)
    requires { at + size ≤ length buffer.old }
    ensures { buffer.new ≡ sets buffer.old at (bytes size value) }
{
    let mut rest = value;
    for byte in &mut buffer[at..at + size] {
        *byte = (rest % BASE) as u8;
        rest /= BASE;
    }
}

// The number of the `size` bytes at a place. The loop over a constant size compiles to one load.
#[tactic(auto, using(crate::proofs::Placing::placing))]
pub fn load(buffer: &[u8], at: usize, size: usize) -> u64
    ensures { result ≡ loaded buffer.now at size }
{
    if !lies_inside(buffer.len(), at, size) {
        return 0;
    }
    match size {
        QUADWORD => load_bytes(buffer, at, QUADWORD),
        DOUBLEWORD => load_bytes(buffer, at, DOUBLEWORD),
        _ => load_bytes(buffer, at, size),
    }
}

// The `size` lowest bytes of a number go to a place. The loop over a constant size compiles to one store.
#[tactic(auto, using(crate::proofs::Placing::placing))]
pub fn store(buffer: &mut [u8], at: usize, size: usize, value: u64)
    ensures { buffer.new ≡ stored buffer.old at size value }
{
    if !lies_inside(buffer.len(), at, size) {
        return;
    }
    match size {
        QUADWORD => store_bytes(buffer, at, QUADWORD, value),
        DOUBLEWORD => store_bytes(buffer, at, DOUBLEWORD, value),
        _ => store_bytes(buffer, at, size, value),
    }
}
