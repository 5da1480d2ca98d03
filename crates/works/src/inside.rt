// The test of an operand's bytes.
ghost use Rattle.std.specs.Prelude.{◌≡◌, ◌+◌, leb};

// Whether so many bytes from an address on are all below the memory's length.
pub fn is_inside(room: usize, address: usize, size: usize) -> bool
    ensures { result ≡ leb (address + size) room }
{
    if room < size {
        return false;
    }
    address <= room - size
}
