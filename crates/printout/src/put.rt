// Characters, words and numbers, put one after the other into a lent buffer.
ghost use Rattle.std.specs.Prelude.{◌≡◌, [], ◌∷◌, ◌++◌, ◌<◌, ◌≤◌};
ghost use Rattle.printout.specs.Characters.{newline, digit_of, digits, hex, places, decimal};
ghost use Rattle.printout.specs.inner.Room.{Fits, Puts};

// The bases of the numbers.
const DECIMAL: u64 = 10;

const HEXADECIMAL: u64 = 16;

// One digit, 0 to 9 or A to F.
fn digit(value: u64) -> u8
    requires { value < 16 }
    ensures { result ≡ digit_of value }
{
    if value < DECIMAL {
        b'0' + value as u8
    } else {
        b'A' + (value - DECIMAL) as u8
    }
}

// How many decimal digits a number has.
#[tactic(auto, using(crate::proofs::Numbers::numbers))]
pub(crate) fn decimal_places(number: u64) -> usize
    ensures { (result ≡ places number number) × (result ≤ 20) }
{
    number.max(1).ilog10() as usize + 1
}

// A lent buffer, and how many bytes of it are put.
#[derive(Drop)]
pub(crate) struct Writer<'a> {
    out: &'a mut [u8],
    pub(crate) written: usize,
}

#[tactic(auto, using(crate::proofs::Pieces::naming))]
impl<'a> Writer<'a> {
    pub(crate) fn new(out: &'a mut [u8]) -> Self
        ensures same { result.out.ghost_name ≡ out.entry.ghost_name }
        ensures starts { result.written ≡ 0 }
        ensures content { result.out.now ≡ out.old }
    {
        Writer { out, written: 0 }
    }

    // One character.
    fn put_character(&mut self, character: u8)
        requires { Fits (character ∷ []) self.old }
        ensures { Puts (character ∷ []) self.old self.new }
    {
        self.out[self.written] = character;
        self.written += 1;
    }

    // A word.
    pub(crate) fn put_word(&mut self, word: &[u8])
        requires { Fits word.now self.old }
        ensures { Puts word.now self.old self.new }
    {
        let end = self.written + word.len();
        self.out[self.written..end].copy_from_slice(word);
        self.written = end;
    }

    // The lowest digits of a number, from the last one to the first.
    #[tactic(auto, using(crate::proofs::Numbers::numbers))]
    fn put_digits(&mut self, number: u64, base: u64, count: usize)
        requires some { 0 < base }
        requires few { base ≤ 16 }
        requires fits { Fits (digits base count number) self.old }
        ensures { Puts (digits base count number) self.old self.new }
    {
        // By places, since the digits are put from the last to the first.
        let mut rest = number;
        for i in (0..count).rev() {
            self.out[self.written + i] = digit(rest % base);
            rest /= base;
        }
        self.written += count;
    }

    // A word, and a number in decimal.
    pub(crate) fn put_number(&mut self, word: &[u8], number: u64)
        requires { Fits (word.now ++ decimal number) self.old }
        ensures { Puts (word.now ++ decimal number) self.old self.new }
    {
        self.put_word(word);
        self.put_digits(number, DECIMAL, decimal_places(number));
    }

    // The same, and a line end.
    pub(crate) fn put_number_line(&mut self, word: &[u8], number: u64)
        requires { Fits (word.now ++ decimal number ++ newline) self.old }
        ensures { Puts (word.now ++ decimal number ++ newline) self.old self.new }
    {
        self.put_number(word, number);
        self.put_character(b'\n');
    }

    // A number's lowest hex digits, and the character after them.
    pub(crate) fn put_hex(&mut self, number: u64, count: usize, after: u8)
        requires { Fits (hex count number ++ (after ∷ [])) self.old }
        ensures { Puts (hex count number ++ (after ∷ [])) self.old self.new }
    {
        self.put_digits(number, HEXADECIMAL, count);
        self.put_character(after);
    }
}
