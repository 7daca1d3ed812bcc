// Text in lent bytes: letters, numbers in decimal, lines.
// Past the end of the lent bytes nothing is changed and positions go on, so no writer asks for room and the position is the text's length.
#![tactic(auto)]

ghost use Rattle.std.specs.Prelude.{◌≡◌, [], ◌∷◌, ◌++◌};
ghost use Rattle.effbd.specs.Annex.{digits, number as number_text, line};
ghost use Rattle.text.specs.Laid.{behind as behind_of, Laid};

// The position behind `at`. It stops far above any text, so that no sum wraps.
#[tactic(auto, unfolding(crate::specs::Laid::behind))]
fn behind(at: usize) -> usize
    ensures { result ≡ behind_of at }
{
    if at < 1000000000000 {
        return at + 1;
    }
    at
}

// Lent bytes, and the position in them where the next byte is due. Each writer lays its bytes from there on.
#[derive(Drop)]
pub struct Text<'a> {
    pub bytes: &'a mut [u8],
    pub at: usize,
}

impl<'a> Text<'a> {
    // One byte.
    pub fn put(&mut self, byte: u8)
        ensures { Laid self.old self.new (byte ∷ []) }
    {
        // Read once: for all the compiler knows, the byte that is stored is part of the position.
        let at = self.at;
        words::put_byte(self.bytes, at, byte);
        self.at = behind(at);
    }

    // The letters of a word.
    pub fn put_letters(&mut self, letters: &[u8])
        ensures { Laid self.old self.new letters.now }
    {
        // Bytes and position of its own: behind `self` each letter would fetch them anew.
        let bytes = &mut *self.bytes;
        let mut at = self.at;
        for letter in letters {
            words::put_byte(bytes, at, *letter);
            at = behind(at);
        }
        self.at = at;
    }

    // A number's digits, at most `most` of them.
    fn put_digits(&mut self, most: u16, number: u32)
        ensures { Laid self.old self.new (digits most number) }
    {
        if most == 0 {
            return;
        }
        if number < 10 {
            self.put(b'0' + number as u8);
            return;
        }
        self.put_digits(most - 1, number / 10);
        self.put(b'0' + (number % 10) as u8);
    }

    // A space and a number: ten digits hold every number of 32 bits.
    pub fn put_number(&mut self, number: u32)
        ensures { Laid self.old self.new (number_text number) }
    {
        self.put(b' ');
        self.put_digits(10, number);
    }

    // A word, a space and a number.
    pub fn put_named(&mut self, letters: &[u8], number: u32)
        ensures { Laid self.old self.new (letters.now ++ number_text number) }
    {
        self.put_letters(letters);
        self.put_number(number);
    }

    // A word, two numbers and a newline.
    pub fn put_line(&mut self, letters: &[u8], first: u32, second: u32)
        ensures { Laid self.old self.new (line letters.now (first ∷ second ∷ [])) }
    {
        self.put_named(letters, first);
        self.put_number(second);
        self.put(b'\n');
    }
}
