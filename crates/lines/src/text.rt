// A lent line while a text is written into it: bytes, words and numbers, one after the other.
ghost use Rattle.std.specs.Prelude.{◌+◌, ◌≤◌, ◌<◌, ◌≡◌, [], ◌∷◌, length};
ghost use Rattle.lines.specs.Text.{decimal};
ghost use Rattle.lines.specs.Writing.{Writes};

// What is written so far ends before the index `end`, and what is written next begins there.
#[derive(Drop)]
pub struct Line<'a> {
    pub bytes: &'a mut [u8],
    pub end: usize,
}

impl<'a> Line<'a> {
    // Nothing is written yet.
    pub fn begin(bytes: &'a mut [u8]) -> Line<'a>
        ensures same { result.bytes.ghost_name ≡ bytes.entry.ghost_name }
        ensures bytes { result.bytes.now ≡ bytes.old }
        ensures end { result.end ≡ 0 }
    {
        Line { bytes, end: 0 }
    }
}

impl Line<'_> {
    pub fn put_byte(&mut self, byte: u8)
        requires { self.old.end < length self.old.bytes.now }
        ensures { Writes self.old (byte ∷ []) self.new }
    {
        self.bytes[self.end] = byte;
        self.end += 1;
    }

    pub fn put_word(&mut self, word: &[u8])
        requires { self.old.end + length word.now ≤ length self.old.bytes.now }
        ensures { Writes self.old word.now self.new }
    {
        let end = self.end + word.len();
        self.bytes[self.end..end].copy_from_slice(word);
        self.end = end;
    }

    // A number below 1,000,000 in decimal: the digits before the last one, then that one. It stays a recursion, since std's way of printing a number
    // wants a writer that can fail, and would be proved by these digits all the same.
    pub fn put_decimal(&mut self, n: u64)
        requires { (n < 1000000) × (self.old.end + length (decimal n) ≤ length self.old.bytes.now) }
        ensures { Writes self.old (decimal n) self.new }
    {
        let last = b'0' + (n % 10) as u8;
        if n < 10 {
            return self.put_byte(last);
        }
        self.put_decimal(n / 10);
        self.put_byte(last);
    }
}
