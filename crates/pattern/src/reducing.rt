// The reduced strip at a kind.
ghost use Rattle.std.specs.Prelude.{◌≤◌, ◌≡◌, length, take};
ghost use Rattle.rules.specs.Book.{reduced};

// The reduced strip at a kind, written at the start of the lent word. Answers its length: one word of fixed memory serves for every kind. Each block
// is written, and the next one over it where it is not to stay: no branch hangs on a block.
pub fn reduce(strip: &[u8], kind: u8, word: &mut [u8]) -> usize
    requires { length strip.now ≤ length word.old }
    ensures { (result ≡ length (reduced kind strip.now)) × (take result word.new ≡ reduced kind strip.now) }
{
    let mut n: usize = 0;
    for &block in strip {
        word[n] = block;
        if block <= kind {
            n += 1;
        }
    }
    n
}
