// The blocks of a strip that is hung endless, as it stands or foot up.
ghost use Rattle.std.specs.Prelude.{◌+◌, ◌%◌, ◌<◌, ◌≡◌, length};
ghost use Rattle.papers.specs.Blocks.{as_hung, block_at};

// A strip as it hangs: foot up it is read backwards.
#[derive(Clone, Copy)]
pub struct Hung<'a> {
    pub strip: &'a [u8],
    pub back: bool,
}

// A place of n blocks that are hung endless: after the last comes the first again.
fn around(n: usize, i: usize) -> usize
    requires { i < n + n }
    ensures { result ≡ i % n }
{
    if i < n { i } else { i - n }
}

impl Hung<'_> {
    // The block at a place of the strip as it hangs endless.
    pub fn block_at(self, i: usize) -> u8
        requires { i < length self.strip.now + length self.strip.now }
        ensures { result ≡ block_at (as_hung self.entry) i }
    {
        let n = self.strip.len();
        let place = around(n, i);
        if self.back {
            self.strip[n - 1 - place]
        } else {
            self.strip[place]
        }
    }
}
