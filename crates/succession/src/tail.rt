// Turning the tail of a strip round.
ghost use Rattle.std.specs.Prelude.{◌≤◌, ◌≡◌, ◌++◌, reverse, length, take, drop};

// The blocks from a place on, in reverse order. Most tails are short, and on these the library's `reverse` takes longer than this loop, which goes by two places
// that meet and so is no `for`.
pub fn turn_tail(strip: &mut [u8], from: usize)
    requires { from ≤ length strip.old }
    ensures { strip.new ≡ take from strip.old ++ reverse (drop from strip.old) }
{
    let mut low = from;
    let mut high = strip.len();
    while low < high {
        high -= 1;
        let block = strip[low];
        strip[low] = strip[high];
        strip[high] = block;
        low += 1;
    }
}
