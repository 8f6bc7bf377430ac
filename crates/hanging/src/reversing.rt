// Hanging a strip, foot up or not and turned, where it lies.
ghost use Rattle.std.specs.Prelude.{◌-◌, ◌≤◌, ◌≡◌, true, length};
ghost use Rattle.papers.specs.Papers.{turned, hung};

use crate::either::Hanging;

// Puts the blocks in front in reverse order, and then the others: so the strip is reversed, and then turned by as many places as there are others.
fn reverse_parts(strip: &mut [u8], front: usize)
    requires { front ≤ length strip.old }
    ensures { strip.new ≡ turned (length strip.old - front) (hung true strip.old) }
{
    strip[..front].reverse();
    strip[front..].reverse();
}

// Hangs a strip so, where it lies. The last step reverses it, so a strip that is not to be reversed is reversed before.
pub fn hang(strip: &mut [u8], so: Hanging)
    requires { so.turn ≤ length strip.old }
    ensures { strip.new ≡ turned so.turn (hung so.reversed strip.old) }
{
    let front = strip.len() - so.turn;
    if !so.reversed {
        strip.reverse();
    }
    reverse_parts(strip, front);
}
