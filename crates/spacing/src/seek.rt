// Looking for the next strip with no two of a kind touching, move by move.
ghost use Rattle.std.specs.Prelude.{◌≡◌};
ghost use Rattle.walking.specs.Checked.{Checked};
ghost use Rattle.spacing.specs.Seeking.{Reached};

use searching::{Ended, Outcome};
use touching::{is_apart, last_touching};
use walker::Walker;
use walking::finding::find;
use walking::stepping::make;

// Moves a checked strip and its walker on to the next one with no two of a kind touching, within the given moves. Where none is found both are left
// anywhere: the caller lends copies. The search of `endless` is a loop of its own: here a move is found before it is made, and a walker and the place seen
// are kept from move to move, so that one loop over both by a trait for such steps, with its list and its laws, would be no plainer than the two.
pub fn seek(
    stock: &[u16],
    strip: &mut [u8],
    walker: &mut Walker,
    endless: bool,
    given: u64,
) -> Ended
    requires { Checked stock.now strip.old walker.old }
    ensures { Reached endless stock.now strip.old given result strip.new walker.new }
{
    let mut seen = strip.len() - 1;
    for moves in 0..given {
        let Some(m) = find(stock, strip, *walker, false) else {
            return Outcome::NoneLeft.after(moves);
        };
        let made = make(stock, strip, *walker, m);
        *walker = made.walker;
        let last = last_touching(strip, seen, m.high);
        if is_apart(strip, endless, last) {
            return Outcome::Found.after(moves + 1);
        }
        seen = last.unwrap_or(0);
    }
    // The next move is looked for beyond the given moves, so that none is known where they reach the last strip exactly.
    match find(stock, strip, *walker, false) {
        Some(_) => Outcome::Stopped.after(given),
        None => Outcome::NoneLeft.after(given),
    }
}
