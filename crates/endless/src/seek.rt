// Looking for the next standing strip, step by step.
ghost use Rattle.std.specs.Prelude.{ℕ, ◌<◌, List, length};
ghost use Rattle.rules.specs.Stock.{IsStrip};
ghost use Rattle.dictionary.specs.Dictionary.{dictionary};
ghost use Rattle.searching.specs.Searching.{later};
ghost use Rattle.searching.specs.Ended.{EndsSo};
ghost use Rattle.standing.specs.Standing.{stands_for_paper};

use hanging::is_standing;
use searching::{Ended, Outcome};
use succession::next_entry;

// Moves a strip on to the next standing one, within the given steps. Where none is found the strip is left anywhere: the caller lends a copy.
pub fn seek(strip: &mut [u8], given: u64) -> Ended
    requires { 0 < length strip.old }
    ensures { (counts : List ℕ) → IsStrip counts strip.old → EndsSo stands_for_paper (later (dictionary counts) strip.old) given strip.old result strip.new }
{
    for steps in 0..given {
        if !next_entry(strip) {
            return Outcome::NoneLeft.after(steps);
        }
        if is_standing(strip) {
            return Outcome::Found.after(steps + 1);
        }
    }
    // The next strip is looked for beyond the given steps, so that none left is known where they reach the last strip exactly.
    if !next_entry(strip) {
        return Outcome::NoneLeft.after(given);
    }
    Outcome::Stopped.after(given)
}
