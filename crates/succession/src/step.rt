// One step in dictionary order.
ghost use Rattle.std.specs.Prelude.{ℕ, ◌<◌, List, length};
ghost use Rattle.rules.specs.Stock.{IsStrip};
ghost use Rattle.succession.specs.Steps.{Advanced};

use crate::ends::{last_above, last_rise};
use crate::tail::turn_tail;

// The strip becomes the entry after it in the dictionary of its stock, and true; or it is the last, stays, and false, which is all that there is to answer. The
// stock is not looked at.
pub fn next_entry(strip: &mut [u8]) -> bool
    requires { 0 < length strip.old }
    ensures { (counts : List ℕ) → IsStrip counts strip.old → Advanced counts strip.old result strip.new }
{
    let Some(at) = last_rise(strip) else {
        return false;
    };
    let behind = at + 1;
    let higher = last_above(strip, behind, strip[at]);
    strip.swap(at, higher);
    turn_tail(strip, behind);
    true
}
