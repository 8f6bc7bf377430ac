// Checking a stock, a strip and a walker: refusals 1 to 6, then 10.
ghost use Rattle.std.specs.Prelude.{◌≡◌};
ghost use Rattle.rules.specs.Refusals.{first_of};
ghost use Rattle.stock.specs.Refused.{told};
ghost use Rattle.stock.specs.Places.{found_at};
ghost use Rattle.walker.specs.Walkers.{differing_from, walker_nos};

use crate::Walker;
use crate::open::checked_walker;
use stock::{Reason, Refused};

// The smallest kind at which two walkers differ.
fn wrong_kind(one: Walker, other: Walker) -> Option<usize>
    ensures { result ≡ found_at (differing_from 1 one.back other.back) }
{
    for j in 0..16 {
        if one.back[j] != other.back[j] {
            return Some(j + 1);
        }
    }
    None
}

// The first refusal of a stock, a strip of it and a walker.
pub fn check_walker(stock: &[u16], strip: &[u8], w: Walker) -> Result<(), Refused>
    ensures { told result ≡ first_of (walker_nos stock.now strip.now w) }
{
    let right = checked_walker(stock, strip)?;
    match wrong_kind(w, right) {
        Some(kind) => Err(Reason::Directions.at(kind)),
        None => Ok(()),
    }
}
