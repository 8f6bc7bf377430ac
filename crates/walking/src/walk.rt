// Walk: the strip becomes the next one of its book, or where `back` the one before it.
ghost use Rattle.std.specs.Prelude.{◌≡◌, IfOk};
ghost use Rattle.rules.specs.Refusals.{first_of};
ghost use Rattle.stock.specs.Refused.{told};
ghost use Rattle.walking.specs.Answers.{beside, move_nos, move_answer, move_strip};
ghost use Rattle.walking.specs.Checked.{made_to};

use crate::Moved;
use crate::finding::find_by_rule;
use crate::stepping::{Made, make_any};
use stock::{Reason, Refusal, Refused};
use walker::Walker;
use walker::check::check_walker;

// Moves any strip: refusals 1 to 6 and 10, then 9 where no move is found.
fn walk_checked(
    stock: &[u16],
    strip: &mut [u8],
    walker: Walker,
    back: bool,
) -> Result<Made, Refused>
    ensures refused { told result ≡ first_of (move_nos back stock.now strip.old walker) }
    ensures made { IfOk result (λ m. m ≡ made_to stock.now strip.old (beside back stock.now strip.old)) }
    ensures left { strip.new ≡ move_strip back stock.now strip.old walker }
{
    check_walker(stock, strip, walker)?;
    let m = find_by_rule(stock, strip, walker, back);
    match make_any(stock, strip, walker, m) {
        Some(made) => Ok(made),
        None => Err(Reason::NoMove.at(0)),
    }
}

// Exchanges two blocks on the strip, and answers their places and the new walker. Refused, the walker is the one that was lent.
pub fn walk(stock: &[u16], strip: &mut [u8], walker: Walker, back: bool) -> Moved
    ensures { (result ≡ move_answer back stock.now strip.old walker) × (strip.new ≡ move_strip back stock.now strip.old walker) }
{
    match walk_checked(stock, strip, walker, back) {
        Ok(made) => Moved {
            refusal: Refusal::NONE,
            low: made.low,
            high: made.high,
            walker: made.walker,
        },
        Err(refused) => Moved {
            refusal: refused.into(),
            low: 0,
            high: 0,
            walker,
        },
    }
}
