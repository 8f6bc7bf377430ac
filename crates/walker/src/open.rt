// Open: the walker of a strip.
ghost use Rattle.std.specs.Prelude.{◌≡◌, IfOk};
ghost use Rattle.rules.specs.Refusals.{first_of, check_nos};
ghost use Rattle.stock.specs.Refused.{told, answered};
ghost use Rattle.walker.specs.Answers.{as_opened, open_answer};
ghost use Rattle.walker.specs.Walkers.{walker_for, all_forward};

use crate::Walker;
use crate::directions::walker_of;
use stock::{Refusal, Refused, check_strip};

// What Open answers.
#[repr(C)]
#[derive(Clone, Copy)]
pub struct Opened {
    pub refusal: Refusal,
    pub walker: Walker,
}

// Refused, all directions are forward.
impl From<Result<Walker, Refused>> for Opened {
    ghost from_gives = { λ checked opened. opened ≡ answered as_opened all_forward checked };

    fn from(checked: Result<Walker, Refused>) -> Opened {
        match checked {
            Ok(walker) => Opened {
                refusal: Refusal::NONE,
                walker,
            },
            Err(refused) => Opened {
                refusal: refused.into(),
                walker: Walker::FORWARD,
            },
        }
    }
}

// The walker of a strip, where the stock and the strip are accepted.
pub fn checked_walker(stock: &[u16], strip: &[u8]) -> Result<Walker, Refused>
    ensures refused { told result ≡ first_of (check_nos stock.now strip.now) }
    ensures walker { IfOk result (λ w. w ≡ walker_for stock.now strip.now) }
{
    check_strip(stock, strip)?;
    Ok(walker_of(stock, strip))
}

// The walker of a strip; refused, all directions forward.
pub fn open(stock: &[u16], strip: &[u8]) -> Opened
    ensures { result ≡ open_answer stock.now strip.now }
{
    checked_walker(stock, strip).into()
}
