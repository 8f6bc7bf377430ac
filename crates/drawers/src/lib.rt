// Drawers: the calls on dictionary numbers, as the archive's old drawers have them, one file for each.
#![tactic(auto)]

ghost use Rattle.std.specs.Prelude.{◌≡◌};
ghost use Rattle.stock.specs.Refused.{answered};
ghost use Rattle.drawers.specs.Answers.{as_filed};

pub mod next;
pub mod number;
pub mod strip;

use stock::{Refusal, Refused};

// What the calls that give a number answer, those of `converting` too.
#[repr(C)]
#[derive(Clone, Copy)]
pub struct Filed {
    pub refusal: Refusal,
    pub number: u64,
}

impl From<Result<u64, Refused>> for Filed {
    ghost from_gives = { λ numbered filed. filed ≡ answered as_filed 0 numbered };

    fn from(numbered: Result<u64, Refused>) -> Filed {
        match numbered {
            Ok(number) => Filed {
                refusal: Refusal::NONE,
                number,
            },
            Err(refused) => Filed {
                refusal: refused.into(),
                number: 0,
            },
        }
    }
}
