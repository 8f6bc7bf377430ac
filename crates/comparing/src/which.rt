// Which: the first of two strips, the second, or equal; and the kind at which they part.
ghost use Rattle.std.specs.Prelude.{◌≡◌};
ghost use Rattle.comparing.specs.Parted.{compared};
ghost use Rattle.comparing.specs.Answers.{which_answer};

use crate::order::{Parting, check_and_compare};
use stock::{Refusal, Refused};

// What Which answers: 1 the first, 2 the second, 3 equal, 0 refused; and the first kind from 2 upward at which the reduced strips differ, 0 where the
// strips are equal or refused.
#[repr(C)]
#[derive(Clone, Copy)]
pub struct Compared {
    pub refusal: Refusal,
    pub which: u8,
    pub kind: u8,
}

impl From<Result<Option<Parting>, Refused>> for Compared {
    ghost from_gives = { λ parted answer. answer ≡ compared parted };

    fn from(parted: Result<Option<Parting>, Refused>) -> Compared {
        let (refusal, which, kind) = match parted {
            Ok(Some(parting)) => (Refusal::NONE, parting.ahead.number(), parting.kind),
            Ok(None) => (Refusal::NONE, 3, 0),
            Err(refused) => (refused.into(), 0, 0),
        };
        Compared {
            refusal,
            which,
            kind,
        }
    }
}

// Which of two strips stands first in the book of their stock.
pub fn which(stock: &[u16], first: &[u8], second: &[u8]) -> Compared
    ensures { result ≡ which_answer stock.now first.now second.now }
{
    check_and_compare(stock, first, second).into()
}
