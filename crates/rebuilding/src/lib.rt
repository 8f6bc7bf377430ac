// Rebuilding a damaged press sheet.
#![tactic(auto)]

ghost use Rattle.std.specs.Prelude.{◌≡◌};
ghost use Rattle.rebuilding.specs.Told.{told_rebuilt};

mod differing;
pub mod rebuild;

use crate::rebuild::Proper;
use stock::{Refusal, Refused};

// What rebuilding answers: the moves of the rebuilt sheet, how many of their records differed, and the number of the first of these, from 1; 0 where
// none did.
#[repr(C)]
#[derive(Clone, Copy)]
pub struct Rebuilt {
    pub refusal: Refusal,
    pub moves: u64,
    pub differing: u64,
    pub first: u64,
}

// What C is told of the proper sheet, or of what refuses the damaged one.
impl From<Result<Proper, Refused>> for Rebuilt {
    ghost from_gives = { λ rebuilt r. r ≡ told_rebuilt rebuilt };

    fn from(rebuilt: Result<Proper, Refused>) -> Rebuilt {
        match rebuilt {
            Ok(proper) => Rebuilt {
                refusal: Refusal::NONE,
                moves: proper.moves,
                differing: proper.found.many,
                first: proper.found.first.unwrap_or(0),
            },
            Err(refused) => Rebuilt {
                refusal: refused.into(),
                moves: 0,
                differing: 0,
                first: 0,
            },
        }
    }
}
