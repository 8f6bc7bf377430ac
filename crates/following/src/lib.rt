// Following the records of a press sheet from its strip to its end.
#![tactic(auto)]

ghost use Rattle.std.specs.Prelude.{◌≡◌};
ghost use Rattle.stock.specs.Refused.{answered};
ghost use Rattle.following.specs.Editions.{has_strides};
ghost use Rattle.following.specs.Following.{as_readout};

mod record;
pub mod sheet_moves;

use stock::{Refusal, Refused};

// The editions of a press sheet: the second one has strides.
#[derive(Clone, Copy, PartialEq, Eq)]
pub enum Edition {
    First,
    Second,
}

impl Edition {
    // Whether its sheets may have strides.
    pub fn has_strides(self) -> bool
        ensures { result ≡ has_strides self }
    {
        self == Edition::Second
    }
}

// What reading answers: the moves of the sheet.
#[repr(C)]
#[derive(Clone, Copy)]
pub struct Readout {
    pub refusal: Refusal,
    pub moves: u64,
}

// What C is told of the moves of a sheet, or of what refuses it.
impl From<Result<u64, Refused>> for Readout {
    ghost from_gives = { λ followed r. r ≡ answered as_readout 0 followed };

    fn from(followed: Result<u64, Refused>) -> Readout {
        match followed {
            Ok(moves) => Readout {
                refusal: Refusal::NONE,
                moves,
            },
            Err(refused) => Readout {
                refusal: refused.into(),
                moves: 0,
            },
        }
    }
}
