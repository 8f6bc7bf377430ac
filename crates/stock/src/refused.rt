// A refusal: why a call is refused, and at which place.
ghost use Rattle.std.specs.Prelude.{◌≡◌};
ghost use Rattle.stock.specs.Refused.{number_of, no_of, told, refusal};

// Why a call is refused: the rows of the table of refusals in its order, so that each has its row's number.
#[derive(Clone, Copy, Debug, PartialEq, Eq)]
pub enum Reason {
    Kinds,
    LastZero,
    Long,
    Length,
    Stranger,
    Amount,
    Many,
    Above,
    NoMove,
    Directions,
    Record,
    Astray,
    Room,
    Far,
    Large,
    Pair,
    Stride,
}

impl Reason {
    // The number of its row.
    pub fn number(self) -> u8
        ensures { result ≡ number_of self }
    {
        self as u8 + 1
    }

    // The refusal at a place, which is counted from 1 but in a sheet; 0 where it has none.
    pub fn at(self, place: usize) -> Refused
        ensures { result ≡ record { reason = self; place = place } }
    {
        Refused {
            reason: self,
            place,
        }
    }
}

// The error of a call that is refused.
#[derive(Clone, Copy, Debug, PartialEq, Eq)]
pub struct Refused {
    pub reason: Reason,
    pub place: usize,
}

impl From<Reason> for Refused {
    ghost from_gives = { λ reason refused. refused ≡ record { reason = reason; place = 0 } };

    fn from(reason: Reason) -> Refused {
        reason.at(0)
    }
}

// A refusal as C has it: its number and its place. Number 0 with place 0 is no refusal.
#[repr(C)]
#[derive(Clone, Copy, PartialEq, Eq)]
pub struct Refusal {
    pub no: u8,
    pub place: u64,
}

impl Refusal {
    pub const NONE: Refusal = Refusal { no: 0, place: 0 };
}

impl From<Refused> for Refusal {
    ghost from_gives = { λ refused r. r ≡ refusal (no_of refused) };

    fn from(refused: Refused) -> Refusal {
        Refusal {
            no: refused.reason.number(),
            place: refused.place as u64,
        }
    }
}

impl From<Result<(), Refused>> for Refusal {
    ghost from_gives = { λ checked r. r ≡ refusal (told checked) };

    fn from(checked: Result<(), Refused>) -> Refusal {
        match checked {
            Ok(()) => Refusal::NONE,
            Err(refused) => refused.into(),
        }
    }
}
