// Why a call is to be refused, by the document's table of refusals. Its rows are written down here again, since nothing that is expected is taken from the
// crates that are tried.
use stock::Refusal;

// The rows that are met here, by their numbers.
#[derive(Clone, Copy, PartialEq, Eq)]
pub enum Reason {
    Many = 7,
    NoMove = 9,
    Record = 11,
    Astray = 12,
    Room = 13,
    Large = 15,
    Pair = 16,
    Stride = 17,
}

impl Reason {
    pub fn at(self, place: usize) -> Refused {
        Refused {
            reason: self,
            place,
        }
    }
}

// The error where a refusal is to come.
#[derive(Clone, Copy)]
pub struct Refused {
    pub reason: Reason,
    pub place: usize,
}

impl Refused {
    // The refusal as C has it.
    pub fn refusal(self) -> Refusal {
        Refusal {
            no: self.reason as u8,
            place: self.place as u64,
        }
    }
}

// No refusal, as C has it.
pub const NONE: Refusal = Refusal { no: 0, place: 0 };

// The refusal that is to be answered: none where there is something to come.
pub fn refusal_of<T: Copy>(due: Result<T, Refused>) -> Refusal {
    match due {
        Ok(_) => NONE,
        Err(refused) => refused.refusal(),
    }
}
