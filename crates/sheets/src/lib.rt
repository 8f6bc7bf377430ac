// Press sheets: the kinds of their records, what the calls on them answer, and writing their records.
#![tactic(auto)]

ghost use Rattle.std.specs.Prelude.{◌≡◌};
ghost use Rattle.stock.specs.Refused.{answered};
ghost use Rattle.sheets.specs.Writing.{as_written};

pub mod records;

use stock::{Refusal, Refused};

// What a record of a sheet is. Its first byte is the number of its kind.
#[derive(Clone, Copy, PartialEq, Eq)]
pub enum Record {
    Stock = 1,
    Strip,
    Move,
    End,
    Stride,
}

// What writing answers: the bytes that the sheet takes.
#[repr(C)]
#[derive(Clone, Copy)]
pub struct Written {
    pub refusal: Refusal,
    pub length: u64,
}

// What C is told of the bytes that were written, or of what refuses them.
impl From<Result<u64, Refused>> for Written {
    ghost from_gives = { λ written r. r ≡ answered as_written 0 written };

    fn from(written: Result<u64, Refused>) -> Written {
        match written {
            Ok(length) => Written {
                refusal: Refusal::NONE,
                length,
            },
            Err(refused) => Written {
                refusal: refused.into(),
                length: 0,
            },
        }
    }
}
