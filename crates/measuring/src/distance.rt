// Distance: how many moves on from one strip another is, or back where the number is negative.
ghost use Rattle.std.specs.Prelude.{◌≡◌, pos};
ghost use Rattle.stock.specs.Refused.{answered};
ghost use Rattle.measuring.specs.Answers.{as_apart, between, distance_answer};

use counting::{patterns_of, total_of};
use numbering::number_of;
use stock::{Reason, Refusal, Refused, check_pair};

// What Distance answers.
#[repr(C)]
#[derive(Clone, Copy)]
pub struct Apart {
    pub refusal: Refusal,
    pub moves: i64,
}

// One number minus another, or refusal 14 where no signed 64-bit number holds it.
fn moves_between(from: u64, to: u64) -> Result<i64, Refused>
    ensures { answered as_apart (pos 0) result ≡ between from to }
{
    let moves = i128::from(to) - i128::from(from);
    i64::try_from(moves).or(Err(Reason::Far.at(0)))
}

// The number of the second strip minus the number of the first, where both are accepted and their book can be numbered.
fn moves_on(stock: &[u16], first: &[u8], second: &[u8]) -> Result<i64, Refused>
    ensures { answered as_apart (pos 0) result ≡ distance_answer stock.now first.now second.now }
{
    check_pair(stock, first, second)?;
    let patterns = patterns_of(stock);
    total_of(&patterns, stock).ok_or(Reason::Many)?;
    let from = number_of(&patterns, stock, first).number;
    let to = number_of(&patterns, stock, second).number;
    moves_between(from, to)
}

// The number of the second strip minus the number of the first.
pub fn distance(stock: &[u16], first: &[u8], second: &[u8]) -> Apart
    ensures { result ≡ distance_answer stock.now first.now second.now }
{
    match moves_on(stock, first, second) {
        Ok(moves) => Apart {
            refusal: Refusal::NONE,
            moves,
        },
        Err(refused) => Apart {
            refusal: refused.into(),
            moves: 0,
        },
    }
}
