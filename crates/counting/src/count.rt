// Count: how many strips the book of a stock has.
ghost use Rattle.std.specs.Prelude.{◌≡◌};
ghost use Rattle.stock.specs.Refused.{answered};
ghost use Rattle.counting.specs.Answers.{as_counted, count_answer};

use crate::totals::{patterns_of, total_of};
use stock::{Reason, Refusal, Refused, check_stock};

// What Count answers.
#[repr(C)]
#[derive(Clone, Copy)]
pub struct Counted {
    pub refusal: Refusal,
    pub total: u64,
}

// T of a stock that is accepted and whose strips can be numbered.
fn total(stock: &[u16]) -> Result<u64, Refused>
    ensures { answered as_counted 0 result ≡ count_answer stock.now }
{
    check_stock(stock)?;
    let strips = total_of(&patterns_of(stock), stock).ok_or(Reason::Many)?;
    Ok(strips)
}

// The total T of a stock.
pub fn count(stock: &[u16]) -> Counted
    ensures { result ≡ count_answer stock.now }
{
    match total(stock) {
        Ok(strips) => Counted {
            refusal: Refusal::NONE,
            total: strips,
        },
        Err(refused) => Counted {
            refusal: refused.into(),
            total: 0,
        },
    }
}
