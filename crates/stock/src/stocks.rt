// A stock, and the length of a buffer for its strips: refusals 1 to 4.
ghost use Rattle.std.specs.Prelude.{min, ◌≡◌};
ghost use Rattle.rules.specs.Stock.{sum};
ghost use Rattle.rules.specs.Refusals.{first_of, stock_nos, buffer_nos};
ghost use Rattle.stock.specs.Refused.{told};

use crate::refused::{Reason, Refused};

// The sum of the counts, or 65 where it is more: a sum that is cut off, and no Option, since its callers hold it against 64 or a length.
pub fn blocks(stock: &[u16]) -> usize
    ensures { result ≡ min 65 (sum stock.now) }
{
    let mut sum: usize = 0;
    for count in stock {
        sum += *count as usize;
        if 64 < sum {
            return 65;
        }
    }
    sum
}

// The first refusal of a stock: 1, 2, 3.
pub fn check_stock(stock: &[u16]) -> Result<(), Refused>
    ensures { told result ≡ first_of (stock_nos stock.now) }
{
    let kinds = stock.len();
    if kinds == 0 || 16 < kinds {
        return Err(Reason::Kinds.at(0));
    }
    let last = stock[kinds - 1];
    let n = blocks(stock);
    if last == 0 {
        return Err(Reason::LastZero.at(kinds));
    }
    if 64 < n {
        return Err(Reason::Long.at(0));
    }
    Ok(())
}

// The first refusal of a stock and a buffer for a strip of it: 1, 2, 3, then 4.
pub fn check_buffer(stock: &[u16], buffer: &[u8]) -> Result<(), Refused>
    ensures { told result ≡ first_of (buffer_nos stock.now buffer.now) }
{
    check_stock(stock)?;
    if buffer.len() != blocks(stock) {
        return Err(Reason::Length.at(0));
    }
    Ok(())
}
