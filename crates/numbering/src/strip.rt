// Strip: the strip of a number in the book of a stock.
ghost use Rattle.std.specs.Prelude.{◌≡◌};
ghost use Rattle.rules.specs.Refusals.{first_of};
ghost use Rattle.stock.specs.Refused.{told};
ghost use Rattle.numbering.specs.Answers.{by_number_nos, strip_answer, strip_after};

use crate::strips::strip_of;
use counting::{check_number, patterns_of, total_of};
use stock::{Refusal, Refused, check_buffer};

// Lays the strip of a number where the stock is accepted, the buffer has its length and its book has the number.
fn lay_numbered(stock: &[u16], number: u64, buffer: &mut [u8]) -> Result<(), Refused>
    ensures { (told result ≡ first_of (by_number_nos stock.now number buffer.old)) × (buffer.new ≡ strip_after stock.now number buffer.old) }
{
    check_buffer(stock, buffer)?;
    let patterns = patterns_of(stock);
    check_number(stock, total_of(&patterns, stock), number)?;
    strip_of(&patterns, stock, number, buffer);
    Ok(())
}

// Writes the strip of a number into a buffer of n bytes.
pub fn strip(stock: &[u16], number: u64, buffer: &mut [u8]) -> Refusal
    ensures { (result ≡ strip_answer stock.now number buffer.old) × (buffer.new ≡ strip_after stock.now number buffer.old) }
{
    lay_numbered(stock, number, buffer).into()
}
