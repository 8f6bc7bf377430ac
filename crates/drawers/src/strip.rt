// The strip of a dictionary number.
ghost use Rattle.std.specs.Prelude.{◌≡◌};
ghost use Rattle.rules.specs.Refusals.{first_of};
ghost use Rattle.stock.specs.Refused.{told};
ghost use Rattle.numbering.specs.Answers.{by_number_nos};
ghost use Rattle.drawers.specs.Answers.{dictionary_strip_answer, dictionary_strip_after};

use counting::{check_number, patterns_of, total_of};
use entries::strip_at;
use stock::{Refusal, Refused, check_buffer};

// Lays the strip of a number where the stock is accepted, the buffer has its length and its dictionary has the number. There is a total where 7 does not
// refuse.
fn lay_entry(stock: &[u16], number: u64, buffer: &mut [u8]) -> Result<(), Refused>
    ensures { (told result ≡ first_of (by_number_nos stock.now number buffer.old)) × (buffer.new ≡ dictionary_strip_after stock.now number buffer.old) }
{
    check_buffer(stock, buffer)?;
    let strips = total_of(&patterns_of(stock), stock);
    check_number(stock, strips, number)?;
    strip_at(stock, strips.unwrap(), number, buffer);
    Ok(())
}

// Writes the strip of a dictionary number into a buffer of n bytes.
pub fn dictionary_strip(stock: &[u16], number: u64, buffer: &mut [u8]) -> Refusal
    ensures { (result ≡ dictionary_strip_answer stock.now number buffer.old) × (buffer.new ≡ dictionary_strip_after stock.now number buffer.old) }
{
    lay_entry(stock, number, buffer).into()
}
