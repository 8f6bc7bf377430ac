// First: strip 0 of the book, the kinds one after the other.
ghost use Rattle.std.specs.Prelude.{◌≡◌, [], length, get_or};
ghost use Rattle.rules.specs.Stock.{sum, IsStock};
ghost use Rattle.rules.specs.Book.{book};
ghost use Rattle.rules.specs.Refusals.{first_of, buffer_nos};
ghost use Rattle.stock.specs.Refused.{told};
ghost use Rattle.counting.specs.Answers.{first_answer, first_after};

use stock::{Refusal, Refused, check_buffer};

// The kinds one after the other, each on as many places as its count says.
fn lay_runs(stock: &[u16], strip: &mut [u8])
    requires { IsStock stock.now × (length strip.old ≡ sum stock.now) }
    ensures { strip.new ≡ get_or (book stock.now) 0 [] }
{
    let mut from: usize = 0;
    for (j, count) in stock.iter().enumerate() {
        let to = from + usize::from(*count);
        let kind = j + 1;
        strip[from..to].fill(kind as u8);
        from = to;
    }
}

// Lays strip 0 where the stock is accepted and the buffer has its length.
fn lay_first(stock: &[u16], buffer: &mut [u8]) -> Result<(), Refused>
    ensures { (told result ≡ first_of (buffer_nos stock.now buffer.old)) × (buffer.new ≡ first_after stock.now buffer.old) }
{
    check_buffer(stock, buffer)?;
    lay_runs(stock, buffer);
    Ok(())
}

// Writes strip 0 into a buffer of n bytes.
pub fn first(stock: &[u16], buffer: &mut [u8]) -> Refusal
    ensures { (result ≡ first_answer stock.now buffer.old) × (buffer.new ≡ first_after stock.now buffer.old) }
{
    lay_first(stock, buffer).into()
}
