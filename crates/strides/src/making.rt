// Making a stride: so many moves on that are not listed.
ghost use Rattle.rules.specs.Stock.{IsStock, IsStrip};
ghost use Rattle.strides.specs.Strode.{Strode};

use crate::ahead::look_ahead;
use numbering::strip::strip;
use stock::Reason;

// Makes so many moves on from a lent strip at once, by its number.
pub fn stride_on(stock: &[u16], lent: &mut [u8], moves: u64) -> Result<(), Reason>
    requires { IsStock stock.now × IsStrip stock.now lent.old }
    ensures { Strode stock.now lent.old moves result lent.new }
{
    let number = look_ahead(stock, lent, moves)?;
    strip(stock, number, lent);
    Ok(())
}
