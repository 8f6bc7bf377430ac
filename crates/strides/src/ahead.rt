// Looking ahead: whether so many moves on from a strip are there for a stride, and where they lead.
ghost use Rattle.rules.specs.Stock.{IsStock, IsStrip};
ghost use Rattle.strides.specs.Strode.{Sees};

use counting::{patterns_of, total_of};
use numbering::number_of;
use stock::Reason;

// Looks so many moves ahead of a strip, for the number of the strip that a stride leads to: 17 for a number below 2, then 7, then 12 if that passes
// the last strip.
pub fn look_ahead(stock: &[u16], strip: &[u8], moves: u64) -> Result<u64, Reason>
    requires { IsStock stock.now × IsStrip stock.now strip.now }
    ensures { Sees stock.now strip.now moves result }
{
    if moves < 2 {
        return Err(Reason::Stride);
    }
    let patterns = patterns_of(stock);
    let Some(strips) = total_of(&patterns, stock) else {
        return Err(Reason::Many);
    };
    let here = number_of(&patterns, stock, strip).number;
    if strips - here <= moves {
        return Err(Reason::Astray);
    }
    Ok(here + moves)
}
