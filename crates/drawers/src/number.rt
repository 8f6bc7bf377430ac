// The dictionary number of a strip.
ghost use Rattle.std.specs.Prelude.{◌≡◌};
ghost use Rattle.stock.specs.Refused.{answered};
ghost use Rattle.drawers.specs.Answers.{as_filed, dictionary_number_answer};

use crate::Filed;
use entries::entry_of;
use stock::{Reason, Refused, check_strip};

// The place of a strip that is accepted, where its dictionary can be numbered.
fn place_of(stock: &[u16], strip: &[u8]) -> Result<u64, Refused>
    ensures { answered as_filed 0 result ≡ dictionary_number_answer stock.now strip.now }
{
    check_strip(stock, strip)?;
    match entry_of(stock, strip) {
        Some(entry) => Ok(entry.number),
        None => Err(Reason::Many.at(0)),
    }
}

// The strip's place in the dictionary of its stock.
pub fn dictionary_number(stock: &[u16], strip: &[u8]) -> Filed
    ensures { result ≡ dictionary_number_answer stock.now strip.now }
{
    place_of(stock, strip).into()
}
