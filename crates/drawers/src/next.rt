// The next strip in dictionary order.
ghost use Rattle.std.specs.Prelude.{◌≡◌};
ghost use Rattle.rules.specs.Refusals.{first_of};
ghost use Rattle.stock.specs.Refused.{told};
ghost use Rattle.drawers.specs.Answers.{dictionary_next_nos, dictionary_next_answer, dictionary_next_after};

use stock::{Reason, Refusal, Refused, check_strip};
use succession::next_entry;

// A strip that is accepted becomes the next one, where it is not the last.
fn step(stock: &[u16], strip: &mut [u8]) -> Result<(), Refused>
    ensures { (told result ≡ first_of (dictionary_next_nos stock.now strip.old)) × (strip.new ≡ dictionary_next_after stock.now strip.old) }
{
    check_strip(stock, strip)?;
    if !next_entry(strip) {
        return Err(Reason::NoMove.at(0));
    }
    Ok(())
}

// The strip becomes the next one in dictionary order.
pub fn dictionary_next(stock: &[u16], strip: &mut [u8]) -> Refusal
    ensures { (result ≡ dictionary_next_answer stock.now strip.old) × (strip.new ≡ dictionary_next_after stock.now strip.old) }
{
    step(stock, strip).into()
}
