// Number: the strip's place in the book of its stock, and the cuts for all its kinds.
ghost use Rattle.std.specs.Prelude.{◌≡◌, IfOk};
ghost use Rattle.rules.specs.Book.{book, place_in};
ghost use Rattle.rules.specs.Refusals.{first_of};
ghost use Rattle.cuts.specs.Cuts.{strip_cuts};
ghost use Rattle.stock.specs.Refused.{told};
ghost use Rattle.numbering.specs.Answers.{number_nos, number_answer};

use crate::numbers::{Placed, number_of};
use counting::{patterns_of, total_of};
use stock::{Reason, Refusal, Refused, check_strip};

// What Number answers.
#[repr(C)]
#[derive(Clone, Copy)]
pub struct Numbered {
    pub refusal: Refusal,
    pub number: u64,
    pub cuts: u64,
}

// The place and the cuts of a strip that is accepted, where its book can be numbered.
fn placed(stock: &[u16], strip: &[u8]) -> Result<Placed, Refused>
    ensures { (told result ≡ first_of (number_nos stock.now strip.now)) × IfOk result (λ p. (p.number ≡ place_in (book stock.now) strip.now) × (p.cuts ≡ strip_cuts stock.now strip.now)) }
{
    check_strip(stock, strip)?;
    let patterns = patterns_of(stock);
    total_of(&patterns, stock).ok_or(Reason::Many)?;
    Ok(number_of(&patterns, stock, strip))
}

// The strip's place in the book of its stock, and the cuts for all its kinds.
pub fn number(stock: &[u16], strip: &[u8]) -> Numbered
    ensures { result ≡ number_answer stock.now strip.now }
{
    match placed(stock, strip) {
        Ok(found) => Numbered {
            refusal: Refusal::NONE,
            number: found.number,
            cuts: u64::from(found.cuts),
        },
        Err(refused) => Numbered {
            refusal: refused.into(),
            number: 0,
            cuts: 0,
        },
    }
}
