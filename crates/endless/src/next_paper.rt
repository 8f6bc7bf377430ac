// Stepping through the papers of a stock.
ghost use Rattle.std.specs.Prelude.{◌≡◌};
ghost use Rattle.endless.specs.Answers.{next_paper_answer, next_paper_after};
ghost use Rattle.endless.specs.Inner.{stepped};

use crate::seek::seek;
use copying::{copied, copy};
use searching::{Ended, Outcome};
use stock::{Refusal, Refused, check_strip};

// How the stepping ended: 1 found, 2 none left, 3 stopped; and the steps made.
#[repr(C)]
#[derive(Clone, Copy)]
pub struct Stepped {
    pub refusal: Refusal,
    pub outcome: u8,
    pub steps: u64,
}

// The strip of an accepted stock becomes the next later standing strip, if that is found within the given steps.
fn step_on(stock: &[u16], strip: &mut [u8], given: u64) -> Result<Ended, Refused>
    ensures { (stepped result ≡ next_paper_answer stock.now strip.old given) × (strip.new ≡ next_paper_after stock.now strip.old given) }
{
    check_strip(stock, strip)?;
    let n = strip.len();
    let mut word = copied(strip);
    let ended = seek(&mut word[..n], given);
    if ended.outcome == Outcome::Found {
        copy(&word[..n], strip);
    }
    Ok(ended)
}

// The strip becomes the next later standing strip, if that is found within the given steps.
pub fn next_paper(stock: &[u16], strip: &mut [u8], given: u64) -> Stepped
    ensures { (result ≡ next_paper_answer stock.now strip.old given) × (strip.new ≡ next_paper_after stock.now strip.old given) }
{
    match step_on(stock, strip, given) {
        Ok(ended) => Stepped {
            refusal: Refusal::NONE,
            outcome: ended.outcome.number(),
            steps: ended.steps,
        },
        Err(refused) => Stepped {
            refusal: refused.into(),
            outcome: 0,
            steps: 0,
        },
    }
}
