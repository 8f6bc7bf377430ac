// Next apart: the next later strip of the book with no two of a kind touching.
ghost use Rattle.std.specs.Prelude.{◌≡◌};
ghost use Rattle.spacing.specs.Answers.{next_apart_answer, next_apart_after};
ghost use Rattle.spacing.specs.Seeking.{spaced};

use crate::seek::seek;
use copying::{copied, copy};
use searching::{Ended, Outcome};
use stock::{Refusal, Refused};
use walker::Walker;
use walker::check::check_walker;

// How the search ended: 1 found, 2 none, 3 stopped; the moves made, and the walker of the strip as it then stands.
#[repr(C)]
#[derive(Clone, Copy)]
pub struct Spaced {
    pub refusal: Refusal,
    pub outcome: u8,
    pub moves: u64,
    pub walker: Walker,
}

// The strip of an accepted stock becomes the next later one with no two of a kind touching, if that is found within the given moves; and its walker, which
// else is the one that was lent.
fn move_on(
    stock: &[u16],
    strip: &mut [u8],
    walker: Walker,
    endless: bool,
    given: u64,
) -> Result<(Ended, Walker), Refused>
    ensures { (spaced walker result ≡ next_apart_answer endless stock.now strip.old walker given) × (strip.new ≡ next_apart_after endless stock.now strip.old walker given) }
{
    check_walker(stock, strip, walker)?;
    let n = strip.len();
    let mut word = copied(strip);
    let mut there = walker;
    let ended = seek(stock, &mut word[..n], &mut there, endless, given);
    if ended.outcome != Outcome::Found {
        return Ok((ended, walker));
    }
    copy(&word[..n], strip);
    Ok((ended, there))
}

// The strip becomes the next later one with no two of a kind touching, if that is found within the given moves. On an endless paper the last place
// touches the first.
pub fn next_apart(
    stock: &[u16],
    strip: &mut [u8],
    walker: Walker,
    endless: bool,
    given: u64,
) -> Spaced
    ensures { (result ≡ next_apart_answer endless stock.now strip.old walker given) × (strip.new ≡ next_apart_after endless stock.now strip.old walker given) }
{
    match move_on(stock, strip, walker, endless, given) {
        Ok((ended, there)) => Spaced {
            refusal: Refusal::NONE,
            outcome: ended.outcome.number(),
            moves: ended.steps,
            walker: there,
        },
        Err(refused) => Spaced {
            refusal: refused.into(),
            outcome: 0,
            moves: 0,
            walker,
        },
    }
}
