// The strip that stands for a paper.
ghost use Rattle.std.specs.Prelude.{◌≡◌};
ghost use Rattle.endless.specs.Answers.{stand_answer, stand_after};
ghost use Rattle.endless.specs.Inner.{stood};

use hanging::{Hanging, hang, least_hanging};
use stock::{Refusal, Refused, check_strip};

// Whether a strip was reversed, and by how many places it was then turned.
#[repr(C)]
#[derive(Clone, Copy)]
pub struct Stood {
    pub refusal: Refusal,
    pub turn: u64,
    pub reversed: bool,
}

// The strip of an accepted stock becomes the one that stands for its paper.
fn hang_standing(stock: &[u16], strip: &mut [u8]) -> Result<Hanging, Refused>
    ensures { (stood result ≡ stand_answer stock.now strip.old) × (strip.new ≡ stand_after stock.now strip.old) }
{
    check_strip(stock, strip)?;
    let least = least_hanging(strip);
    hang(strip, least);
    Ok(least)
}

// The strip becomes the one that stands for its paper.
pub fn stand(stock: &[u16], strip: &mut [u8]) -> Stood
    ensures { (result ≡ stand_answer stock.now strip.old) × (strip.new ≡ stand_after stock.now strip.old) }
{
    match hang_standing(stock, strip) {
        Ok(hung) => Stood {
            refusal: Refusal::NONE,
            turn: hung.turn as u64,
            reversed: hung.reversed,
        },
        Err(refused) => Stood {
            refusal: refused.into(),
            turn: 0,
            reversed: false,
        },
    }
}
