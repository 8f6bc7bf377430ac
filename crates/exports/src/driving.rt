// The press driver's entry point: a move over a lent walker, which the driver finds moved. It calls the move by value and stores the walker that it gives.
ghost use Rattle.std.specs.Prelude.{◌≡◌};
ghost use Rattle.walking.specs.Answers.{move_answer, move_strip};

use walker::Walker;
use walking::Moved;
use walking::walk::walk;

pub fn nelfrupi_drive(stock: &[u16], strip: &mut [u8], walker: &mut Walker, back: bool) -> Moved
    ensures { (result ≡ move_answer back stock.now strip.old walker.old) × (strip.new ≡ move_strip back stock.now strip.old walker.old) × (walker.new ≡ result.walker) }
{
    let m = walk(stock, strip, *walker, back);
    *walker = m.walker;
    m
}
