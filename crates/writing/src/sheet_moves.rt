// The moves of a sheet: the lent strip walks on, and so does its walker.
ghost use Rattle.std.specs.Prelude.{min, ◌*◌, ◌≤◌, ◌≡◌, ◌++◌, length, drop};
ghost use Rattle.walking.specs.Answers.{left};
ghost use Rattle.walking.specs.Checked.{Checked};
ghost use Rattle.sheets.specs.Sheets.{move_records};

use copying::copied;
use sheets::records::put_move;
use walker::Walker;
use walking::stepping::step;

// The moves that a lent strip makes, so many or those that are left if fewer. How many are left may not fit 64 bits, so the strip walks them.
fn walk_up_to(stock: &[u16], strip: &mut [u8], walker: Walker, most: usize) -> usize
    requires { Checked stock.now strip.old walker }
    ensures { result ≡ min most (left stock.now strip.old) }
{
    let mut walker = walker;
    for moves in 0..most {
        let Some(made) = step(stock, strip, walker, false) else {
            return moves;
        };
        walker = made.walker;
    }
    most
}

// So many moves on from a strip, or those that are left if fewer. A copy of the strip walks.
pub fn moves_up_to(stock: &[u16], strip: &[u8], walker: Walker, most: usize) -> usize
    requires { Checked stock.now strip.now walker }
    ensures { result ≡ min most (left stock.now strip.now) }
{
    let mut word = copied(strip);
    walk_up_to(stock, &mut word[..strip.len()], walker, most)
}

// The records of so many moves on, each in the rest behind the last.
pub fn put_moves(rest: &mut [u8], stock: &[u16], strip: &mut [u8], walker: Walker, moves: usize)
    requires { Checked stock.now strip.old walker × (moves ≤ left stock.now strip.old) × (3 * moves ≤ length rest.old) }
    ensures { rest.new ≡ move_records stock.now strip.old moves ++ drop (3 * moves) rest.old }
{
    let mut walker = walker;
    for listed in 0..moves {
        let Some(made) = step(stock, strip, walker, false) else {
            return;
        };
        put_move(&mut rest[3 * listed..], made.low, made.high);
        walker = made.walker;
    }
}
