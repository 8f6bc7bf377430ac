// A whole sheet.
ghost use Rattle.std.specs.Prelude.{◌+◌, ◌*◌, ◌≤◌, ◌≡◌, ◌++◌, length, drop};
ghost use Rattle.walking.specs.Answers.{left};
ghost use Rattle.walking.specs.Checked.{Checked};
ghost use Rattle.sheets.specs.Sheets.{sheet_of};

use crate::sheet_moves::put_moves;
use copying::copied;
use sheets::records::{put_end, put_opening};
use walker::Walker;

// The records in order, each in the rest of the sheet behind the last.
pub fn put_sheet(sheet: &mut [u8], stock: &[u16], strip: &[u8], walker: Walker, moves: usize)
    requires { Checked stock.now strip.now walker × (moves ≤ left stock.now strip.now) × (83 + 3 * moves ≤ length sheet.old) }
    ensures { sheet.new ≡ sheet_of stock.now strip.now moves ++ drop (83 + 3 * moves) sheet.old }
{
    put_opening(sheet, stock, strip);
    let mut word = copied(strip);
    put_moves(
        &mut sheet[82..],
        stock,
        &mut word[..strip.len()],
        walker,
        moves,
    );
    put_end(&mut sheet[82 + 3 * moves..]);
}
