// Writing a sheet of edition 2 in its one form.
ghost use Rattle.std.specs.Prelude.{◌≡◌};
ghost use Rattle.rules.specs.Stock.{IsStock, IsStrip};
ghost use Rattle.stock.specs.Refused.{answered};
ghost use Rattle.sheets.specs.Writing.{as_written};
ghost use Rattle.forms.specs.Forms.{long_answer, long_sheet};

use crate::whole::put_strided;
use sheets::Written;
use stock::{Reason, Refused, check_strip};
use strides::ahead::look_ahead;
use writing::sheet::write_moves;

// The one form of a checked stock, strip and a count of moves, at the front of the lent sheet; answers its length. Single moves are written as
// edition 1 writes them; of a stride no move is walked.
pub fn write_form(stock: &[u16], strip: &[u8], moves: u64, sheet: &mut [u8]) -> Result<u64, Refused>
    requires { IsStock stock.now × IsStrip stock.now strip.now }
    ensures { (answered as_written 0 result ≡ long_answer stock.now strip.now moves sheet.old) × (sheet.new ≡ long_sheet stock.now strip.now moves sheet.old) }
{
    if moves < 3 {
        return write_moves(stock, strip, moves, sheet);
    }
    let ahead = look_ahead(stock, strip, moves);
    if ahead == Err(Reason::Many) {
        return write_moves(stock, strip, moves, sheet);
    }
    if sheet.len() < 92 {
        return Err(Reason::Room.at(0));
    }
    if ahead.is_err() {
        return Err(Reason::NoMove.at(0));
    }
    put_strided(sheet, stock, strip, moves);
    Ok(92)
}

// The same for a stock and a strip that are checked first.
fn check_and_write(
    stock: &[u16],
    strip: &[u8],
    moves: u64,
    sheet: &mut [u8],
) -> Result<u64, Refused>
    ensures { (answered as_written 0 result ≡ long_answer stock.now strip.now moves sheet.old) × (sheet.new ≡ long_sheet stock.now strip.now moves sheet.old) }
{
    check_strip(stock, strip)?;
    write_form(stock, strip, moves, sheet)
}

// The same for any stock and strip, as C is told of it.
pub fn write_long(stock: &[u16], strip: &[u8], moves: u64, sheet: &mut [u8]) -> Written
    ensures { (result ≡ long_answer stock.now strip.now moves sheet.old) × (sheet.new ≡ long_sheet stock.now strip.now moves sheet.old) }
{
    check_and_write(stock, strip, moves, sheet).into()
}
