// Writing a sheet: a stock, a strip of it, and so many moves on.
ghost use Rattle.std.specs.Prelude.{◌≡◌};
ghost use Rattle.rules.specs.Stock.{IsStock, IsStrip};
ghost use Rattle.stock.specs.Refused.{answered};
ghost use Rattle.sheets.specs.Writing.{as_written, write_answer, sheet_written};

use crate::room::has_room;
use crate::sheet_moves::moves_up_to;
use crate::whole::put_sheet;
use sheets::Written;
use stock::{Reason, Refused, check_strip};
use walker::directions::walker_of;

// The sheet of a checked stock, strip and a count of moves, at the front of the lent one; answers its length. Nothing is written before it is known
// that all the moves are there, so that a refusal leaves the lent sheet as it was.
pub fn write_moves(
    stock: &[u16],
    strip: &[u8],
    moves: u64,
    sheet: &mut [u8],
) -> Result<u64, Refused>
    requires { IsStock stock.now × IsStrip stock.now strip.now }
    ensures { (answered as_written 0 result ≡ write_answer stock.now strip.now moves sheet.old) × (sheet.new ≡ sheet_written stock.now strip.now moves sheet.old) }
{
    if !has_room(sheet.len(), moves) {
        return Err(Reason::Room.at(0));
    }
    let walker = walker_of(stock, strip);
    let c = moves as usize;
    if moves_up_to(stock, strip, walker, c) < c {
        return Err(Reason::NoMove.at(0));
    }
    put_sheet(sheet, stock, strip, walker, c);
    Ok(83 + 3 * moves)
}

// The same for a stock and a strip that are checked first.
fn check_and_write(
    stock: &[u16],
    strip: &[u8],
    moves: u64,
    sheet: &mut [u8],
) -> Result<u64, Refused>
    ensures { (answered as_written 0 result ≡ write_answer stock.now strip.now moves sheet.old) × (sheet.new ≡ sheet_written stock.now strip.now moves sheet.old) }
{
    check_strip(stock, strip)?;
    write_moves(stock, strip, moves, sheet)
}

// The same for any stock and strip, as C is told of it.
pub fn write_sheet(stock: &[u16], strip: &[u8], moves: u64, sheet: &mut [u8]) -> Written
    ensures { (result ≡ write_answer stock.now strip.now moves sheet.old) × (sheet.new ≡ sheet_written stock.now strip.now moves sheet.old) }
{
    check_and_write(stock, strip, moves, sheet).into()
}
