// Following the records of a sheet to its end.
ghost use Rattle.std.specs.Prelude.{◌+◌, ◌<◌, ◌≡◌, [], length, drop};
ghost use Rattle.rules.specs.Stock.{IsStock, IsStrip};
ghost use Rattle.stock.specs.Refused.{told};
ghost use Rattle.walking.specs.Checked.{Checked};
ghost use Rattle.following.specs.Editions.{has_strides};
ghost use Rattle.following.specs.Following.{ended, follow};
ghost use Rattle.following.specs.Ends.{Ends};

use crate::Edition;
use crate::record::{END, take_records};
use stock::{Reason, Refused};
use walker::Walker;
use walker::directions::walker_of;

// The end at a byte: nothing may follow.
fn check_end(sheet: &[u8], at: usize) -> Result<(), Refused>
    requires { at < length sheet.now }
    ensures { told result ≡ (ended [] at (drop (at + 1) sheet.now)).no }
{
    let next = at + 1;
    if next < sheet.len() {
        return Err(Reason::Record.at(next));
    }
    Ok(())
}

// Follows the records from a byte on, with strides in edition 2: each goes on from where the strip then stands, then the end. Answers their moves.
fn follow_on(
    sheet: &[u8],
    from: usize,
    stock: &[u16],
    strip: &mut [u8],
    walker: Walker,
    edition: Edition,
) -> Result<u64, Refused>
    requires { Checked stock.now strip.old walker }
    ensures { Ends (follow (has_strides edition) stock.now strip.old from (drop from sheet.now)) result strip.new }
{
    let mut walker = walker;
    let mut at = from;
    let mut moves: u64 = 0;
    // The byte goes on by the bytes of what is taken there, so no iterator is plainer.
    while at < sheet.len() {
        if sheet[at] == END {
            check_end(sheet, at)?;
            return Ok(moves);
        }
        let taken = take_records(sheet, at, stock, strip, walker, edition)?;
        walker = taken.walker;
        at += taken.bytes;
        moves += taken.moves;
    }
    Err(Reason::Record.at(at))
}

// The same from a strip whose walker is not known yet.
pub fn follow_from(
    sheet: &[u8],
    from: usize,
    stock: &[u16],
    strip: &mut [u8],
    edition: Edition,
) -> Result<u64, Refused>
    requires { IsStock stock.now × IsStrip stock.now strip.old }
    ensures { Ends (follow (has_strides edition) stock.now strip.old from (drop from sheet.now)) result strip.new }
{
    let walker = walker_of(stock, strip);
    follow_on(sheet, from, stock, strip, walker, edition)
}
