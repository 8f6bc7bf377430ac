// Rebuilding a sheet whose stock and strip records are sound.
ghost use Rattle.std.specs.Prelude.{◌≡◌};
ghost use Rattle.rebuilding.specs.Rebuilding.{rebuild_answer, rebuild_out};
ghost use Rattle.rebuilding.specs.Parts.{Sound};
ghost use Rattle.rebuilding.specs.Told.{told_rebuilt};

use crate::Rebuilt;
use crate::differing::{Found, differ};
use records::opening::opening_at;
use stock::{Reason, Refused};
use walker::directions::walker_of;
use writing::room::has_room;
use writing::sheet_moves::moves_up_to;
use writing::whole::put_sheet;

// What is said of the proper sheet that is written: its moves, and which of their records differ from the damaged one.
#[derive(Clone, Copy)]
pub struct Proper {
    pub moves: u64,
    pub found: Found,
}

// The proper sheet of the stock and the strip that the damaged one holds, at the front of the second buffer. Nothing is written before it is known
// that there is room.
fn rebuild_from(
    sheet: &[u8],
    stock: &[u16],
    strip: &[u8],
    out: &mut [u8],
) -> Result<Proper, Refused>
    requires { Sound sheet.now stock.now strip.now }
    ensures { (told_rebuilt result ≡ rebuild_answer sheet.now out.old) × (out.new ≡ rebuild_out sheet.now out.old) }
{
    let most = (sheet.len() - 82) / 3;
    let walker = walker_of(stock, strip);
    let moves = moves_up_to(stock, strip, walker, most);
    if !has_room(out.len(), moves as u64) {
        return Err(Reason::Room.at(0));
    }
    put_sheet(out, stock, strip, walker, moves);
    let length = 83 + 3 * moves;
    let found = differ(&out[..length], sheet, moves);
    Ok(Proper {
        moves: moves as u64,
        found,
    })
}

// The same of any damaged sheet, whose length and first two records are looked at first.
fn check_and_rebuild(sheet: &[u8], out: &mut [u8]) -> Result<Proper, Refused>
    ensures { (told_rebuilt result ≡ rebuild_answer sheet.now out.old) × (out.new ≡ rebuild_out sheet.now out.old) }
{
    if sheet.len() < 82 {
        return Err(Reason::Record.at(0));
    }
    let opening = opening_at(sheet, 0)?;
    rebuild_from(sheet, opening.stock(), opening.strip(), out)
}

// Rebuilds a damaged sheet, which is only read, in a second buffer.
pub fn rebuild(sheet: &[u8], out: &mut [u8]) -> Rebuilt
    ensures { (result ≡ rebuild_answer sheet.now out.old) × (out.new ≡ rebuild_out sheet.now out.old) }
{
    check_and_rebuild(sheet, out).into()
}
