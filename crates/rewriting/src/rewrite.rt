// Rewriting a right sheet: it is read to its end, and then written in its one form.
ghost use Rattle.std.specs.Prelude.{◌≡◌};
ghost use Rattle.stock.specs.Refused.{answered};
ghost use Rattle.sheets.specs.Writing.{as_written};
ghost use Rattle.rewriting.specs.Rewriting.{rewrite_answer, rewrite_out};

use following::Edition;
use forms::long::write_form;
use reading::reader::read_whole;
use records::opening::opening_at;
use sheets::Written;
use stock::Refused;

// The one form of a sheet's stock, strip and moves, at the front of a second buffer; answers its length. The final strip that reading gives is not
// needed.
fn read_and_write(sheet: &[u8], out: &mut [u8]) -> Result<u64, Refused>
    ensures { (answered as_written 0 result ≡ rewrite_answer sheet.now out.old) × (out.new ≡ rewrite_out sheet.now out.old) }
{
    let mut last: [u8; 64] = [0; 64];
    let moves = read_whole(sheet, &mut last, Edition::Second)?;
    let opening = opening_at(sheet, 0)?;
    write_form(opening.stock(), opening.strip(), moves, out)
}

// The same, as C is told of it.
pub fn rewrite(sheet: &[u8], out: &mut [u8]) -> Written
    ensures { (result ≡ rewrite_answer sheet.now out.old) × (out.new ≡ rewrite_out sheet.now out.old) }
{
    read_and_write(sheet, out).into()
}
