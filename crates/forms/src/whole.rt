// The whole sheet of one stride.
ghost use Rattle.std.specs.Prelude.{◌≤◌, ◌≡◌, ◌++◌, length, drop};
ghost use Rattle.rules.specs.Stock.{IsStock};
ghost use Rattle.sheets.specs.Sheets.{stock_record, strip_record, end_record};
ghost use Rattle.strides.specs.Strides.{stride_record};

use sheets::records::{put_end, put_opening};
use strides::bytes::put_stride;

// The records in order, each in the rest of the sheet behind the last.
pub fn put_strided(sheet: &mut [u8], stock: &[u16], strip: &[u8], moves: u64)
    requires { IsStock stock.now × (length strip.now ≤ 64) × (92 ≤ length sheet.old) }
    ensures { sheet.new ≡ (stock_record stock.now ++ (strip_record strip.now ++ (stride_record moves ++ end_record))) ++ drop 92 sheet.old }
{
    put_opening(sheet, stock, strip);
    put_stride(&mut sheet[82..], moves);
    put_end(&mut sheet[91..]);
}
