// The records of a sheet. Each is written at the front of the rest of a sheet, and the bytes behind it stay.
ghost use Rattle.std.specs.Prelude.{suc, ◌≤◌, ◌<◌, ◌≡◌, ◌∷◌, ◌++◌, length, drop};
ghost use Rattle.rules.specs.Stock.{IsStock};
ghost use Rattle.sheets.specs.Sheets.{stock_record, strip_record, end_record};

use crate::Record;
use copying::{copied, copy};

// A record: one byte of kind, then the body. Any byte is taken for a kind, so that a caller is asked for no more than room.
pub fn put_record(rest: &mut [u8], kind: u8, body: &[u8])
    requires { length body.now < length rest.old }
    ensures { rest.new ≡ (kind ∷ body.now) ++ drop (suc (length body.now)) rest.old }
{
    rest[0] = kind;
    copy(body, &mut rest[1..]);
}

// The stock: 16 bytes of counts, zero after its last kind.
pub fn put_stock(rest: &mut [u8], stock: &[u16])
    requires { IsStock stock.now × (17 ≤ length rest.old) }
    ensures { rest.new ≡ stock_record stock.now ++ drop 17 rest.old }
{
    let mut body: [u8; 16] = [0; 16];
    for (i, count) in stock.iter().enumerate() {
        body[i] = *count as u8;
    }
    put_record(rest, Record::Stock as u8, &body);
}

// The strip: 64 bytes, zero after its last place.
pub fn put_strip(rest: &mut [u8], strip: &[u8])
    requires { (length strip.now ≤ 64) × (65 ≤ length rest.old) }
    ensures { rest.new ≡ strip_record strip.now ++ drop 65 rest.old }
{
    put_record(rest, Record::Strip as u8, &copied(strip));
}

// The two records before the moves.
pub fn put_opening(rest: &mut [u8], stock: &[u16], strip: &[u8])
    requires { IsStock stock.now × (length strip.now ≤ 64) × (82 ≤ length rest.old) }
    ensures { rest.new ≡ (stock_record stock.now ++ strip_record strip.now) ++ drop 82 rest.old }
{
    put_stock(rest, stock);
    put_strip(&mut rest[17..], strip);
}

// A move: two places, smaller first.
pub fn put_move(rest: &mut [u8], low: u8, high: u8)
    requires { 3 ≤ length rest.old }
    ensures { rest.new ≡ 3 ∷ low ∷ high ∷ drop 3 rest.old }
{
    put_record(rest, Record::Move as u8, &[low, high]);
}

// The end: no body.
pub fn put_end(rest: &mut [u8])
    requires { 1 ≤ length rest.old }
    ensures { rest.new ≡ end_record ++ drop 1 rest.old }
{
    put_record(rest, Record::End as u8, &[]);
}
