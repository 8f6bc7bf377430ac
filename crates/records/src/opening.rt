// The records before the moves: one stock, one strip.
ghost use Rattle.std.specs.Prelude.{◌≤◌, ◌≡◌, length, take, IfOk};
ghost use Rattle.rules.specs.Stock.{IsStock};
ghost use Rattle.rules.specs.Refusals.{first_of};
ghost use Rattle.stock.specs.Refused.{told};
ghost use Rattle.records.specs.Opened.{stock_at, strip_at, stock_at_nos, strip_at_nos, Opened};

use crate::Opening;
use crate::bodies::{STOCK, STRIP, all_zero, check_record, counts_at, used_kinds};
use copying::copied;
use stock::{Reason, Refused, blocks, check_stock, check_strip_only};

// The counts of the stock record at a byte and how many of them are used, or the first refusal of the record: 11, then 1, 2, 3.
fn read_stock(sheet: &[u8], at: usize) -> Result<([u16; 16], usize), Refused>
    ensures refused { told result ≡ first_of (stock_at_nos at sheet.now) }
    ensures held { IfOk result (λ p. (p.1 ≤ length p.0) × (take p.1 p.0 ≡ stock_at at sheet.now)) }
{
    check_record(sheet, at, STOCK, 16)?;
    let counts = counts_at(sheet, at + 1);
    let kinds = used_kinds(&counts);
    check_stock(&counts[..kinds])?;
    Ok((counts, kinds))
}

// The strip of this stock in the strip record at a byte, or the first refusal of the record: 11, then 5, 6, then padding.
fn read_strip<'a>(sheet: &'a [u8], at: usize, stock: &[u16]) -> Result<&'a [u8], Refused>
    requires { IsStock stock.now }
    ensures refused { told result ≡ first_of (strip_at_nos stock.now at sheet.now) }
    ensures held { IfOk result (λ strip. strip.now ≡ strip_at stock.now at sheet.now) }
{
    check_record(sheet, at, STRIP, 64)?;
    let body = &sheet[at + 1..at + 65];
    let (strip, padding) = body.split_at(blocks(stock));
    check_strip_only(stock, strip)?;
    if !all_zero(padding) {
        return Err(Reason::Record.at(at));
    }
    Ok(strip)
}

// The stock and the strip of the two records at a byte, or the first refusal of the stock record, then of the strip record after it.
pub fn opening_at(sheet: &[u8], at: usize) -> Result<Opening, Refused>
    ensures { Opened at sheet.now result }
{
    let (counts, kinds) = read_stock(sheet, at)?;
    let strip = read_strip(sheet, at + 17, &counts[..kinds])?;
    Ok(Opening {
        counts,
        kinds,
        strip: copied(strip),
        blocks: strip.len(),
    })
}
