// The records of a sheet: whether one stands at a byte, and what is in its body.
ghost use Rattle.std.specs.Prelude.{◌+◌, ◌≤◌, ◌≡◌, length, take, drop, replicate};
ghost use Rattle.rules.specs.Book.{same};
ghost use Rattle.rules.specs.SoldOut.{used};
ghost use Rattle.stock.specs.Refused.{told};
ghost use Rattle.records.specs.Records.{record_no};

use sheets::Record;
use std::array;
use stock::{Reason, Refused};

// The kinds of the two records.
pub const STOCK: u8 = Record::Stock as u8;

pub const STRIP: u8 = Record::Strip as u8;

// Refusal 11 where the record at a byte is not of this kind or its body is cut short.
pub fn check_record(sheet: &[u8], at: usize, kind: u8, body: usize) -> Result<(), Refused>
    ensures { told result ≡ record_no kind body at sheet.now }
{
    if sheet.len() <= at || sheet[at] != kind || sheet.len() - at <= body {
        return Err(Reason::Record.at(at));
    }
    Ok(())
}

// The sixteen counts from a byte on.
pub fn counts_at(sheet: &[u8], at: usize) -> [u16; 16]
    requires { at + 16 ≤ length sheet.now }
    ensures { result ≡ take 16 (drop at sheet.now) }
{
    array::from_fn(|i| u16::from(sheet[at + i]))
}

// How many kinds the counts have, to the last one that is not 0.
pub fn used_kinds(counts: &[u16]) -> usize
    ensures { result ≡ length (used counts.now) }
{
    let last = counts.iter().rposition(|count| *count != 0);
    last.map_or(0, |last| last + 1)
}

// Whether all bytes are 0.
pub fn all_zero(bytes: &[u8]) -> bool
    ensures { result ≡ same bytes.now (replicate (length bytes.now) 0) }
{
    bytes.iter().all(|byte| *byte == 0)
}
