// The reader of a sheet, which keeps the lent sheet and its own place in one record. The functions over it are thin: each takes it apart and
// hands the sheet and the place to a function over a slice and a byte.
ghost use Rattle.std.specs.Prelude.{◌≡◌, true, false, drop};
ghost use Rattle.rules.specs.Stock.{IsStock, IsStrip};
ghost use Rattle.stock.specs.Refused.{answered};
ghost use Rattle.records.specs.Opened.{Opened};
ghost use Rattle.following.specs.Editions.{has_strides};
ghost use Rattle.following.specs.Ends.{Ends};
ghost use Rattle.following.specs.Following.{as_readout, follow};
ghost use Rattle.reading.specs.Reading.{read_answer, read_buffer};

use copying::copy;
use following::sheet_moves::follow_from;
use following::{Edition, Readout};
use records::Opening;
use records::opening::opening_at;
use stock::{Reason, Refused};

#[derive(Clone, Copy)]
pub struct Reader<'a> {
    pub sheet: &'a [u8],
    pub at: usize,
}

impl Reader<'_> {
    // The stock and the strip of the records at the reader's place.
    fn opening(self) -> Result<Opening, Refused>
        ensures { Opened self.entry.at self.entry.sheet.now result }
    {
        opening_at(self.sheet, self.at)
    }

    // Reads on from the reader's place to the end, and moves the strip on. Answers the moves.
    fn moves(self, stock: &[u16], strip: &mut [u8], edition: Edition) -> Result<u64, Refused>
        requires { IsStock stock.now × IsStrip stock.now strip.old }
        ensures { Ends (follow (has_strides edition) stock.now strip.old self.entry.at (drop self.entry.at self.entry.sheet.now)) result strip.new }
    {
        follow_from(self.sheet, self.at, stock, strip, edition)
    }
}

// Reads a whole sheet of an edition: 4, then the stock and the strip, then the moves and the end. Answers the moves. The buffer is written only where
// nothing is refused.
pub fn read_whole(sheet: &[u8], buffer: &mut [u8], edition: Edition) -> Result<u64, Refused>
    ensures { (answered as_readout 0 result ≡ read_answer (has_strides edition) sheet.now buffer.old) × (buffer.new ≡ read_buffer (has_strides edition) sheet.now buffer.old) }
{
    if buffer.len() < 64 {
        return Err(Reason::Length.at(0));
    }
    let opening = Reader { sheet, at: 0 }.opening()?;
    let mut word = opening.strip;
    let strip = &mut word[..opening.blocks];
    let moves = Reader { sheet, at: 82 }.moves(opening.stock(), strip, edition)?;
    copy(strip, buffer);
    Ok(moves)
}

// Reading a sheet of edition 1: its moves, and the final strip in the first bytes of the buffer.
pub fn read_sheet(sheet: &[u8], buffer: &mut [u8]) -> Readout
    ensures { (result ≡ read_answer false sheet.now buffer.old) × (buffer.new ≡ read_buffer false sheet.now buffer.old) }
{
    read_whole(sheet, buffer, Edition::First).into()
}

// Reading a sheet of either edition: the total of its moves, and the final strip in the first bytes of the buffer.
pub fn read_editions(sheet: &[u8], buffer: &mut [u8]) -> Readout
    ensures { (result ≡ read_answer true sheet.now buffer.old) × (buffer.new ≡ read_buffer true sheet.now buffer.old) }
{
    read_whole(sheet, buffer, Edition::Second).into()
}
