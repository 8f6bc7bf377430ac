// A printed line for a sheet that is written, damaged and rebuilt.
use crate::say;
use rebuilding::rebuild::rebuild;
use std::io::{self, Stdout};
use writing::sheet::write_sheet;

// Spoils a byte.
fn spoil(sheet: &mut [u8], at: usize) {
    if at < sheet.len() {
        sheet[at] = 255;
    }
}

// A strip and so many moves, written at the front of so many bytes, of which one is spoiled.
pub fn of_rebuild(
    stdout: Stdout,
    stock: &[u16],
    blocks: &[u8],
    moves: u64,
    sheet: &mut [u8],
    spoiled: usize,
    out: &mut [u8],
) -> io::Result<()> {
    say::call_sheet(stdout, stock, blocks, moves, sheet.len(), spoiled)?;
    write_sheet(stock, blocks, moves, sheet);
    spoil(sheet, spoiled);
    say::rebuilt(stdout, rebuild(sheet, out))
}
