// The two readers compared with what is to come of a sheet.
use crate::editions::Page;
use crate::endings::Due;
use crate::pressed::BEFORE;
use crate::rows::padded;
use crate::table::{Reason, refusal_of};
use crate::tally::{Call, Tally};
use following::Readout;
use reading::reader::{read_editions, read_sheet};

// A buffer has some bytes more than the longest strip.
const BUFFER: usize = 70;

// What a reader answers, and the buffer that it leaves: the final strip in its first bytes, or where the sheet is refused, what stood there.
fn answer_agrees(readout: Readout, buffer: &[u8; BUFFER], due: Due, to: &[u8]) -> bool {
    let (moves, left) = match due {
        Ok(moves) => (moves, padded(to, BEFORE)),
        Err(_) => (0, [BEFORE; BUFFER]),
    };
    readout.refusal == refusal_of(due) && readout.moves == moves as u64 && *buffer == left
}

// One of the readers.
fn read_agrees<F: Fn(&[u8], &mut [u8]) -> Readout>(
    read: F,
    sheet: &[u8],
    due: Due,
    to: &[u8],
) -> bool
    requires { F.IsAlwaysCallable read }
{
    let mut buffer: [u8; BUFFER] = [BEFORE; BUFFER];
    let readout = read(sheet, &mut buffer);
    answer_agrees(readout, &buffer, due, to)
}

// What is to come of a sheet in the old reader, which refuses the first stride.
fn in_edition_1(page: &Page, due: Due) -> Due {
    match page.stride {
        Some(at) => Err(Reason::Record.at(at)),
        None => due,
    }
}

// What a sheet is counted as in the new reader.
fn new_call(due: Due) -> Call {
    match due {
        Ok(_) => Call::ReadRight,
        Err(refused) => match refused.reason {
            Reason::Many => Call::ReadVast,
            Reason::Record => Call::ReadUnknown,
            Reason::Astray => Call::ReadPast,
            _ => Call::ReadLow,
        },
    }
}

// And in the old one.
fn old_call(page: &Page) -> Call {
    if page.stride.is_some() {
        Call::ReadSheetStride
    } else {
        Call::ReadSheet
    }
}

// A sheet in both readers, with the strip to which it is to lead.
pub fn compare_read(tally: &mut Tally, page: &Page, due: Due, to: &[u8]) {
    let sheet = page.written();
    let agrees = read_agrees(read_editions, sheet, due, to);
    tally.note(new_call(due), agrees);
    let old = in_edition_1(page, due);
    tally.note(old_call(page), read_agrees(read_sheet, sheet, old, to));
}
