// Rebuilding compared with a book, on the sheets of up to three moves from each of its strips: cut at each length, or going on behind their end; with each
// byte spoiled in turn; and with every byte spoiled from one on.
use crate::pressed::{BEFORE, Sheet};
use crate::rows::Book;
use crate::table::{NONE, Reason};
use crate::tally::{Call, Tally};
use reading::reader::read_sheet;
use rebuilding::Rebuilt;
use rebuilding::rebuild::rebuild;
use stock::Refusal;

// The most moves that are listed here, and the bytes of their sheet.
const MOST: usize = 7;

const ROOM: usize = 83 + 3 * MOST;

type Bytes = [u8; ROOM];

// All that is listed of the moves from a strip: the records before them, as many of the moves as are left, at most 7, and the end; and how many are left.
#[derive(Clone, Copy)]
struct Full {
    sheet: Sheet<ROOM>,
    left: usize,
}

// What is to come of a sheet that is rebuilt: how many moves it has, how many of them have other records in the damaged one, and the first of those, from 1,
// or 0 as Rebuild answers it.
#[derive(Clone, Copy)]
struct Told {
    moves: usize,
    differing: usize,
    first: usize,
}

impl Told {
    const NOTHING: Told = Told {
        moves: 0,
        differing: 0,
        first: 0,
    };
}

// A refusal is as C has it, since it can be one that the reader gave.
type Due = Result<Told, Refusal>;

impl Full {
    fn of(book: &Book, number: usize) -> Full {
        let left = book.last().saturating_sub(number);
        let mut sheet = Sheet::opened(book.stock, book.strip(number));
        for made in 0..left.min(MOST) {
            sheet.put_next(book, number.saturating_add(made));
        }
        sheet.put_end();
        Full { sheet, left }
    }

    // The sheet of the first moves.
    fn sheet_of(&self, moves: usize) -> Sheet<ROOM> {
        let mut sheet = Sheet::new();
        sheet.put(&self.sheet.bytes[..82 + 3 * moves.min(MOST)]);
        sheet.put_end();
        sheet
    }
}

// The records of the moves of a sheet.
fn records(bytes: &Bytes) -> &[[u8; 3]] {
    let (records, _) = bytes[82..].as_chunks::<3>();
    records
}

// Which of so many moves of a sheet have other bytes in the damaged one.
fn told_of(full: &Bytes, damaged: &Bytes, moves: usize) -> Told {
    let mut told = Told {
        moves,
        ..Told::NOTHING
    };
    let pairs = records(full).iter().zip(records(damaged)).take(moves);
    for (m, (right, wrong)) in pairs.enumerate() {
        if right != wrong {
            told.differing = told.differing.saturating_add(1);
            if told.first == 0 {
                told.first = m.saturating_add(1);
            }
        }
    }
    told
}

// The refusal of the first two records: the reader's, where it is none of the moves and the end, whose places are from byte 82 on.
fn check_records(sheet: &[u8]) -> Result<(), Refusal> {
    let refusal = read_sheet(sheet, &mut [0; 64]).refusal;
    if refusal != NONE && refusal.place < 82 {
        return Err(refusal);
    }
    Ok(())
}

// What is to come of the first bytes of a damaged sheet, in so much room.
fn due(full: &Full, damaged: &Bytes, length: usize, room: usize) -> Due {
    if length < 82 {
        return Err(Reason::Record.at(0).refusal());
    }
    check_records(damaged.get(..length).unwrap_or(damaged))?;
    let moves = full.left.min((length - 82) / 3);
    if room < 83 + 3 * moves.min(MOST) {
        return Err(Reason::Room.at(0).refusal());
    }
    Ok(told_of(&full.sheet.bytes, damaged, moves))
}

// What is answered, and whether the second buffer has the sheet of so many moves, or where the sheet is refused, is as it was.
fn answer_agrees(rebuilt: Rebuilt, out: &Bytes, full: &Full, due: Due) -> bool {
    let (told, sheet, refusal) = match due {
        Ok(told) => (told, full.sheet_of(told.moves), NONE),
        Err(refusal) => (Told::NOTHING, Sheet::new(), refusal),
    };
    rebuilt.refusal == refusal
        && rebuilt.moves == told.moves as u64
        && rebuilt.differing == told.differing as u64
        && rebuilt.first == told.first as u64
        && *out == sheet.bytes
}

// Rebuilds the first bytes of a damaged sheet in so much room.
fn rebuild_agrees(full: &Full, damaged: &Bytes, length: usize, room: usize) -> bool {
    let mut out: Bytes = [BEFORE; ROOM];
    match (damaged.get(..length), out.get_mut(..room)) {
        (Some(sheet), Some(lent)) => {
            let rebuilt = rebuild(sheet, lent);
            answer_agrees(rebuilt, &out, full, due(full, damaged, length, room))
        }
        _ => false,
    }
}

// Each length, with room for any sheet and with as much room as the damaged sheet takes.
fn compare_lengths(tally: &mut Tally, full: &Full, sheet: &Bytes) {
    for length in 0..=ROOM {
        let roomy = rebuild_agrees(full, sheet, length, ROOM);
        tally.note(Call::RebuiltCut, roomy);
        let narrow = rebuild_agrees(full, sheet, length, length);
        tally.note(Call::RebuiltCut, narrow);
    }
}

// A sheet with every byte spoiled from one on.
fn spoiled_from(bytes: &Bytes, from: usize) -> Bytes {
    let mut spoiled = *bytes;
    for byte in spoiled.iter_mut().skip(from) {
        *byte = !*byte;
    }
    spoiled
}

// The byte at i spoiled in two ways, to the value beside it and to one far off, and all bytes from there on.
fn compare_byte(tally: &mut Tally, full: &Full, sheet: &Sheet<ROOM>, i: usize, byte: u8) {
    for value in [byte ^ 1, !byte] {
        let mut spoiled = sheet.bytes;
        if let Some(place) = spoiled.get_mut(i) {
            *place = value;
        }
        let agrees = rebuild_agrees(full, &spoiled, sheet.end, ROOM);
        tally.note(Call::RebuiltByte, agrees);
    }
    let tail = spoiled_from(&sheet.bytes, i);
    let agrees = rebuild_agrees(full, &tail, sheet.end, ROOM);
    tally.note(Call::RebuiltTail, agrees);
}

// The sheets from the strip of a number.
pub fn compare_sheets(tally: &mut Tally, book: &Book, number: usize) {
    let full = Full::of(book, number);
    let sheet = full.sheet_of(full.left.min(3));
    compare_lengths(tally, &full, &sheet.bytes);
    for (i, byte) in sheet.written().iter().enumerate() {
        compare_byte(tally, &full, &sheet, i, *byte);
    }
}
