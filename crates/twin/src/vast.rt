// The readers and writers on a stock whose book has 2^64 strips or more, sixteen kinds of four blocks: it has no strides. Of its book the first strips and
// the last are written down by the pattern rule.
//
// E(64, 60) begins with the words of E(61, 60), each with K K K after it, and they have their one K at letter 61, then at 60 and so on. So from strip 0 on
// the last kind's first block goes one place down with every move. The book of kinds 1 and 2 ends with the last word of E(8, 4), K K K K R R R R, and has 70
// strips. Each kind from 3 on then runs backward on a last strip whose number is odd, and ends with its first word.
use crate::editions::{Page, SPACE};
use crate::endings::{ENDINGS, Stand, put_ending};
use crate::formed::{Order, compare_room, compare_written};
use crate::orders::compare_sheet;
use crate::pressed::Sheet;
use crate::table::{Reason, Refused};
use crate::tally::Tally;

const STOCK: [u16; 16] = [4; 16];

// The strip from which the moves are made.
#[derive(Clone, Copy)]
enum Side {
    First,
    Last,
}

// The kinds in order, each with its four blocks.
fn in_order() -> [u8; 64] {
    let mut strip: [u8; 64] = [0; 64];
    for (kind, blocks) in (1..17).zip(strip.chunks_exact_mut(4)) {
        blocks.fill(kind);
    }
    strip
}

// The last strip, or that so many moves on from the first.
fn strip_of(from: Side, moves: usize) -> [u8; 64] {
    let mut strip = in_order();
    match from {
        Side::First => strip[60usize.saturating_sub(moves)..61].rotate_right(1),
        Side::Last => strip[..8].rotate_left(4),
    }
    strip
}

// The smaller place of the move behind so many.
fn low_of(made: usize) -> u8 {
    if made < 60 { (60 - made) as u8 } else { 0 }
}

// A page with the first moves of the book, each by itself.
fn in_singles(from: Side, moves: usize) -> Page {
    let mut page = Sheet::opened(&STOCK, &strip_of(from, 0));
    for made in 0..moves {
        let low = low_of(made);
        page.put_move(low, low.saturating_add(1));
    }
    page
}

// The form of so many moves.
fn form_of(from: Side, moves: usize) -> Page {
    let mut page = in_singles(from, moves);
    page.put_end();
    page
}

// Where so many moves lead: to nothing left, or to more than a number tells. The last strip's own number is told by none, and is left at 0.
fn stand_after(from: Side, made: usize) -> Stand {
    let (left, low) = match from {
        Side::First => (usize::MAX - 1, low_of(made)),
        Side::Last => (0, 1),
    };
    Stand {
        here: made,
        left,
        made,
        low,
        high: low.saturating_add(1),
        numbered: false,
    }
}

// The endings behind so many moves.
fn compare_endings(tally: &mut Tally, from: Side, made: usize) {
    let draft = in_singles(from, made);
    for which in 0..ENDINGS {
        let mut page = draft;
        let due = put_ending(&mut page, stand_after(from, made), which);
        let moves = due.unwrap_or(0);
        let to = strip_of(from, moves);
        compare_sheet(tally, &page, due, &to, &form_of(from, moves));
    }
}

// Any move from the last strip is refused.
fn unless_left(from: Side, moves: usize) -> Result<(), Refused> {
    match from {
        Side::Last if 0 < moves => Err(Reason::NoMove.at(0)),
        _ => Ok(()),
    }
}

// Writing so many moves.
fn compare_count(tally: &mut Tally, from: Side, moves: usize) {
    let order = Order {
        stock: &STOCK,
        strip: &strip_of(from, 0),
        moves: moves as u64,
    };
    let form = form_of(from, moves);
    compare_written(tally, order, &form, unless_left(from, moves));
}

// Writing a count of moves for which no page has room.
fn compare_large(tally: &mut Tally, from: Side, moves: u64) {
    let order = Order {
        stock: &STOCK,
        strip: &strip_of(from, 0),
        moves,
    };
    let due = Err(Reason::Room.at(0));
    compare_room(tally, order, SPACE, due);
}

// So few moves, written, and read from the first strip with each ending.
fn compare_few(tally: &mut Tally) {
    for moves in 0..6 {
        compare_count(tally, Side::First, moves);
        compare_count(tally, Side::Last, moves);
        compare_endings(tally, Side::First, moves);
    }
}

// From the first strip and from the last. Three times one of the large counts, and 83, is 2^64 + 1.
pub fn compare_vast(tally: &mut Tally) {
    compare_few(tally);
    compare_endings(tally, Side::Last, 0);
    for moves in [6148914691236517178, u64::MAX] {
        compare_large(tally, Side::First, moves);
        compare_large(tally, Side::Last, moves);
    }
}
