// Replay compared with a book on the moves of the book: the whole way on and back, parts of it, and its first moves made on other strips.
use crate::replays::{compare_list, compare_replay};
use crate::rows::{Book, places};
use crate::runs::number_after;
use crate::stood::{MOST, Told};
use crate::tally::{Call, Tally};

// Puts the places of moves from the strip of a number, on or back, into a list, and after so many those of moves the other way. They are the places at which
// two rows of the book differ, and 0 and 0 where it ends.
fn put_moves(list: &mut [u8], book: &Book, from: usize, back: bool, turn: usize) {
    let mut number = from;
    let (moves, _) = list.as_chunks_mut::<2>();
    for (made, exchange) in moves.iter_mut().enumerate() {
        let turned = turn <= made;
        let next = book.beside(number, back != turned).unwrap_or(number);
        let (low, high) = places(&book.word(number), &book.word(next));
        *exchange = [low, high];
        number = next;
    }
}

// The smallest number that is missing where so many strips of the book stood: on from the first strip it is the next one, back from the last the first,
// unless all stood.
fn missing_after(book: &Book, back: bool, stood: usize) -> usize {
    if back && stood < book.rows.len() {
        0
    } else {
        stood
    }
}

// So many moves on from the first strip, or back from the last.
fn due_after(book: &Book, back: bool, moves: usize) -> Told {
    let stood = moves.saturating_add(1);
    Told {
        walked: if back { 0 } else { moves },
        different: stood,
        missing: missing_after(book, back, stood),
        to: number_after(book, back, moves),
    }
}

// From the strip of a number three moves on and back again, or back and on again.
fn compare_part(tally: &mut Tally, book: &Book, i: usize, back: bool) {
    let mut list: [u8; 12] = [0; 12];
    put_moves(&mut list, book, i, back, 3);
    compare_list(tally, book, i, &list);
}

// For a number as many of the first moves of a list, and from its strip a part of the book, and the first moves of the list as if it were the first strip.
fn compare_number(tally: &mut Tally, book: &Book, back: bool, list: &[u8; 10080], i: usize) {
    let from = number_after(book, back, 0);
    let due = Ok(due_after(book, back, i));
    let moves = list.get(..2 * i.min(5040)).unwrap_or(list);
    compare_replay(tally, book, from, moves, due, Call::ReplayMoves);
    compare_part(tally, book, i, back);
    compare_list(tally, book, i, &list[..2 * MOST]);
}

// For the last number, which has the moves of the whole book, and for those before it. The largest books have so many strips that only each thirteenth number
// is taken.
fn compare_moves(tally: &mut Tally, book: &Book, back: bool, list: &[u8; 10080]) {
    let step = if book.blocks <= 6 { 1 } else { 13 };
    for left in 0..book.rows.len() {
        if left % step == 0 {
            compare_number(tally, book, back, list, book.last().saturating_sub(left));
        }
    }
}

// The moves of the book on from its first strip, or back from its last.
pub fn compare_way(tally: &mut Tally, book: &Book, back: bool) {
    let mut list: [u8; 10080] = [0; 10080];
    let from = number_after(book, back, 0);
    put_moves(&mut list, book, from, back, 5040);
    compare_moves(tally, book, back, &list);
}
