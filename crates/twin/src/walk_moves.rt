// Walk compared with a book.
use crate::rows::{Book, exchange};
use crate::single::{directed, opened_walker};
use crate::table::{NONE, Reason};
use walking::Moved;
use walking::walk::walk;

// The refusal and the places of a move from the strip of a number to another; refusal 9 and no places where the book ends.
fn answer_agrees(moved: Moved, book: &Book, i: usize, next: Option<usize>) -> bool {
    match next {
        Some(j) => {
            let mut word = book.word(i);
            exchange(&mut word[..book.blocks], moved.low, moved.high)
                && word == book.word(j)
                && moved.refusal == NONE
        }
        None => moved.low == 0
            && moved.high == 0
            && moved.refusal == Reason::NoMove.at(0).refusal(),
    }
}

// A move from the strip of a number to the one on from it, or back, with the walker that Open gives.
pub fn move_agrees(book: &Book, i: usize, back: bool) -> bool {
    let next = book.beside(i, back);
    let to = next.unwrap_or(i);
    let mut word = book.word(i);
    let walker = opened_walker(book.stock, book.strip(i));
    let moved = walk(book.stock, &mut word[..book.blocks], walker, back);
    word == book.word(to)
        && directed(&moved.walker, book.directions(to))
        && answer_agrees(moved, book, i, next)
}
