// Run compared with a book.
use crate::rows::{Book, exchange};
use crate::single::{directed, opened_walker};
use crate::table::NONE;
use crate::tally::{Call, Tally};
use running::run::{Ran, run};

// The number m further on than the first, or m further back than the last.
pub fn number_after(book: &Book, back: bool, m: usize) -> usize {
    if back {
        book.last().saturating_sub(m)
    } else {
        m
    }
}

// So many moves, and the walker at the number to which they lead.
fn answer_agrees(ran: Ran, book: &Book, moves: usize, to: usize) -> bool {
    ran.moves == moves as u64
        && ran.ended == (moves == book.last())
        && ran.refusal == NONE
        && directed(&ran.walker, book.directions(to))
}

// Run on from the first strip, or back from the last, with the room of a lent list.
fn run_agrees(book: &Book, back: bool, list: &mut [u8]) -> bool {
    let moves = book.last().min(list.len() / 2);
    let from = number_after(book, back, 0);
    let to = number_after(book, back, moves);
    let mut word = book.word(from);
    let walker = opened_walker(book.stock, book.strip(from));
    let ran = run(book.stock, &mut word[..book.blocks], walker, back, list);
    word == book.word(to) && answer_agrees(ran, book, moves, to)
}

// Makes the listed moves on the first strip, or on the last, and compares the strip after each.
fn make_listed(tally: &mut Tally, book: &Book, back: bool, list: &[u8]) {
    let mut word = book.word(number_after(book, back, 0));
    let (moves, _) = list.as_chunks::<2>();
    for (made, [low, high]) in moves.iter().take(book.last()).enumerate() {
        let exchanged = exchange(&mut word[..book.blocks], *low, *high);
        let to = number_after(book, back, made.saturating_add(1));
        tally.note(Call::Listed, exchanged && word == book.word(to));
    }
}

// Run on or back with the room of a lent list, and its moves one by one.
fn compare_run(tally: &mut Tally, book: &Book, back: bool, list: &mut [u8]) {
    tally.note(Call::Run, run_agrees(book, back, list));
    make_listed(tally, book, back, list);
}

// Run with room for every move of the book, and with room for half of them, since a move takes two bytes.
pub fn compare_runs(tally: &mut Tally, book: &Book, back: bool) {
    let mut list: [u8; 10080] = [0; 10080];
    compare_run(tally, book, back, &mut list);
    if let Some(half) = list.get_mut(..book.last()) {
        compare_run(tally, book, back, half);
    }
}
