// A whole book compared with what the calls answer.
use crate::filed::compare_dictionary;
use crate::hung::compare_hung;
use crate::orders::compare_orders;
use crate::pairs::compare_pair;
use crate::replays::compare_few;
use crate::rows::Book;
use crate::runs::compare_runs;
use crate::search::compare_apart;
use crate::single::{
    count_agrees, cuts_agree, first_agrees, number_agrees, open_agrees, strip_agrees,
};
use crate::spoiled::compare_sheets;
use crate::tally::{Call, Tally};
use crate::walk_moves::move_agrees;
use crate::ways::compare_way;

// The strip of a number by itself.
fn compare_strip(tally: &mut Tally, book: &Book, i: usize) {
    tally.note(Call::Number, number_agrees(book, i));
    tally.note(Call::Cuts, cuts_agree(book, i));
    tally.note(Call::Strip, strip_agrees(book, i));
    tally.note(Call::Open, open_agrees(book, i));
}

// The moves from the strip of a number.
fn compare_moves(tally: &mut Tally, book: &Book, i: usize) {
    tally.note(Call::WalkOn, move_agrees(book, i, false));
    tally.note(Call::WalkBack, move_agrees(book, i, true));
}

// The strip of a number with the last strip, and with the one on from it where there is one.
fn compare_pairs(tally: &mut Tally, book: &Book, i: usize) {
    let end = book.last();
    compare_pair(tally, book, i, end);
    compare_pair(tally, book, end, i);
    if let Some(next) = book.beside(i, false) {
        compare_pair(tally, book, i, next);
        compare_pair(tally, book, next, i);
    }
}

// The strip of a number with every strip.
fn compare_all_pairs(tally: &mut Tally, book: &Book, i: usize) {
    for j in 0..book.rows.len() {
        compare_pair(tally, book, i, j);
    }
}

// The pairs, the sheets and the lists of exchanges of the strip of a number, for stocks of up to 4 blocks.
fn compare_small(tally: &mut Tally, book: &Book, i: usize) {
    if book.blocks <= 4 {
        compare_all_pairs(tally, book, i);
        compare_sheets(tally, book, i);
        compare_orders(tally, book, i);
        compare_few(tally, book, i);
    }
}

// All that is compared of the strip of a number, but for the dictionary.
fn compare_number(tally: &mut Tally, book: &Book, i: usize) {
    compare_strip(tally, book, i);
    compare_moves(tally, book, i);
    compare_pairs(tally, book, i);
    compare_small(tally, book, i);
    compare_hung(tally, book, i);
}

fn compare_strips(tally: &mut Tally, book: &Book) {
    for i in 0..book.rows.len() {
        compare_number(tally, book, i);
    }
}

// The whole book, on or back: by Run, and by replaying its moves.
fn compare_through(tally: &mut Tally, book: &Book, back: bool) {
    compare_runs(tally, book, back);
    compare_way(tally, book, back);
}

// The book of a stock.
pub fn compare_book(tally: &mut Tally, book: &Book) {
    tally.note(Call::Count, count_agrees(book));
    tally.note(Call::First, first_agrees(book));
    compare_through(tally, book, false);
    compare_through(tally, book, true);
    compare_strips(tally, book);
    compare_dictionary(tally, book);
    compare_apart(tally, book);
}
