// Sheets of both editions from the strips of a book: every way to put up to six moves on into moves and strides, with each ending; and writing every count
// of moves that is left, and more.
use crate::editions::{Page, form_of, in_parts};
use crate::endings::{Due, ENDINGS, Stand, put_ending};
use crate::formed::{Order, compare_rewritten, compare_written};
use crate::patterns::bit;
use crate::rows::{Book, places};
use crate::strode::compare_read;
use crate::table::{Reason, Refused};
use crate::tally::Tally;

// The most moves that are put into parts.
const MOST: usize = 6;

// A sheet in both readers and in rewriting, with the strip to which it leads and with its form.
pub fn compare_sheet(tally: &mut Tally, page: &Page, due: Due, to: &[u8], form: &Page) {
    compare_read(tally, page, due, to);
    compare_rewritten(tally, page.written(), due.map(|_| form));
}

// How many moves are left from the strip of a number.
fn left(book: &Book, number: usize) -> usize {
    book.last().saturating_sub(number)
}

// Where so many moves from the strip of a number lead.
fn stand_at(book: &Book, number: usize, made: usize) -> Stand {
    let here = number.saturating_add(made);
    let (low, high) = places(&book.word(here), &book.word(here.saturating_add(1)));
    Stand {
        here,
        left: left(book, here),
        made,
        low,
        high,
        numbered: true,
    }
}

// The endings of a draft, a page with the records of so many moves from the strip of a number.
fn compare_endings(tally: &mut Tally, book: &Book, number: usize, made: usize, draft: &Page) {
    let stand = stand_at(book, number, made);
    for which in 0..ENDINGS {
        let mut page = *draft;
        let due = put_ending(&mut page, stand, which);
        let moves = due.unwrap_or(0);
        let form = form_of(book, number, moves);
        let to = book.strip(number.saturating_add(moves));
        compare_sheet(tally, &page, due, to, &form);
    }
}

// Every way to cut so many moves into parts.
fn compare_cuts(tally: &mut Tally, book: &Book, number: usize, made: usize) {
    for cuts in 0..bit(made.saturating_sub(1)) {
        let draft = in_parts(book, number, made, cuts);
        compare_endings(tally, book, number, made, &draft);
    }
}

// Refused where fewer moves are left.
fn unless_left(left: usize, moves: usize) -> Result<(), Refused> {
    if left < moves {
        return Err(Reason::NoMove.at(0));
    }
    Ok(())
}

// Writing so many moves, by the count that is asked for.
fn compare_count(tally: &mut Tally, book: &Book, number: usize, moves: usize, asked: u64) {
    let order = Order {
        stock: book.stock,
        strip: book.strip(number),
        moves: asked,
    };
    let form = form_of(book, number, moves);
    compare_written(tally, order, &form, unless_left(left(book, number), moves));
}

// Every count of moves that is left, and one more; and the largest number, whose form is as long as that of any count from 3 on.
fn compare_counts(tally: &mut Tally, book: &Book, number: usize) {
    let left = left(book, number);
    compare_count(tally, book, number, left.saturating_add(3), u64::MAX);
    for moves in 0..left.saturating_add(2) {
        compare_count(tally, book, number, moves, moves as u64);
    }
}

// Every way of up to six moves.
fn compare_moves(tally: &mut Tally, book: &Book, number: usize) {
    for made in 0..=left(book, number).min(MOST) {
        compare_cuts(tally, book, number, made);
    }
}

// The sheets from the strip of a number.
pub fn compare_orders(tally: &mut Tally, book: &Book, number: usize) {
    compare_moves(tally, book, number);
    compare_counts(tally, book, number);
}
