// Press sheets of either edition by the document's words: moves on from a strip of a book, in records of one move and in strides. No strip is moved: the
// rows of the book tell what a record comes to.
use crate::patterns::has;
use crate::pressed::Sheet;
use crate::rows::Book;

// The bytes of the longest sheet that is made here, and some behind it.
pub const SPACE: usize = 128;

pub type Page = Sheet<SPACE>;

// A page with the records of a stock and of a strip of its book.
fn opened(book: &Book, number: usize) -> Page {
    Sheet::opened(book.stock, book.strip(number))
}

// One record for so many moves from the strip of a number: a move, or a stride where there are more.
fn put_part(page: &mut Page, book: &Book, number: usize, moves: usize) {
    if moves == 1 {
        page.put_next(book, number);
    } else {
        page.put_stride(moves as u64);
    }
}

// A page with so many moves from the strip of a number in parts, a record for each part: the first part ends with move 1 where `cuts` has bit 0, and so on,
// and the last with the last move.
pub fn in_parts(book: &Book, number: usize, moves: usize, cuts: u8) -> Page {
    let mut page = opened(book, number);
    let mut from: usize = 0;
    for i in 0..moves {
        let made = i + 1;
        if made == moves || has(cuts, i) {
            let further = made.saturating_sub(from);
            put_part(&mut page, book, number.saturating_add(from), further);
            from = made;
        }
    }
    page
}

// A page with the one form of edition 2 for so many moves from the strip of a number: up to two moves each by itself, and more in one stride.
pub fn form_of(book: &Book, number: usize, moves: usize) -> Page {
    let cuts: u8 = if 2 < moves { 0 } else { 255 };
    let mut page = in_parts(book, number, moves, cuts);
    page.put_end();
    page
}
