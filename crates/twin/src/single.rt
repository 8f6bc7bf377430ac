// The calls on one strip, or none, compared with a book: Count, First, Number, Strip, Open.
use crate::patterns::has;
use crate::rows::{Book, Word};
use crate::table::NONE;
use counting::count::count;
use counting::first::first;
use numbering::number::number;
use numbering::strip::strip;
use walker::Walker;
use walker::open::open;

pub fn count_agrees(book: &Book) -> bool {
    let counted = count(book.stock);
    counted.total == book.rows.len() as u64 && counted.refusal == NONE
}

pub fn first_agrees(book: &Book) -> bool {
    let mut word: Word = [0; 8];
    let refusal = first(book.stock, &mut word[..book.blocks]);
    refusal == NONE && word == book.word(0)
}

pub fn number_agrees(book: &Book, i: usize) -> bool {
    let numbered = number(book.stock, book.strip(i));
    numbered.number == i as u64 && numbered.refusal == NONE
}

// Whether Number reports the uses of the rule that were counted while the book was built.
pub fn cuts_agree(book: &Book, i: usize) -> bool {
    let numbered = number(book.stock, book.strip(i));
    numbered.cuts == u64::from(book.cuts(i))
}

pub fn strip_agrees(book: &Book, i: usize) -> bool {
    let mut word: Word = [0; 8];
    let refusal = strip(book.stock, i as u64, &mut word[..book.blocks]);
    refusal == NONE && word == book.word(i)
}

// Whether a walker has the directions of a strip.
pub fn directed(walker: &Walker, directions: u8) -> bool {
    (0..16).all(|j: usize| walker.back[j] == has(directions, j))
}

pub fn open_agrees(book: &Book, i: usize) -> bool {
    let opened = open(book.stock, book.strip(i));
    opened.refusal == NONE && directed(&opened.walker, book.directions(i))
}

// The walker that Open gives.
pub fn opened_walker(stock: &[u16], strip: &[u8]) -> Walker {
    open(stock, strip).walker
}
