// The calls on dictionary numbers compared with a book in dictionary order, which Next paper is then compared with. The dictionary of a stock is its book,
// sorted by comparing strips block by block.
use crate::rows::{Book, Row, Rows, Word};
use crate::search::compare_papers;
use crate::table::{NONE, Reason};
use crate::tally::{Call, Tally};
use converting::{to_book, to_dictionary};
use drawers::Filed;
use drawers::next::dictionary_next;
use drawers::number::dictionary_number;
use drawers::strip::dictionary_strip;

// Whether an answer is this number, and no refusal.
fn answer_agrees(filed: Filed, number: usize) -> bool {
    filed.number == number as u64 && filed.refusal == NONE
}

// The lent strip is all zeros, since it could else hold the very strip that is to come.
fn strip_agrees(dictionary: &Book, i: usize) -> bool {
    let mut word: Word = [0; 8];
    let refusal = dictionary_strip(dictionary.stock, i as u64, &mut word[..dictionary.blocks]);
    refusal == NONE && word == dictionary.word(i)
}

// From the strip at an index of the dictionary to the one on from it; refusal 9 where the strip stays.
fn next_agrees(dictionary: &Book, i: usize) -> bool {
    let next = dictionary.beside(i, false);
    let mut word = dictionary.word(i);
    let refusal = dictionary_next(dictionary.stock, &mut word[..dictionary.blocks]);
    match next {
        Some(j) => word == dictionary.word(j) && refusal == NONE,
        None => word == dictionary.word(i) && refusal == Reason::NoMove.at(0).refusal(),
    }
}

// The strip at an index of the dictionary, and its two numbers.
fn compare_entry(tally: &mut Tally, dictionary: &Book, i: usize, number: usize) {
    let stock = dictionary.stock;
    let filed = dictionary_number(stock, dictionary.strip(i));
    tally.note(Call::DictionaryNumber, answer_agrees(filed, i));
    tally.note(Call::DictionaryStrip, strip_agrees(dictionary, i));
    let there = to_dictionary(stock, number as u64);
    tally.note(Call::ToDictionary, answer_agrees(there, i));
    let back = to_book(stock, i as u64);
    tally.note(Call::ToBook, answer_agrees(back, number));
    tally.note(Call::DictionaryNext, next_agrees(dictionary, i));
}

// The rows of a book, sorted.
fn sorted(book: &[Row]) -> Rows {
    let mut rows = Rows::new();
    for row in book {
        rows.push(*row);
    }
    rows.sorted()
}

// The dictionary of a book.
pub fn compare_dictionary(tally: &mut Tally, book: &Book) {
    let rows = sorted(book.rows);
    let dictionary = Book {
        stock: book.stock,
        rows: rows.as_slice(),
        blocks: book.blocks,
    };
    for (i, row) in dictionary.rows.iter().enumerate() {
        compare_entry(tally, &dictionary, i, row.number);
    }
    compare_papers(tally, &dictionary);
}
