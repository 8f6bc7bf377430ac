// The calls that search compared with the rows of a book: Next paper with those of a dictionary, Next apart with those of a book itself.
use crate::rows::Book;
use crate::sought::{Outcome, answer_agrees, due, given_steps, steps_to, ways};
use crate::spaced::Apart;
use crate::tally::{Call, Tally};
use crate::turns::stands;
use endless::next_paper::next_paper;

// A call that searches.
pub trait Search {
    // What it is counted as.
    fn call(&self) -> Call;

    // Whether it looks for a strip.
    fn is_sought(&self, strip: &[u8]) -> bool;

    // Whether it answers what is to come on a lent strip, in the rows of a book.
    fn agrees(&self, book: &Book, strip: &mut [u8], given: u64, due: Outcome) -> bool;
}

// Next paper, which looks for the smallest of the turns of a strip.
#[derive(Clone, Copy)]
struct Papers {}

impl Search for Papers {
    fn call(&self) -> Call {
        Call::NextPaper
    }

    fn is_sought(&self, strip: &[u8]) -> bool {
        stands(strip)
    }

    fn agrees(&self, book: &Book, strip: &mut [u8], given: u64, due: Outcome) -> bool {
        let stepped = next_paper(book.stock, strip, given);
        answer_agrees(stepped.refusal, stepped.outcome, stepped.steps, due)
    }
}

fn search_agrees<S: Search>(search: &S, book: &Book, i: usize, given: u64, due: Outcome) -> bool {
    let mut word = book.word(i);
    search.agrees(book, &mut word[..book.blocks], given, due) && word == book.word(due.index)
}

// The searches from an index, with the next one that is looked for.
fn compare_from<S: Search>(
    tally: &mut Tally,
    search: &S,
    book: &Book,
    i: usize,
    next: Option<usize>,
) {
    let left = steps_to(i, book.last());
    for given in given_steps(left).iter().take(ways(book.blocks, i)) {
        let due = due(book, i, next, *given);
        let agrees = search_agrees(search, book, i, *given, due);
        tally.note(search.call(), agrees);
    }
}

// The searches of a call in the rows of a book, from the last to the first.
fn compare_search<S: Search>(tally: &mut Tally, search: &S, book: &Book) {
    let mut next: Option<usize> = None;
    for i in (0..book.rows.len()).rev() {
        compare_from(tally, search, book, i, next);
        if search.is_sought(book.strip(i)) {
            next = Some(i);
        }
    }
}

// The searches in a dictionary.
pub fn compare_papers(tally: &mut Tally, dictionary: &Book) {
    compare_search(tally, &Papers {}, dictionary);
}

// The searches in a book itself, for panels and for endless papers.
pub fn compare_apart(tally: &mut Tally, book: &Book) {
    compare_search(tally, &Apart { endless: false }, book);
    compare_search(tally, &Apart { endless: true }, book);
}
