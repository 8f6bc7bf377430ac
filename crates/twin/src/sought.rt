// What is to come of a search among the strips of a book: each strip that is looked for is marked, and a step leads to the next row.
use crate::rows::Book;
use crate::table::NONE;
use stock::Refusal;

// How a search ends, by the numbers that the calls answer: a marked strip is found, none is left, or the given steps end.
#[derive(Clone, Copy)]
pub enum Ending {
    Found = 1,
    NoneLeft = 2,
    Stopped = 3,
}

// What is to come of a search: also the index of the strip that is then in the lent one.
#[derive(Clone, Copy)]
pub struct Outcome {
    pub ending: Ending,
    pub steps: u64,
    pub index: usize,
}

// The steps from an index to a later one.
pub fn steps_to(from: usize, to: usize) -> u64 {
    to.saturating_sub(from) as u64
}

// What is to come of a search from an index, with the next marked one: found where the steps reach it; none left where there is none, and they reach the last;
// else stopped.
pub fn due(book: &Book, index: usize, next: Option<usize>, given: u64) -> Outcome {
    let left = steps_to(index, book.last());
    match next {
        Some(next) if steps_to(index, next) <= given => Outcome {
            ending: Ending::Found,
            steps: steps_to(index, next),
            index: next,
        },
        None if left <= given => Outcome {
            ending: Ending::NoneLeft,
            steps: left,
            index,
        },
        _ => Outcome {
            ending: Ending::Stopped,
            steps: given,
            index,
        },
    }
}

// Whether an answer is what is to come, and no refusal.
pub fn answer_agrees(refusal: Refusal, ending: u8, steps: u64, due: Outcome) -> bool {
    ending == due.ending as u8 && steps == due.steps && refusal == NONE
}

// Given steps: 0 to 3, those to the last strip, one less, one more, and the most that there are.
pub fn given_steps(left: u64) -> [u64; 8] {
    [
        0,
        1,
        2,
        3,
        left,
        left.saturating_sub(1),
        left.saturating_add(1),
        u64::MAX,
    ]
}

// How many of them are tried. Far searches through the largest books would take long, so they begin there at each thirteenth strip.
pub fn ways(n: usize, i: usize) -> usize {
    if 6 < n && i % 13 != 0 { 4 } else { 8 }
}
