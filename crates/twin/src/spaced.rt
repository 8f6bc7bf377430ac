// Next apart compared with what is to come of it: it looks for a strip without equal neighbours, on a panel or hung endless.
use crate::rows::Book;
use crate::search::Search;
use crate::single::{directed, opened_walker};
use crate::sought::{Outcome, answer_agrees};
use crate::tally::Call;
use spacing::next_apart::next_apart;

// Next apart, for panels or for endless papers.
#[derive(Clone, Copy)]
pub struct Apart {
    pub endless: bool,
}

impl Search for Apart {
    fn call(&self) -> Call {
        if self.endless {
            Call::ApartEndless
        } else {
            Call::ApartPanel
        }
    }

    // Whether no place has the same kind as its right neighbour. Behind the last place stands the first where the strip is hung endless, and else none.
    fn is_sought(&self, strip: &[u8]) -> bool {
        let meets = match (strip.first(), strip.last()) {
            (Some(first), Some(last)) => self.endless && first == last,
            _ => false,
        };
        !meets && strip.windows(2).all(|pair| pair[0] != pair[1])
    }

    // The directions are those of the strip that the call is to leave. Where none is found that is the lent one, so the walker is to be the lent one too.
    fn agrees(&self, book: &Book, strip: &mut [u8], given: u64, due: Outcome) -> bool {
        let lent = opened_walker(book.stock, strip);
        let spaced = next_apart(book.stock, strip, lent, self.endless, given);
        directed(&spaced.walker, book.directions(due.index))
            && answer_agrees(spaced.refusal, spaced.outcome, spaced.moves, due)
    }
}
