// What is to come of exchanges by hand, by the document's words: the strips that stood on the bar are written down one after the other, and compared with
// those of the book.
use crate::rows::{Book, Word, exchange};
use crate::table::{Reason, Refused};

// The most exchanges that are written down here.
pub const MOST: usize = 10;

// What is told of a replay that is not refused: also the number of the strip that is then in the lent one.
#[derive(Clone, Copy)]
pub struct Told {
    pub walked: usize,
    pub different: usize,
    pub missing: usize,
    pub to: usize,
}

// What is to come of a replay. Where it is refused the strip stays, and nothing is told of it.
pub type Due = Result<Told, Refused>;

// Whether the book has a strip next after another.
fn follows(book: &Book, before: &Word, word: &Word) -> bool {
    match book.position(before) {
        Some(i) => i < book.last() && book.word(i + 1) == *word,
        None => false,
    }
}

// How many of the strips that stood are those that the book has next after the one before.
fn walked(book: &Book, stood: &[Word]) -> usize {
    let pairs = stood.iter().zip(stood.iter().skip(1));
    pairs
        .filter(|(before, word)| follows(book, before, word))
        .count()
}

// What is told of the strips that stood: how many strips of the book are among them, and the first number of one that is not, or else the total.
fn told_of(book: &Book, stood: &[Word], last: &Word) -> Told {
    let strips = book.rows.len();
    let rows = book.rows.iter();
    let different = rows.filter(|row| stood.contains(&row.word)).count();
    let missing = book.rows.iter().position(|row| !stood.contains(&row.word));
    Told {
        walked: walked(book, stood),
        different,
        missing: missing.unwrap_or(strips),
        to: book.position(last).unwrap_or(strips),
    }
}

// Whether two places are rising places from 1 to n.
fn rises(low: u8, high: u8, n: usize) -> bool {
    0 < low && low < high && usize::from(high) <= n
}

// The number of the first pair, from 1, that is none of two rising places from 1 to n. Half a pair has no second place.
fn wrong(pairs: &[u8], n: usize) -> Option<usize> {
    let (whole, half) = pairs.as_chunks::<2>();
    let found = whole.iter().position(|[low, high]| !rises(*low, *high, n));
    let first = match found {
        Some(i) => i,
        None if half.is_empty() => return None,
        None => whole.len(),
    };
    first.checked_add(1)
}

// What is to come of a list of pairs from the strip of a number.
pub fn due(book: &Book, from: usize, pairs: &[u8]) -> Due {
    if let Some(number) = wrong(pairs, book.blocks) {
        return Err(Reason::Pair.at(number));
    }
    let mut word = book.word(from);
    let mut stood: [Word; 1 + MOST] = [word; 1 + MOST];
    let (exchanges, _) = pairs.as_chunks::<2>();
    for (place, [low, high]) in stood.iter_mut().skip(1).zip(exchanges) {
        exchange(&mut word[..book.blocks], *low, *high);
        *place = word;
    }
    Ok(told_of(book, &stood[..1 + exchanges.len().min(MOST)], &word))
}
