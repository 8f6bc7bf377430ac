// Whole books by the rule itself.
use crate::patterns::{List, Lists, Word, bit, e, has};
use crate::rows::{self, Row, Rows};

// A kind that is laid in: its index from 0, the blocks of a strip with it, and the list of its words of so many letters.
#[derive(Clone, Copy)]
struct Layer {
    j: usize,
    n: usize,
    list: List,
}

// The kind at an index from 0.
fn kind_at(j: usize) -> u8 {
    if j < 8 { (j + 1) as u8 } else { 0 }
}

// The blocks of a strip, in order, on the letters R of a word, and the kind on its letters K.
fn laid(below: &rows::Word, layer: &Layer, letters: u8) -> rows::Word {
    let mut word: rows::Word = [0; 8];
    let mut rests = below.iter();
    for (t, block) in word.iter_mut().enumerate().take(layer.n) {
        *block = if has(letters, t) {
            kind_at(layer.j)
        } else {
            rests.next().copied().unwrap_or(0)
        };
    }
    word
}

// The directions of a strip, and the kind's own.
fn directions(below: u8, layer: &Layer, back: bool) -> u8 {
    if back { below | bit(layer.j) } else { below }
}

// The row of a strip with the kind on a word. Its cuts are those of the strip, and one more for each use of the rule that made the word: with 7 blocks they
// are at most 21.
fn row_of(below: &Row, layer: &Layer, word: Word, back: bool, number: usize) -> Row {
    Row {
        word: laid(&below.word, layer, word.letters),
        number,
        directions: directions(below.directions, layer, back),
        cuts: below.cuts.saturating_add(word.uses),
    }
}

// A row for each word of the kind's list, forward where the strip's number is even and backward where it is odd.
fn lay_list(rows: &mut Rows, layer: &Layer, below: &Row) {
    let back = below.number % 2 == 1;
    let list = if back {
        layer.list.reversed()
    } else {
        layer.list
    };
    for word in list.words() {
        let number = rows.len();
        rows.push(row_of(below, layer, *word, back, number));
    }
}

// The book with one kind more: each strip of the book before, in order, runs through the kind's list.
fn lay_kind(layer: &Layer, book: &[Row]) -> Rows {
    let mut rows = Rows::new();
    for below in book {
        lay_list(&mut rows, layer, below);
    }
    rows
}

// The book of a stock. That of no kind has one strip, of no blocks, and no cut.
pub fn build(lists: &Lists, stock: &[u16]) -> Rows {
    let mut rows = Rows::new();
    rows.push(Row::EMPTY);
    let mut n: usize = 0;
    for (j, count) in stock.iter().enumerate() {
        let below = n;
        n = below.saturating_add(usize::from(*count));
        let list = e(lists, n, below);
        rows = lay_kind(&Layer { j, n, list }, rows.as_slice());
    }
    rows
}
