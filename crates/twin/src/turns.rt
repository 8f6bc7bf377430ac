// The turns of a strip by the rule itself: each is written down as a whole, and whole turns are compared. They stand in a row: first the strip as it stands,
// turned by 0 to n - 1 places, and then the strip read backwards, turned by as many. So the first of the smallest is the one that Stand is to take.
use crate::rows::{Word, padded};

// A turn of a strip: whether that is read backwards, its last block first, and by how many places it is then turned.
#[derive(Clone, Copy)]
pub struct Turn {
    pub reversed: bool,
    pub places: usize,
}

// The turn at an index of the row of a strip of n blocks.
pub fn turn_at(n: usize, i: usize) -> Turn {
    Turn {
        reversed: n <= i,
        places: if i < n { i } else { i - n },
    }
}

// A strip so turned: the first blocks, in order, to the end.
fn turned(strip: &[u8], turn: Turn) -> Word {
    let mut word: Word = padded(strip, 0);
    if let Some(blocks) = word.get_mut(..strip.len()) {
        if turn.reversed {
            blocks.reverse();
        }
        if turn.places <= blocks.len() {
            blocks.rotate_left(turn.places);
        }
    }
    word
}

// How many turns stand in the row of a strip.
pub fn turns(strip: &[u8]) -> usize {
    strip.len().min(8) * 2
}

// The strip at an index of the row.
pub fn word_at(strip: &[u8], i: usize) -> Word {
    turned(strip, turn_at(strip.len(), i))
}

// The first index whose turn comes before every other turn, or is the same.
pub fn least_turn(strip: &[u8]) -> usize {
    (0..turns(strip))
        .min_by_key(|i| word_at(strip, *i))
        .unwrap_or(0)
}

// Whether a strip is a turn of another of the same length.
pub fn is_turn(first: &[u8], second: &Word) -> bool {
    (0..turns(first)).any(|i| word_at(first, i) == *second)
}

// Whether a strip is the smallest of its turns.
pub fn stands(strip: &[u8]) -> bool {
    word_at(strip, least_turn(strip)) == padded(strip, 0)
}
