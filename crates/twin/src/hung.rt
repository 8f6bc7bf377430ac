// The calls on strips that are hung endless compared with a book: Same paper, Stand. The strips are of as many blocks as those of the book.
use crate::rows::{Book, Word};
use crate::table::NONE;
use crate::tally::{Call, Tally};
use crate::turns::{is_turn, least_turn, turn_at, turns, word_at};
use endless::stand::{Stood, stand};
use papers::{Asked, same_paper};

fn asked(book: &Book, first: &Word, second: &Word) -> Asked {
    same_paper(book.stock, &first[..book.blocks], &second[..book.blocks])
}

fn same_agrees(book: &Book, first: &Word, second: &Word) -> bool {
    let asked = asked(book, first, second);
    let is_due = is_turn(&first[..book.blocks], second);
    asked.same == is_due && asked.refusal == NONE
}

// The strip that Stand leaves, and what it answers.
fn stood(book: &Book, strip: Word) -> (Word, Stood) {
    let mut word = strip;
    let stood = stand(book.stock, &mut word[..book.blocks]);
    (word, stood)
}

// The strip that Stand leaves where it answers no refusal.
fn standing(book: &Book, strip: &Word) -> Option<Word> {
    let (word, stood) = stood(book, *strip);
    (stood.refusal == NONE).then_some(word)
}

// Two strips have the same standing strip exactly where Same paper says yes.
fn standing_agrees(book: &Book, first: &Word, second: &Word) -> bool {
    asked(book, first, second).same == (standing(book, first) == standing(book, second))
}

// Whether Stand leaves the first of the smallest turns, and answers which that is.
fn stand_agrees(book: &Book, i: usize) -> bool {
    let strip = book.strip(i);
    let due = least_turn(strip);
    let turn = turn_at(strip.len(), due);
    let (word, stood) = stood(book, book.word(i));
    word == word_at(strip, due)
        && stood.turn == turn.places as u64
        && stood.reversed == turn.reversed
        && stood.refusal == NONE
}

// Standing a strip that stands reverses nothing, turns it by no place, and leaves it.
fn again_agrees(book: &Book, i: usize) -> bool {
    match standing(book, &book.word(i)) {
        Some(before) => {
            let (word, stood) = stood(book, before);
            word == before && stood.turn == 0 && !stood.reversed && stood.refusal == NONE
        }
        None => false,
    }
}

fn compare_pair(tally: &mut Tally, book: &Book, first: &Word, second: &Word) {
    tally.note(Call::SamePaper, same_agrees(book, first, second));
    tally.note(Call::SameStanding, standing_agrees(book, first, second));
}

// The strip of a number with each of its turns.
fn compare_turns(tally: &mut Tally, book: &Book, i: usize) {
    let strip = book.strip(i);
    for turn in 0..turns(strip) {
        compare_pair(tally, book, &book.word(i), &word_at(strip, turn));
    }
}

// The strip of a number with every strip, for stocks of up to 4 blocks, and else with the next three of the book.
fn compare_others(tally: &mut Tally, book: &Book, i: usize) {
    let (first, many) = if book.blocks <= 4 {
        (0, book.rows.len())
    } else {
        (i.saturating_add(1), 3)
    };
    for other in book.rows.iter().skip(first).take(many) {
        compare_pair(tally, book, &book.word(i), &other.word);
    }
}

// The strip of a number, hung endless.
pub fn compare_hung(tally: &mut Tally, book: &Book, i: usize) {
    tally.note(Call::Stand, stand_agrees(book, i));
    tally.note(Call::StandAgain, again_agrees(book, i));
    compare_turns(tally, book, i);
    compare_others(tally, book, i);
}
