// Replay compared with what is to come of a list of pairs.
ghost use Rattle.std.specs.Prelude.{◌≤◌};

use crate::rows::Book;
use crate::stood::{Due, Told, due};
use crate::table::{Reason, refusal_of};
use crate::tally::{Call, Tally};
use replaying::replay::{Replayed, replay};

fn answer_agrees(replayed: Replayed, told: Told) -> bool {
    replayed.walked == told.walked as u64
        && replayed.different == told.different as u64
        && replayed.missing == told.missing as u64
}

fn replay_agrees(book: &Book, from: usize, due: Due, pairs: &[u8]) -> bool {
    let told = due.unwrap_or(Told {
        walked: 0,
        different: 0,
        missing: 0,
        to: from,
    });
    let mut word = book.word(from);
    let replayed = replay(book.stock, &mut word[..book.blocks], pairs);
    word == book.word(told.to)
        && replayed.refusal == refusal_of(due)
        && answer_agrees(replayed, told)
}

// A book of more than 4,096 strips is refused, whatever the pairs are.
fn unless_large(book: &Book, due: Due) -> Due {
    if 4096 < book.rows.len() {
        return Err(Reason::Large.at(0));
    }
    due
}

// A list of pairs from the strip of a number, with what is to come of it in a book that is not too large, and what it is counted as where it is not refused.
pub fn compare_replay(
    tally: &mut Tally,
    book: &Book,
    from: usize,
    pairs: &[u8],
    due: Due,
    right: Call,
) {
    let awaited = unless_large(book, due);
    let call = match awaited {
        Ok(_) => right,
        Err(refused) if refused.reason == Reason::Large => Call::ReplayLarge,
        Err(_) => Call::ReplayWrong,
    };
    tally.note(call, replay_agrees(book, from, awaited, pairs));
}

// Any list, from the strip of a number.
pub fn compare_list(tally: &mut Tally, book: &Book, from: usize, pairs: &[u8]) {
    let due = due(book, from, pairs);
    compare_replay(tally, book, from, pairs, due, Call::ReplayExchanges);
}

// Every list of up to four bytes from 0 to 5 has a code: 0 that of no byte, then come those of one byte, of two and so on. The bytes are the last digits of
// the code by sixes, which are others for each of as many codes in a row as there are lists of one length.
const CODES: usize = 1555;

fn digits(code: usize) -> [u8; 4] {
    [
        (code % 6) as u8,
        (code / 6 % 6) as u8,
        (code / 36 % 6) as u8,
        (code / 216 % 6) as u8,
    ]
}

fn length(code: usize) -> usize
    ensures { result ≤ 4 }
{
    match code {
        0 => 0,
        1..=6 => 1,
        7..=42 => 2,
        43..=258 => 3,
        _ => 4,
    }
}

// From the strip of a number every such list: where a strip has up to 4 blocks, all its places are among the bytes, and bytes that are no place.
pub fn compare_few(tally: &mut Tally, book: &Book, from: usize) {
    for code in 0..CODES {
        compare_list(tally, book, from, &digits(code)[..length(code)]);
    }
}
