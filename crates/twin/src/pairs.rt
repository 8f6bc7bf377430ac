// The calls on two strips compared with a book: Which, Earlier, Distance.
use crate::parting::parting_kind;
use crate::rows::Book;
use crate::table::NONE;
use crate::tally::{Call, Tally};
use comparing::earlier::earlier;
use comparing::which::which;
use measuring::distance::distance;
use std::cmp::Ordering;

// 1 for the first of two strips, 2 for the second, 3 where they are the same.
fn code(order: Ordering) -> u8 {
    match order {
        Ordering::Less => 1,
        Ordering::Greater => 2,
        Ordering::Equal => 3,
    }
}

fn which_agrees(stock: &[u16], first: &[u8], second: &[u8], order: Ordering) -> bool {
    let compared = which(stock, first, second);
    compared.which == code(order) && compared.refusal == NONE
}

fn kind_agrees(stock: &[u16], first: &[u8], second: &[u8]) -> bool {
    which(stock, first, second).kind == parting_kind(first, second).unwrap_or(0)
}

fn earlier_agrees(stock: &[u16], first: &[u8], second: &[u8], order: Ordering) -> bool {
    let found = earlier(stock, first, second);
    match order {
        Ordering::Greater => found == second,
        _ => found == first,
    }
}

fn distance_agrees(stock: &[u16], first: &[u8], second: &[u8], moves: i64) -> bool {
    let apart = distance(stock, first, second);
    apart.moves == moves && apart.refusal == NONE
}

// One number minus another, of small ones.
fn minus(to: usize, from: usize) -> i64 {
    (to as u64).wrapping_sub(from as u64).cast_signed()
}

// The strips of two numbers.
pub fn compare_pair(tally: &mut Tally, book: &Book, i: usize, j: usize) {
    let stock = book.stock;
    let first = book.strip(i);
    let second = book.strip(j);
    let order = i.cmp(&j);
    tally.note(Call::Which, which_agrees(stock, first, second, order));
    tally.note(Call::Kind, kind_agrees(stock, first, second));
    tally.note(Call::Earlier, earlier_agrees(stock, first, second, order));
    tally.note(
        Call::Distance,
        distance_agrees(stock, first, second, minus(j, i)),
    );
}
