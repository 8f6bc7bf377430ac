// A printed line for each call on dictionary numbers.
use crate::say;
use converting::{to_book, to_dictionary};
use drawers::next::dictionary_next;
use drawers::number::dictionary_number;
use drawers::strip::dictionary_strip;
use std::io::{self, Stdout};

pub fn of_number(stdout: Stdout, stock: &[u16], blocks: &[u8]) -> io::Result<()> {
    say::call_on(stdout, "Dictionary number", stock, blocks)?;
    let filed = dictionary_number(stock, blocks);
    say::number(stdout, filed.refusal, filed.number)
}

// The strip stays in the lent buffer.
pub fn of_strip(stdout: Stdout, stock: &[u16], at: u64, buffer: &mut [u8]) -> io::Result<()> {
    say::call_at(stdout, "Dictionary strip", stock, at)?;
    let refused = dictionary_strip(stock, at, buffer);
    say::blocks(stdout, refused, buffer)
}

pub fn of_next(stdout: Stdout, stock: &[u16], blocks: &mut [u8]) -> io::Result<()> {
    say::call_on(stdout, "Dictionary next", stock, blocks)?;
    let refused = dictionary_next(stock, blocks);
    say::blocks(stdout, refused, blocks)
}

pub fn of_to_dictionary(stdout: Stdout, stock: &[u16], at: u64) -> io::Result<()> {
    say::call_at(stdout, "To dictionary", stock, at)?;
    let filed = to_dictionary(stock, at);
    say::number(stdout, filed.refusal, filed.number)
}

pub fn of_to_book(stdout: Stdout, stock: &[u16], at: u64) -> io::Result<()> {
    say::call_at(stdout, "To book", stock, at)?;
    let filed = to_book(stock, at);
    say::number(stdout, filed.refusal, filed.number)
}
