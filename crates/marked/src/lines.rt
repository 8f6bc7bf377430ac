// A printed line for each call.
use crate::say;
use counting::count::count;
use measuring::distance::distance;
use numbering::number::number;
use numbering::strip::strip;
use running::run::run;
use std::io::{self, Stdout};
use walker::open::open;
use walking::walk::walk;

pub fn of_count(stdout: Stdout, stock: &[u16]) -> io::Result<()> {
    say::call(stdout, "Count", stock)?;
    let counted = count(stock);
    say::number(stdout, counted.refusal, counted.total)
}

pub fn of_number(stdout: Stdout, stock: &[u16], blocks: &[u8]) -> io::Result<()> {
    say::call_on(stdout, "Number", stock, blocks)?;
    let numbered = number(stock, blocks);
    say::number(stdout, numbered.refusal, numbered.number)
}

// The strip stays in the lent buffer.
pub fn of_strip(stdout: Stdout, stock: &[u16], at: u64, buffer: &mut [u8]) -> io::Result<()> {
    say::call_at(stdout, "Strip", stock, at)?;
    let refused = strip(stock, at, buffer);
    say::blocks(stdout, refused, buffer)
}

// From the first strip of a book to a far one: only whether it is refused is of interest.
pub fn of_distance(stdout: Stdout, stock: &[u16], first: &[u8], to: &[u8]) -> io::Result<()> {
    say::call_on(stdout, "Distance from the first", stock, to)?;
    say::refusal(stdout, distance(stock, first, to).refusal)
}

pub fn of_walk(stdout: Stdout, stock: &[u16], blocks: &mut [u8], back: bool) -> io::Result<()> {
    let name = if back { "Walk back" } else { "Walk on" };
    say::call_on(stdout, name, stock, blocks)?;
    let walker = open(stock, blocks).walker;
    say::places(stdout, walk(stock, blocks, walker, back))
}

pub fn of_run(
    stdout: Stdout,
    stock: &[u16],
    blocks: &mut [u8],
    back: bool,
    list: &mut [u8],
) -> io::Result<()> {
    let name = if back { "Run back" } else { "Run on" };
    say::call_on(stdout, name, stock, blocks)?;
    let walker = open(stock, blocks).walker;
    say::moves(stdout, run(stock, blocks, walker, back, list))
}
