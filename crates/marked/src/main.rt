// Runs the marked strips of document 01 that are not proved, the marked numbers of 1 2 2, a strip for each refusal from 1 to 6, the calls on
// dictionary numbers where a dictionary ends, and damaged sheets where a book ends and where it has 2^64 strips or more. A line says the call, what it
// was lent and what came.
//
// An array that many lines need is lent in one small function: each place that lends one makes the check of its function longer.
#![tactic(auto)]

mod filed;
mod lines;
mod rebuilt;
mod say;

ghost use Rattle.std.specs.Prelude.{◌≤◌};

use counting::first::first;
use std::io::{self, Stdout};

// A strip of counts 1 2 2.
fn of_1_2_2(stdout: Stdout, blocks: [u8; 5]) -> io::Result<()> {
    lines::of_number(stdout, &[1, 2, 2], &blocks)
}

// Run from strip 9, with room for 4 moves, 9 and 20.
fn runs_of_1_2_2(stdout: Stdout, back: bool) -> io::Result<()> {
    lines::of_run(stdout, &[1, 2, 2], &mut [3, 3, 1, 2, 2], back, &mut [0; 8])?;
    lines::of_run(stdout, &[1, 2, 2], &mut [3, 3, 1, 2, 2], back, &mut [0; 19])?;
    lines::of_run(stdout, &[1, 2, 2], &mut [3, 3, 1, 2, 2], back, &mut [0; 40])
}

// The seven marked numbers, and the two ends of the book.
fn book_of_1_2_2(stdout: Stdout) -> io::Result<()> {
    lines::of_count(stdout, &[1, 2, 2])?;
    of_1_2_2(stdout, [1, 2, 2, 3, 3])?;
    of_1_2_2(stdout, [1, 2, 3, 3, 2])?;
    of_1_2_2(stdout, [1, 3, 3, 2, 2])?;
    of_1_2_2(stdout, [3, 3, 1, 2, 2])?;
    of_1_2_2(stdout, [3, 3, 2, 1, 2])?;
    of_1_2_2(stdout, [2, 2, 1, 3, 3])?;
    of_1_2_2(stdout, [3, 3, 2, 2, 1])?;
    lines::of_walk(stdout, &[1, 2, 2], &mut [3, 3, 2, 2, 1], false)?;
    lines::of_walk(stdout, &[1, 2, 2], &mut [1, 2, 2, 3, 3], true)?;
    runs_of_1_2_2(stdout, false)?;
    runs_of_1_2_2(stdout, true)
}

// One kind, and counts that are refused.
fn single_kinds(stdout: Stdout) -> io::Result<()> {
    lines::of_count(stdout, &[64])?;
    lines::of_run(stdout, &[64], &mut [1; 64], false, &mut [0; 8])?;
    lines::of_run(stdout, &[64], &mut [1; 64], true, &mut [0; 8])?;
    lines::of_count(stdout, &[65])?;
    lines::of_count(stdout, &[0])?;
    lines::of_count(stdout, &[0, 70])?;
    lines::of_count(stdout, &[70, 0])
}

// A book with nearly 2^64 strips.
fn long_book(stdout: Stdout, stock: &[u16], front: &mut [u8], last: &mut [u8]) -> io::Result<()> {
    lines::of_count(stdout, stock)?;
    lines::of_strip(stdout, stock, 14428278950913093727, last)?;
    lines::of_number(stdout, stock, last)?;
    first(stock, front);
    lines::of_distance(stdout, stock, front, last)
}

// A book with 2^64 strips or more.
fn longer_book(stdout: Stdout, stock: &[u16], blocks: &mut [u8]) -> io::Result<()> {
    lines::of_count(stdout, stock)?;
    first(stock, blocks);
    lines::of_number(stdout, stock, blocks)?;
    lines::of_walk(stdout, stock, blocks, false)
}

// Four blocks, for any counts.
fn of_1223(stdout: Stdout, stock: &[u16]) -> io::Result<()> {
    lines::of_number(stdout, stock, &[1, 2, 2, 3])
}

// A strip of counts 1 0 2, whose kind 2 has no blocks.
fn of_1_0_2(stdout: Stdout, blocks: [u8; 3]) -> io::Result<()> {
    lines::of_number(stdout, &[1, 0, 2], &blocks)
}

// Number with each refusal from 1 to 6: 70 0 has 2 and 3, and 12430 has 5 and 6. A byte that names a kind without blocks is 6.
fn refused(stdout: Stdout) -> io::Result<()> {
    of_1223(stdout, &[])?;
    of_1223(stdout, &[1; 17])?;
    of_1223(stdout, &[2, 1, 0])?;
    of_1223(stdout, &[70, 0])?;
    of_1223(stdout, &[0, 70])?;
    of_1223(stdout, &[65])?;
    of_1223(stdout, &[1, 2, 2])?;
    of_1_2_2(stdout, [1, 2, 4, 3, 0])?;
    of_1_2_2(stdout, [1, 2, 3, 3, 3])?;
    of_1_0_2(stdout, [3, 1, 3])?;
    of_1_0_2(stdout, [3, 2, 3])?;
    of_1_0_2(stdout, [1, 2, 3])
}

// The end of a dictionary with nearly 2^64 strips, and the number behind it.
fn long_dictionary(stdout: Stdout, stock: &[u16], last: &mut [u8]) -> io::Result<()> {
    filed::of_strip(stdout, stock, 14428278950913093727, last)?;
    filed::of_number(stdout, stock, last)?;
    filed::of_next(stdout, stock, last)?;
    filed::of_strip(stdout, stock, 14428278950913093728, last)
}

// A dictionary with 2^64 strips or more: numbers are refused, and the next strip is found all the same.
fn longer_dictionary(stdout: Stdout, stock: &[u16], blocks: &mut [u8]) -> io::Result<()> {
    first(stock, blocks);
    filed::of_number(stdout, stock, blocks)?;
    filed::of_next(stdout, stock, blocks)?;
    filed::of_to_dictionary(stdout, stock, 0)
}

fn dictionaries(stdout: Stdout) -> io::Result<()> {
    long_dictionary(stdout, &[30, 31, 1], &mut [0; 62])?;
    longer_dictionary(stdout, &[31, 31, 1], &mut [0; 63])?;
    filed::of_to_book(stdout, &[70, 0], 0)?;
    filed::of_next(stdout, &[64], &mut [1; 64])
}

// A sheet of 1 2 2 in 95 bytes, which have room for four moves.
fn sheet_of_1_2_2(stdout: Stdout, blocks: [u8; 5], moves: u64, spoiled: usize) -> io::Result<()> {
    rebuilt::of_rebuild(
        stdout,
        &[1, 2, 2],
        &blocks,
        moves,
        &mut [7; 95],
        spoiled,
        &mut [0; 95],
    )
}

// The first strip of a book with 2^64 strips or more, and three moves, in so many bytes and with so much room.
fn sheet_of_31_31_1(stdout: Stdout, bytes: usize, room: usize) -> io::Result<()>
    requires { (bytes ≤ 92) × (room ≤ 92) }
{
    let stock: [u16; 3] = [31, 31, 1];
    let mut front: [u8; 63] = [0; 63];
    let mut sheet: [u8; 92] = [0; 92];
    let mut out: [u8; 92] = [0; 92];
    first(&stock, &mut front);
    rebuilt::of_rebuild(
        stdout,
        &stock,
        &front,
        3,
        &mut sheet[0..bytes],
        86,
        &mut out[0..room],
    )
}

// Four moves with the second spoiled, and with the end spoiled; one move left in the book, and other bytes behind its end; a spoiled strip; three moves
// of the larger book, a sheet cut within its strip, and too little room.
fn sheets(stdout: Stdout) -> io::Result<()> {
    sheet_of_1_2_2(stdout, [3, 3, 1, 2, 2], 4, 86)?;
    sheet_of_1_2_2(stdout, [3, 3, 1, 2, 2], 4, 94)?;
    sheet_of_1_2_2(stdout, [3, 2, 3, 2, 1], 1, 94)?;
    sheet_of_1_2_2(stdout, [3, 3, 1, 2, 2], 4, 18)?;
    sheet_of_31_31_1(stdout, 92, 92)?;
    sheet_of_31_31_1(stdout, 81, 92)?;
    sheet_of_31_31_1(stdout, 92, 91)
}

fn main(rt: HostRuntime) -> io::Result<()> {
    let stdout = rt.stdout();
    book_of_1_2_2(stdout)?;
    single_kinds(stdout)?;
    long_book(stdout, &[30, 31, 1], &mut [0; 62], &mut [0; 62])?;
    longer_book(stdout, &[31, 31, 1], &mut [0; 63])?;
    lines::of_count(stdout, &[3, 3, 3, 3, 3])?;
    lines::of_count(stdout, &[2, 3, 5, 2, 3])?;
    refused(stdout)?;
    dictionaries(stdout)?;
    sheets(stdout)
}
