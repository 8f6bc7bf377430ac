// Builds whole books by the rule of document 01 itself, for every stock of up to 7 blocks in which each kind has blocks, and for those of up to 4
// blocks also with a kind without blocks before some of the kinds, and compares them number by number with what the calls answer. Words and strips are
// listed one after the other: nothing is ranked, and no strip is moved to get the next one; and the uses of the pattern rule are counted as the lists of
// words are written. The dictionary of a stock is its book, sorted by comparing strips block by block. The turns of a strip, as it stands and read backwards,
// are written down one after the other, and the next paper is looked for in the sorted book. The next strip without equal neighbours is looked for in the book
// itself, for panels and for endless papers. The strips that stood on the bar are written down one after the other, and looked for in the book. For stocks of
// up to 4 blocks every strip is compared with every other, press sheets are made from the strips of the book, cut and spoiled, and compared with what is
// rebuilt of them, sheets of both editions are made of moves and strides, right or wrong, and compared with what is read, written and rewritten, and every
// list of up to four bytes from 0 to 5 is replayed, right or wrong. Of one book that no number of 64 bits counts, the first strips and the last are written
// down, and its sheets compared.
#![tactic(auto)]

mod books;
mod compare;
mod editions;
mod endings;
mod filed;
mod formed;
mod hung;
mod orders;
mod pairs;
mod parting;
mod patterns;
mod pressed;
mod replays;
mod rows;
mod runs;
mod search;
mod single;
mod sought;
mod spaced;
mod spoiled;
mod stocks;
mod stood;
mod strode;
mod table;
mod tally;
mod turns;
mod vast;
mod walk_moves;
mod ways;

ghost use Rattle.std.specs.Prelude.{◌≤◌};

use books::build;
use compare::compare_book;
use patterns::{Lists, bit};
use rows::Book;
use std::io;
use stocks::cut;
use tally::Tally;
use vast::compare_vast;

// The stock of n blocks with these cuts and gaps.
fn compare_cut(lists: &Lists, tally: &mut Tally, n: usize, cuts: u8, gaps: u8)
    requires { n ≤ 8 }
{
    let parts = cut(n, cuts, gaps);
    let rows = build(lists, parts.stock());
    let book = Book {
        stock: parts.stock(),
        rows: rows.as_slice(),
        blocks: n,
    };
    compare_book(tally, &book);
}

// Whether a kind begins at each of these blocks: at block 0, or behind a cut, of which there is none behind the last of eight blocks.
fn are_starts(gaps: u8, cuts: u8) -> bool {
    cuts < 128 && gaps & (2 * cuts + 1) == gaps
}

// The stock of n blocks with these cuts; with up to 4 blocks also with a kind without blocks before some of its kinds, or before each.
fn compare_gaps(lists: &Lists, tally: &mut Tally, n: usize, cuts: u8)
    requires { n ≤ 8 }
{
    let ways = if n <= 4 { bit(n) } else { 1 };
    for gaps in 0..ways {
        if are_starts(gaps, cuts) {
            compare_cut(lists, tally, n, cuts, gaps);
        }
    }
}

// Every stock of n blocks: before the last, n - 1 places where the blocks are cut or not.
fn compare_stocks(lists: &Lists, tally: &mut Tally, places: usize)
    requires { places ≤ 7 }
{
    for cuts in 0..bit(places) {
        compare_gaps(lists, tally, places + 1, cuts);
    }
}

fn main(rt: HostRuntime) -> io::Result<()> {
    let lists = patterns::lists();
    let mut tally = Tally::new();
    for places in 0..7 {
        compare_stocks(&lists, &mut tally, places);
    }
    compare_vast(&mut tally);
    tally::print(&rt, &tally)
}
