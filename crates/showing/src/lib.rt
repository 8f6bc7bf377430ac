// Showing: the strip that a printer shows, strip after strip of a stock's book, or standing strip after standing strip of its dictionary.
#![tactic(auto)]

ghost use Rattle.std.specs.Prelude.{◌<◌, ◌≡◌, Bool, true, false, Some};
ghost use Rattle.rules.specs.Stock.{IsStock};
ghost use Rattle.showing.specs.States.{of_papers, shown_at, next_shown, Held, Shows};

use counting::first::first;
use endless::next_paper::next_paper;
use stock::blocks;
use walker::Walker;
use walker::directions::walker_of;
use walking::stepping::step;

// What is printed of a stock: its book, or its papers.
#[derive(Clone, Copy, PartialEq, Eq)]
pub enum Listing {
    Book,
    Papers,
}

// A strip, which has as many blocks as its stock, then its number in the book or in the dictionary, its index among those that are printed, and its walker. The
// papers need no walker: theirs stays that of the first strip.
#[derive(Clone, Copy)]
pub struct Shown {
    pub strip: [u8; 64],
    pub number: u64,
    pub index: u64,
    pub walker: Walker,
}

// Strip 0 of the book. It is the first of the dictionary too, and standing, so it comes first either way.
pub fn show_first(stock: &[u16]) -> Shown
    requires { IsStock stock.now }
    ensures { (papers : Bool) → result ≡ shown_at papers stock.now 0 }
{
    let n = blocks(stock);
    let mut strip: [u8; 64] = [0; 64];
    first(stock, &mut strip[..n]);
    let walker = walker_of(stock, &strip[..n]);
    Shown {
        strip,
        number: 0,
        index: 0,
        walker,
    }
}

// The next strip of the book; none after the last.
fn next_in_book(stock: &[u16], shown: Shown) -> Option<Shown>
    requires { Held false stock.now shown × (shown.index < 4095) }
    ensures { result ≡ next_shown false stock.now (Some shown) }
{
    let n = blocks(stock);
    let mut strip = shown.strip;
    let made = step(stock, &mut strip[..n], shown.walker, false)?;
    Some(Shown {
        strip,
        number: shown.number + 1,
        index: shown.index + 1,
        walker: made.walker,
    })
}

// The next standing strip of the dictionary; none where none stands before number 1,000,000.
fn next_in_papers(stock: &[u16], shown: Shown) -> Option<Shown>
    requires { Held true stock.now shown × (shown.index < 4095) }
    ensures { result ≡ next_shown true stock.now (Some shown) }
{
    let n = blocks(stock);
    let mut strip = shown.strip;
    let given = 999999 - shown.number;
    let stepped = next_paper(stock, &mut strip[..n], given);
    // The call answers C's record.
    if stepped.outcome != 1 {
        return None;
    }
    Some(Shown {
        strip,
        number: shown.number + stepped.steps,
        index: shown.index + 1,
        walker: shown.walker,
    })
}

// The next strip of either; none after index 4,095.
#[tactic(auto, using(crate::proofs::Showing::next_last, printed::proofs::Lines::few_strips))]
pub fn show_next(stock: &[u16], listing: Listing, shown: Option<Shown>) -> Option<Shown>
    requires { Shows (of_papers listing) stock.now shown }
    ensures { result ≡ next_shown (of_papers listing) stock.now shown }
{
    let shown = shown?;
    if 4095 <= shown.index {
        return None;
    }
    match listing {
        Listing::Book => next_in_book(stock, shown),
        Listing::Papers => next_in_papers(stock, shown),
    }
}
