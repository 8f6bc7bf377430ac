// The number of a strip and its cuts, kind after kind.
ghost use Rattle.std.specs.Prelude.{◌+◌, ◌*◌, ◌^◌, ◌≤◌, ◌<◌, ◌≡◌};
ghost use Rattle.rules.specs.Stock.{total, IsStock, IsStrip};
ghost use Rattle.rules.specs.Book.{book, place_in};
ghost use Rattle.rules.proofs.Snake.{numbered};
ghost use Rattle.cuts.specs.Cuts.{strip_cuts};
ghost use Rattle.counting.specs.Patterns.{ArePatterns};

use pattern::{faced, index_of, reduce};

// A strip's place in its book, and the cuts for all its kinds. The cuts are narrower, so that each of the two is read back by itself: both at once takes
// longer.
#[derive(Clone, Copy)]
pub struct Placed {
    pub number: u64,
    pub cuts: u32,
}

// One kind more: the number before times the patterns of the kind, and the index, counted backward where the number before is odd.
fn numbered_by(patterns: u64, number: u64, index: u64) -> u64
    requires { (index < patterns) × (number * patterns + patterns ≤ 2 ^ 64) }
    ensures { result ≡ numbered patterns number index }
{
    number * patterns + faced(number % 2 == 1, patterns, index)
}

// The number and the cuts of a strip whose stock can be numbered, one kind more at a time. There is no heap here: one word of 64 blocks serves all kinds.
pub fn number_of(patterns: &[u64; 16], stock: &[u16], strip: &[u8]) -> Placed
    requires { ArePatterns stock.now patterns.now × IsStock stock.now × IsStrip stock.now strip.now × (total stock.now < 2 ^ 64) }
    ensures { (result.number ≡ place_in (book stock.now) strip.now) × (result.cuts ≡ strip_cuts stock.now strip.now) }
{
    let mut word = [0; 64];
    let mut number: u64 = 0;
    let mut cuts: u32 = 0;
    let mut below: usize = 0;
    for (j, many) in patterns[..stock.len()].iter().enumerate() {
        let kind = (j + 1) as u8;
        let n = reduce(strip, kind, &mut word);
        let found = index_of(*many, &word[..n], kind, below);
        number = numbered_by(*many, number, found.index);
        cuts += found.cuts;
        below = n;
    }
    Placed { number, cuts }
}
