// The strip of a number: down the kinds for the indices of their patterns, and up again to lay them.
ghost use Rattle.std.specs.Prelude.{ℕ, suc, ◌<◌, ◌≡◌, [], length, get_or};
ghost use Rattle.rules.specs.Stock.{sum, total, IsStock};
ghost use Rattle.rules.specs.Book.{book, reduced};
ghost use Rattle.rules.proofs.Index.{index};
ghost use Rattle.counting.specs.Patterns.{ArePatterns};

use laying::lay_at;
use pattern::faced;

// The index of each kind's pattern in the strip of a number, from the last kind to the first. The quotient is the number of the kinds before, and
// the rest is the place in the kind's list, counted backward where that number is odd.
fn indices_of(patterns: &[u64; 16], stock: &[u16], number: u64) -> [u64; 16]
    requires { ArePatterns stock.now patterns.now × IsStock stock.now × (number < total stock.now) }
    ensures { (j : ℕ) → j < length stock.now → get_or result j 0 ≡ index (suc j) (reduced (suc j) (get_or (book stock.now) number [])) }
{
    let mut indices = [0; 16];
    let mut left = number;
    for j in (0..stock.len()).rev() {
        let many = patterns[j];
        let place = left % many;
        left /= many;
        indices[j] = faced(left % 2 == 1, many, place);
    }
    indices
}

// The strip of a number, one kind more at a time.
pub fn strip_of(patterns: &[u64; 16], stock: &[u16], number: u64, strip: &mut [u8])
    requires { ArePatterns stock.now patterns.now × IsStock stock.now × (length strip.old ≡ sum stock.now) × (number < total stock.now) }
    ensures { strip.new ≡ get_or (book stock.now) number [] }
{
    let indices = indices_of(patterns, stock, number);
    let mut below: usize = 0;
    for (j, count) in stock.iter().enumerate() {
        let n = below + usize::from(*count);
        let kind = (j + 1) as u8;
        lay_at(patterns[j], &mut strip[..n], below, kind, indices[j]);
        below = n;
    }
}
