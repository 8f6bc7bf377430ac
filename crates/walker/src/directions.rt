// The walker of a strip, kind after kind.
ghost use Rattle.std.specs.Prelude.{◌≡◌};
ghost use Rattle.rules.specs.Stock.{IsStock, IsStrip};
ghost use Rattle.walker.specs.Walkers.{walker_for};

use crate::Walker;
use pattern::{odd_index_of, reduce};

// The walker of a strip: a kind runs backward where the reduced strip before it has an odd number. With one kind more the number turns from odd to even,
// or back, where the index of the kind's pattern is odd: however many patterns there are, and whatever the number, which may be 2^64 or more.
pub fn walker_of(stock: &[u16], strip: &[u8]) -> Walker
    requires { IsStock stock.now × IsStrip stock.now strip.now }
    ensures { result ≡ walker_for stock.now strip.now }
{
    let mut w = Walker::FORWARD;
    // Fixed memory: a reduced strip has at most 64 blocks, and how many is what `reduce` answers.
    let mut word = [0; 64];
    let mut odd = false;
    let mut below = 0;
    for j in 0..stock.len() {
        w.back[j] = odd;
        let kind = (j + 1) as u8;
        let n = reduce(strip, kind, &mut word);
        let odd_index = odd_index_of(&word[..n], kind, below);
        odd = odd != odd_index;
        below = n;
    }
    w
}
