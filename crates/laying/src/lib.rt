// Laying a kind and a lower strip by the pattern of an index.
#![tactic(auto)]

mod letters;
mod parting;

ghost use Rattle.std.specs.Prelude.{◌≤◌, ◌<◌, ◌≡◌, [], length, take, get_or};
ghost use Rattle.rules.specs.Stock.{binom};
ghost use Rattle.rules.specs.Book.{E, lay};

use letters::{blocks_left, laid};
use parting::Patterns;

// The first `others` blocks of the lent word are a lower strip. Lays the kind and that strip by the pattern of the index in E(a, others), a the
// word's length. The letters are found from the last to the first; a places and b blocks of the strip are left, with all their patterns and the index
// among them. A block is never read right of the place that is written, so one word serves for both. Where only R is left, the blocks stand in their
// places already.
pub fn lay_at(patterns: u64, word: &mut [u8], others: usize, kind: u8, index: u64)
    requires { (patterns ≡ binom (length word.old) others) × (length word.old ≤ 64) × (others ≤ length word.old) × (index < patterns) }
    ensures { word.new ≡ lay kind (take others word.old) (get_or (E (length word.old) others) index []) }
{
    let mut a = word.len();
    let mut b = others;
    let mut left = Patterns {
        all: patterns,
        index,
        times: 1,
    };
    let mut turned = false;
    // A `for` over the places would test an end of its own beside this one: with it, Strip took 3 to 4 hundredths longer.
    while b < a {
        let shares = left.parted(a, b);
        let is_k = shares.is_k();
        a -= 1;
        b = blocks_left(is_k, b);
        let block = word[b];
        word[a] = laid(is_k, kind, block);
        left = shares.left(turned);
        turned = shares.turned_left(turned);
    }
}
