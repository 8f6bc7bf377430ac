// The number of a strip in the dictionary, from its last block to its first.
ghost use Rattle.std.specs.Prelude.{◌^◌, ◌≤◌, ◌<◌, ◌≡◌, sum, take, MatchOption};
ghost use Rattle.rules.specs.Stock.{total, IsStock, IsStrip};
ghost use Rattle.rules.specs.Book.{place_in};
ghost use Rattle.dictionary.specs.Dictionary.{dictionary};

use crate::growing::grown;
use choose::scale;

// Where a strip stands: how many strips its stock has, and its number among them.
#[derive(Clone, Copy)]
pub struct Entry {
    pub strips: u64,
    pub number: u64,
}

// How many of the blocks that are counted are of a lower kind.
fn lower_kinds(seen: &[u64; 17], kind: usize) -> u64
    requires { (kind < 17) × (sum (take kind seen.now) ≤ 64) }
    ensures { result ≡ sum (take kind seen.now) }
{
    seen[..kind].iter().sum()
}

// The place of a strip in the dictionary of its stock, which is not looked at itself; none where the dictionary has 2^64 strips or more. Of the blocks from i
// on: how many there are of each kind, how many orders they have, and how many of these orders come before theirs.
pub fn entry_of(stock: &[u16], strip: &[u8]) -> Option<Entry>
    requires { IsStock stock.now × IsStrip stock.now strip.now }
    ensures { MatchOption result (2 ^ 64 ≤ total stock.now) (λ entry. (entry.strips ≡ total stock.now) × (total stock.now < 2 ^ 64) × (entry.number ≡ place_in (dictionary stock.now) strip.now)) }
{
    let mut seen: [u64; 17] = [0; 17];
    let mut orders: u64 = 1;
    let mut number: u64 = 0;
    for i in (0..strip.len()).rev() {
        let n = (strip.len() - i) as u64;
        let kind = strip[i] as usize;
        let alike = seen[kind] + 1;
        let less = lower_kinds(&seen, kind);
        let more = grown(orders, n, alike)?;
        number += scale(orders, less, alike);
        orders = more;
        seen[kind] = alike;
    }
    Some(Entry {
        strips: orders,
        number,
    })
}
