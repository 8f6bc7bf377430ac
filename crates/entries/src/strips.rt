// The strip of a number in the dictionary, from its first block to its last.
ghost use Rattle.std.specs.Prelude.{◌≤◌, ◌<◌, ◌≡◌, [], length, get_or, take};
ghost use Rattle.rules.specs.Stock.{sum, total, IsStock};
ghost use Rattle.dictionary.specs.Dictionary.{dictionary};
ghost use Rattle.entries.specs.Picking.{Picked};

use choose::scale;

// The kind that stands next, counted from 0; how many orders begin with a kind before it, and how many with it.
#[derive(Clone, Copy)]
struct Choice {
    kind: usize,
    ahead: u64,
    own: u64,
}

// The counts of a stock, in an array.
fn counts_of(stock: &[u16]) -> [u64; 16]
    requires { length stock.now ≤ 16 }
    ensures { (length result ≡ 16) × (take (length stock.now) result ≡ stock.now) }
{
    let mut counts = [0; 16];
    for (kind, count) in stock.iter().enumerate() {
        counts[kind] = u64::from(*count);
    }
    counts
}

// Which kind stands next in the order at the place `rest` of all orders of the n blocks left, so many of each kind. They are `ways`, and each kind begins as
// large a share of them as it has of the blocks. The shares of all kinds are all the orders, so the place is in one of them.
fn choose_kind(left: &[u64], n: u64, ways: u64, rest: u64) -> Choice
    requires { (length left.now ≤ 16) × (sum left.now ≡ n) × (0 < n) × (n ≤ 64) × (ways ≡ total left.now) × (rest < ways) }
    ensures { Picked left.now rest result.kind result.ahead result.own }
{
    let mut ahead: u64 = 0;
    for (kind, count) in left.iter().enumerate() {
        let own = scale(ways, *count, n);
        if rest - ahead < own {
            return Choice { kind, ahead, own };
        }
        ahead += own;
    }
    unreachable!()
}

// The strip of a number of the dictionary, one block at a time. strips is how many the dictionary has.
pub fn strip_at(stock: &[u16], strips: u64, number: u64, strip: &mut [u8])
    requires { IsStock stock.now × (strips ≡ total stock.now) × (length strip.old ≡ sum stock.now) × (number < strips) }
    ensures { strip.new ≡ get_or (dictionary stock.now) number [] }
{
    let mut left = counts_of(stock);
    let mut ways = strips;
    let mut rest = number;
    // How many blocks are left, of which each kind has its share.
    let mut n = strip.len() as u64;
    for place in strip.iter_mut() {
        let choice = choose_kind(&left[..stock.len()], n, ways, rest);
        let kind = choice.kind;
        rest -= choice.ahead;
        ways = choice.own;
        left[kind] -= 1;
        let block = kind + 1;
        *place = block as u8;
        n -= 1;
    }
}
