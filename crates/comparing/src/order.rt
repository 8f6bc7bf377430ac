// The order of two strips in the book of their stock, and the kind at which they part. No number is worked out, so it may be 2^64 or more.
ghost use Rattle.std.specs.Prelude.{◌≡◌};
ghost use Rattle.rules.specs.Stock.{IsStock, IsStrip};
ghost use Rattle.rules.specs.Book.{book, place_in};
ghost use Rattle.comparing.specs.Order.{which_of, parting_kind};
ghost use Rattle.comparing.specs.Parted.{which_number, kind_number, compared};
ghost use Rattle.comparing.specs.Answers.{which_answer};

use crate::letters::{Ahead, order_of};
use pattern::{odd_index_of, reduce};
use stock::{Refused, check_pair};

// Where two strips that differ part: which of them stands first in the book, and the first kind from 2 upward at which the reduced strips differ.
#[derive(Clone, Copy)]
pub struct Parting {
    pub ahead: Ahead,
    pub kind: u8,
}

// The kinds are looked at from 2 upward, and none after the first at which the reduced strips differ: its patterns decide. Kind 1 alone has one strip.
// As long as the two are alike only the parity of their common number is kept, since it alone says which way the next kind's patterns run. None where the
// strips are equal.
pub fn compare(stock: &[u16], first: &[u8], second: &[u8]) -> Option<Parting>
    requires { IsStock stock.now × IsStrip stock.now first.now × IsStrip stock.now second.now }
    ensures { (which_number result ≡ which_of (place_in (book stock.now) first.now) (place_in (book stock.now) second.now)) × (kind_number result ≡ parting_kind stock.now first.now second.now) }
{
    // No heap: the words stand in arrays, and `reduce` answers how long they are.
    let mut one = [0; 64];
    let mut two = [0; 64];
    let mut odd = false;
    let mut below = stock[0] as usize;
    for j in 1..stock.len() {
        let kind = j as u8 + 1;
        let n = reduce(first, kind, &mut one);
        let m = reduce(second, kind, &mut two);
        if let Some(ahead) = order_of(&one[..n], &two[..m], kind, odd) {
            return Some(Parting { ahead, kind });
        }
        let odd_index = odd_index_of(&one[..n], kind, below);
        odd = odd != odd_index;
        below = n;
    }
    None
}

// The same of strips that are not checked yet: refusals 1, 2, 3; then 4, 5, 6 for the first strip, then for the second.
pub fn check_and_compare(
    stock: &[u16],
    first: &[u8],
    second: &[u8],
) -> Result<Option<Parting>, Refused>
    ensures { compared result ≡ which_answer stock.now first.now second.now }
{
    check_pair(stock, first, second)?;
    Ok(compare(stock, first, second))
}
