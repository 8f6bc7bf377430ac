// How many patterns each kind of a stock has; the total T, their product; and whether there is a strip of a number: refusals 7 and 8.
ghost use Rattle.std.specs.Prelude.{◌≡◌, [], ◌∷◌};
ghost use Rattle.rules.specs.Stock.{total, IsStock};
ghost use Rattle.rules.specs.Refusals.{first_of, unless, many_no, above_no};
ghost use Rattle.stock.specs.Refused.{told};
ghost use Rattle.counting.specs.Patterns.{ArePatterns};

use choose::choose;
use stock::{Reason, Refused};

// C(N(j), N(j-1)) for each kind j of the stock, kind 1 first. A call works them out once and lends them on. They
// are no struct with their stock: each function takes the two as it takes the stock and the strip beside them.
pub fn patterns_of(stock: &[u16]) -> [u64; 16]
    requires { IsStock stock.now }
    ensures { ArePatterns stock.now result }
{
    let mut patterns = [0; 16];
    let mut n: usize = 0;
    for (j, count) in stock.iter().enumerate() {
        let below = n;
        n += usize::from(*count);
        patterns[j] = choose(n, below);
    }
    patterns
}

// T, where it is below 2^64; that it is more is found before a product wraps.
pub fn total_of(patterns: &[u64; 16], stock: &[u16]) -> Option<u64>
    requires { ArePatterns stock.now patterns.now × IsStock stock.now }
    ensures { result ≡ unless (many_no stock.now) None (Some (total stock.now)) }
{
    let mut strips: u64 = 1;
    for many in &patterns[..stock.len()] {
        strips = strips.checked_mul(*many)?;
    }
    Some(strips)
}

// The first refusal of a number: 7, then 8. strips is T of the stock, which is not looked at itself, where T is below 2^64.
pub fn check_number(stock: &[u16], strips: Option<u64>, number: u64) -> Result<(), Refused>
    requires { strips ≡ unless (many_no stock.now) None (Some (total stock.now)) }
    ensures { told result ≡ first_of (many_no stock.now ∷ above_no stock.now number ∷ []) }
{
    let strips = strips.ok_or(Reason::Many)?;
    if strips <= number {
        return Err(Reason::Above.at(0));
    }
    Ok(())
}
