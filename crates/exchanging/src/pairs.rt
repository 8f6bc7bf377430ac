// The check of a list of pairs of places: refusals 15 and 16.
ghost use Rattle.std.specs.Prelude.{◌≡◌, [], ◌∷◌};
ghost use Rattle.rules.specs.Stock.{sum, total};
ghost use Rattle.rules.specs.Refusals.{first_of, unless, many_no};
ghost use Rattle.stock.specs.Places.{found_at};
ghost use Rattle.stock.specs.Refused.{told};
ghost use Rattle.bar.specs.Pairs.{is_place_pair, wrong_from, large_no, pairs_no};

use stock::{Reason, Refused};

// Whether two places rise and are from 1 to n.
fn is_pair(low: u8, high: u8, n: usize) -> bool
    ensures { result ≡ is_place_pair n low high }
{
    0 < low && low < high && high as usize <= n
}

// The number, from 1, of the first pair that is not so, or of half a pair at the end. Pair k is places 2k and 2k + 1, as the laws of `bar` count them.
#[tactic(auto, using(bar::proofs::Pairs::sought_start, bar::proofs::Pairs::sought_on))]
fn wrong_pair(pairs: &[u8], n: usize) -> Option<usize>
    ensures { result ≡ found_at (wrong_from 1 n pairs.now) }
{
    let whole = pairs.len() / 2;
    for k in 0..whole {
        if !is_pair(pairs[2 * k], pairs[2 * k + 1], n) {
            return Some(k + 1);
        }
    }
    if pairs.len() - 2 * whole == 1 {
        return Some(whole + 1);
    }
    None
}

// The first refusal of a list of pairs: 15, then 16. strips is T of the stock, which is not looked at itself, where T is below 2^64; n is the sum of its
// counts.
pub fn check_pairs(
    stock: &[u16],
    strips: Option<u64>,
    n: usize,
    pairs: &[u8],
) -> Result<(), Refused>
    requires { (strips ≡ unless (many_no stock.now) None (Some (total stock.now))) × (n ≡ sum stock.now) }
    ensures { told result ≡ first_of (large_no stock.now ∷ pairs_no stock.now pairs.now ∷ []) }
{
    let strips = strips.ok_or(Reason::Large)?;
    if 4096 < strips {
        return Err(Reason::Large.at(0));
    }
    if let Some(number) = wrong_pair(pairs, n) {
        return Err(Reason::Pair.at(number));
    }
    Ok(())
}
