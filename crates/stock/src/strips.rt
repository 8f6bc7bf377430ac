// Strips of a stock: refusals 4, 5, 6.
ghost use Rattle.std.specs.Prelude.{ℕ, ◌≤◌, ◌<◌, ◌≡◌, length, get_or};
ghost use Rattle.rules.specs.Stock.{count, IsStock};
ghost use Rattle.rules.specs.Refusals.{first_of, smallest, is_stranger, is_miscounted, strip_nos, check_nos, pair_nos};
ghost use Rattle.stock.specs.Refused.{told};
ghost use Rattle.stock.specs.Places.{found_at};

use crate::stocks::{blocks, check_stock};
use crate::{Reason, Refused};

// The smallest place of a byte that is none of the kinds.
fn stranger_place(stock: &[u16], strip: &[u8]) -> Option<usize>
    ensures { result ≡ found_at (smallest (is_stranger stock.now) strip.now) }
{
    for (i, block) in strip.iter().enumerate() {
        let kind = *block as usize;
        if kind == 0 || stock.len() < kind {
            return Some(i + 1);
        }
    }
    None
}

// How many blocks of a strip are of each kind, in one pass. Kinds are numbered from 1: entry 0 counts the bytes 0.
fn tallies(strip: &[u8]) -> [usize; 17]
    requires { (i : ℕ) → i < length strip.now → get_or strip.now i 0 ≤ 16 }
    ensures { (j : ℕ) → j < 17 → get_or result j 0 ≡ count j strip.now }
{
    let mut seen = [0; 17];
    for block in strip {
        seen[*block as usize] += 1;
    }
    seen
}

// The smallest kind whose blocks differ from its count.
fn miscounted_kind(stock: &[u16], strip: &[u8]) -> Option<usize>
    requires { IsStock stock.now × (smallest (is_stranger stock.now) strip.now ≡ 0) }
    ensures { result ≡ found_at (smallest (is_miscounted strip.now) stock.now) }
{
    let counted = tallies(strip);
    for (j, count) in stock.iter().enumerate() {
        let kind = j + 1;
        if counted[kind] != *count as usize {
            return Some(kind);
        }
    }
    None
}

// The first refusal of a strip whose stock is accepted: 4, 5, 6.
pub fn check_strip_only(stock: &[u16], strip: &[u8]) -> Result<(), Refused>
    requires { IsStock stock.now }
    ensures { told result ≡ first_of (strip_nos stock.now strip.now) }
{
    if strip.len() != blocks(stock) {
        return Err(Reason::Length.at(0));
    }
    if let Some(place) = stranger_place(stock, strip) {
        return Err(Reason::Stranger.at(place));
    }
    if let Some(kind) = miscounted_kind(stock, strip) {
        return Err(Reason::Amount.at(kind));
    }
    Ok(())
}

// The first refusal of a stock and a strip: 1, 2, 3, then 4, 5, 6.
pub fn check_strip(stock: &[u16], strip: &[u8]) -> Result<(), Refused>
    ensures { told result ≡ first_of (check_nos stock.now strip.now) }
{
    check_stock(stock)?;
    check_strip_only(stock, strip)
}

// The first refusal of a stock and two strips: 1, 2, 3; then 4, 5, 6 for the first strip, then for the second.
pub fn check_pair(stock: &[u16], first: &[u8], second: &[u8]) -> Result<(), Refused>
    ensures { told result ≡ first_of (pair_nos stock.now first.now second.now) }
{
    check_strip(stock, first)?;
    check_strip_only(stock, second)
}
