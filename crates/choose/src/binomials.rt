// One binomial: the number itself, and whether it is odd.
ghost use Rattle.std.specs.Prelude.{◌+◌, ◌≤◌, ◌≡◌};
ghost use Rattle.rules.specs.Stock.{binom};
ghost use Rattle.rules.specs.Book.{odd};

use crate::scaling::scale_twice;

// Two steps along a diagonal of Pascal's triangle: from C(d + i, i) to C(d + i + 2, i + 2), by two fractions.
#[tactic(auto, using(crate::proofs::Scaled::two_more, crate::proofs::Pascal::binom_at_most))]
fn two_steps(c: u64, d: usize, i: usize) -> u64
    requires { (c ≡ binom (d + i) i) × (d + (i + 2) ≤ 64) }
    ensures { result ≡ binom (d + (i + 2)) (i + 2) }
{
    scale_twice(c, d + i + 1, d + i + 2, i + 1, i + 2)
}

// C(d + m, m): from C(d, 0), which is 1, or where m is odd from C(d + 1, 1), which is d + 1.
#[tactic(auto, using(crate::proofs::Pascal::begins))]
fn diagonal(d: usize, m: usize) -> u64
    requires { d + m ≤ 64 }
    ensures { result ≡ binom (d + m) m }
{
    let odd = m % 2;
    let first = 1 + odd * d;
    let mut c = first as u64;
    for pair in 0..m / 2 {
        c = two_steps(c, d, odd + 2 * pair);
    }
    c
}

// C(a, b), along the shorter of its two diagonals.
#[tactic(auto, using(crate::proofs::Pascal::by_shorter))]
pub fn choose(a: usize, b: usize) -> u64
    requires { (b ≤ a) × (a ≤ 64) }
    ensures { result ≡ binom a b }
{
    let shorter = b.min(a - b);
    diagonal(a - shorter, shorter)
}

// Whether C(a, b) is odd: exactly where b and a - b have no binary digit in common.
#[tactic(auto, using(crate::proofs::Odd::odd_is))]
pub fn odd_choose(a: usize, b: usize) -> bool
    requires { b ≤ a }
    ensures { result ≡ odd (binom a b) }
{
    b & (a - b) == 0
}
