// Of the c words of a letters with b letters R, as many as C(a, b): how many end in K, in K R and in R R. Each takes one or two letters off the end, and
// is a fraction of c.
ghost use Rattle.std.specs.Prelude.{◌-◌, ◌≤◌, ◌<◌, ◌≡◌};
ghost use Rattle.rules.specs.Stock.{binom};

use crate::scaling::{scale, scale_twice};

// Those that end in K are C(a - 1, b), which is a - b in a of all: so many of the letters are K, and the last is one as often as any other.
#[tactic(auto, using(crate::proofs::Scaled::ends_in_k, crate::proofs::Pascal::binom_at_most))]
pub fn ends_in_k(c: u64, a: usize, b: usize) -> u64
    requires { (c ≡ binom a b) × (b ≤ a) × (0 < a) × (a ≤ 64) }
    ensures { result ≡ binom (a - 1) b }
{
    let k = a - b;
    scale(c, k as u64, a as u64)
}

// Those that end in K R are C(a - 2, b - 1).
#[tactic(auto, using(crate::proofs::Scaled::ends_in_kr, crate::proofs::Pascal::binom_at_most))]
pub fn ends_in_kr(c: u64, a: usize, b: usize) -> u64
    requires { (c ≡ binom a b) × (0 < b) × (b < a) × (a ≤ 64) }
    ensures { result ≡ binom (a - 2) (b - 1) }
{
    scale_twice(c, b, a - b, a, a - 1)
}

// Those that end in R R are C(a - 2, b - 2).
#[tactic(auto, using(crate::proofs::Scaled::ends_in_rr, crate::proofs::Pascal::binom_at_most))]
pub fn ends_in_rr(c: u64, a: usize, b: usize) -> u64
    requires { (c ≡ binom a b) × (2 ≤ b) × (b ≤ a) × (a ≤ 64) }
    ensures { result ≡ binom (a - 2) (b - 2) }
{
    scale_twice(c, b, b - 1, a, a - 1)
}
