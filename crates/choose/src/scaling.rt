// A number times a fraction, where the product may not fit 64 bits.
ghost use Rattle.std.specs.Prelude.{◌*◌, ◌/◌, ◌^◌, ◌≤◌, ◌<◌, ◌≡◌};

// The largest number whose product with 4,096 fits 64 bits.
const SMALL: u64 = u64::MAX / 4096;

// c * x / d, rounded down; only the quotient has to fit. Where c is large, d is taken out of it first, and then out of what that leaves.
#[tactic(auto, using(crate::proofs::Fractions::parts))]
pub fn scale(c: u64, x: u64, d: u64) -> u64
    requires { (0 < d) × (d ≤ 4096) × (x ≤ 4096) × (c * x / d < 2 ^ 64) }
    ensures { result ≡ c * x / d }
{
    if c <= SMALL {
        return c * x / d;
    }
    let each = c / d;
    let more = c % d * x / d;
    each * x + more
}

// By two fractions at once, c * (x * y) / (d * e), where each of the four numbers is at most 64.
pub fn scale_twice(c: u64, x: usize, y: usize, d: usize, e: usize) -> u64
    requires { (x ≤ 64) × (y ≤ 64) × (0 < d) × (d ≤ 64) × (0 < e) × (e ≤ 64) × (c * (x * y) / (d * e) < 2 ^ 64) }
    ensures { result ≡ c * (x * y) / (d * e) }
{
    let factor = x * y;
    let divisor = d * e;
    scale(c, factor as u64, divisor as u64)
}
