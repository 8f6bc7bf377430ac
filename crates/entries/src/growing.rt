// How many orders some blocks have, from the orders without one of them.
ghost use Rattle.std.specs.Prelude.{◌*◌, ◌/◌, ◌≤◌, ◌<◌, ◌≡◌};
ghost use Rattle.entries.specs.Fitting.{fitting};

// 64 times this, and 63 more, is the largest 64-bit number.
const SAFE: u64 = u64::MAX / 64;

// The orders of n blocks, of which so many are alike, from the orders without one of these; none where they are 2^64 or more.
pub fn grown(orders: u64, n: u64, alike: u64) -> Option<u64>
    requires { (0 < alike) × (alike ≤ n) × (n ≤ 64) }
    ensures { result ≡ fitting (orders * n / alike) }
{
    if orders <= SAFE {
        return Some(orders * n / alike);
    }
    let each = orders / alike;
    let rest = orders % alike * n / alike;
    each.checked_mul(n)?.checked_add(rest)
}
