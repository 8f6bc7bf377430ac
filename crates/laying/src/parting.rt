// How the patterns of a word part into those that end in K and those that end in R. A quotient takes longer than all else here, so the numbers go along
// multiplied, each `times` as large as it is, and are divided only where they grow too large.
ghost use Rattle.std.specs.Prelude.{◌/◌, ◌≤◌, ◌<◌};
ghost use Rattle.laying.specs.Enlarged.{Enlarged, InParts};

use choose::ends_in_k;

// The largest number whose product with 64 fits 64 bits.
const SMALL: u64 = u64::MAX / 64;

// All the patterns of a word and the index of one of them, each `times` as large as it is.
#[derive(Clone, Copy)]
pub struct Patterns {
    pub all: u64,
    pub index: u64,
    pub times: u64,
}

// The same, and those that end in K.
#[derive(Clone, Copy)]
pub struct Shares {
    pub all: u64,
    pub in_k: u64,
    pub index: u64,
    pub times: u64,
}

impl Patterns {
    // Of a letters b are R. So a - b in a of the patterns end in K: with all numbers a times as large as before, that needs no quotient.
    fn by_letters(self, a: usize, b: usize) -> Shares
        requires { Enlarged a b (self.index / self.times) self.all self.index self.times × (b ≤ a) × (0 < a) × (a ≤ 64) × (self.all ≤ SMALL) }
        ensures { InParts a b (self.index / self.times) result.all result.in_k result.index result.times }
    {
        let k = a - b;
        let letters = a as u64;
        Shares {
            all: self.all * letters,
            in_k: self.all * (k as u64),
            index: self.index * letters,
            times: self.times * letters,
        }
    }

    // The same where the numbers may be too large for that: they are divided first.
    pub fn parted(self, a: usize, b: usize) -> Shares
        requires { Enlarged a b (self.index / self.times) self.all self.index self.times × (b ≤ a) × (0 < a) × (a ≤ 64) }
        ensures { InParts a b (self.index / self.times) result.all result.in_k result.index result.times }
    {
        if self.all <= SMALL {
            return self.by_letters(a, b);
        }
        let divided = Patterns {
            all: self.all / self.times,
            index: self.index / self.times,
            times: 1,
        };
        if divided.all <= SMALL {
            return divided.by_letters(a, b);
        }
        Shares {
            all: divided.all,
            in_k: ends_in_k(divided.all, a, b),
            index: divided.index,
            times: 1,
        }
    }
}
