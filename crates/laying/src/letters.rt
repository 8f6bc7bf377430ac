// What is left behind a letter: K where the index is among the patterns that end in K, else R. A branch that cannot be foreseen costs as much as a
// quotient, so none hangs on a letter: each of these is a choice between two numbers, and has a function of its own.
ghost use Rattle.std.specs.Prelude.{◌+◌, ◌-◌, ◌≤◌, ◌<◌, ◌≡◌, true, false, not, ltb};
ghost use Rattle.rules.proofs.Listed.{face};
ghost use Rattle.laying.specs.Choice.{pick};

use crate::parting::{Patterns, Shares};
use pattern::faced;

// The blocks of the lower strip that are left behind a letter, K or R.
pub fn blocks_left(is_k: bool, b: usize) -> usize
    requires { is_k ≡ false → 0 < b }
    ensures { result ≡ pick is_k b (b - 1) }
{
    if is_k { b } else { b - 1 }
}

// The block that is laid on a letter, K or R.
pub fn laid(is_k: bool, kind: u8, block: u8) -> u8
    ensures { result ≡ pick is_k kind block }
{
    if is_k { kind } else { block }
}

impl Shares {
    // Whether the letter is K.
    pub fn is_k(self) -> bool
        ensures { result ≡ ltb self.index self.in_k }
    {
        self.index < self.in_k
    }

    // The patterns that are left.
    fn patterns_left(self) -> u64
        requires { self.in_k ≤ self.all }
        ensures { result ≡ pick (ltb self.index self.in_k) self.in_k (self.all - self.in_k) }
    {
        if self.is_k() {
            self.in_k
        } else {
            self.all - self.in_k
        }
    }

    // The index among them. Of the multiples of `times` below in_k the last is in_k - times.
    fn index_left(self, turned: bool) -> u64
        requires { (self.index < self.in_k → self.index + self.times ≤ self.in_k) × (0 < self.times) }
        ensures { result ≡ pick (ltb self.index self.in_k) (face turned (self.in_k - self.times + 1) self.index) (self.index - self.in_k) }
    {
        if self.is_k() {
            faced(turned, self.in_k - self.times + 1, self.index)
        } else {
            self.index - self.in_k
        }
    }

    // Whether they are turned.
    pub fn turned_left(self, turned: bool) -> bool
        ensures { result ≡ pick (ltb self.index self.in_k) false (not turned) }
    {
        if self.is_k() { false } else { !turned }
    }

    // What is left of them.
    pub fn left(self, turned: bool) -> Patterns
        requires { (self.index < self.in_k → self.index + self.times ≤ self.in_k) × (0 < self.times) × (self.in_k ≤ self.all) }
        ensures { (result.all ≡ pick (ltb self.index self.in_k) self.in_k (self.all - self.in_k))
            × (result.index ≡ pick (ltb self.index self.in_k) (face turned (self.in_k - self.times + 1) self.index) (self.index - self.in_k))
            × (result.times ≡ self.times) }
    {
        Patterns {
            all: self.patterns_left(),
            index: self.index_left(turned),
            times: self.times,
        }
    }
}
