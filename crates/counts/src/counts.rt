// The counts of a line.
ghost use Rattle.std.specs.Prelude.{◌<◌, ◌≡◌, ℕ, List, [], ◌∷◌, ◌++◌, length, take};
ghost use Rattle.counts.specs.Held.{held, Holds, kinds_back};

use std::marker::Model;

// Counts in order, from that of kind 1 on. A line of 255 bytes has at most 127.
#[derive(Clone, Copy)]
pub struct Counts {
    counts: [u16; 128],
    kinds: usize,
}

impl Model for Counts {
    ghost Value = { List ℕ };

    ghost view = { λ c. take c.kinds c.counts };

    ghost invariant = { λ c. Holds c.counts c.kinds };

    ghost inverse = { λ l. record { counts = held l; kinds = length l } };

    ghost inverse_ok = { λ c h i. record { counts = h.2 i; kinds = kinds_back c.counts c.kinds h i } };
}

impl Counts {
    pub fn new() -> Counts
        ensures { result ≡ [] }
    {
        Counts {
            counts: [0; 128],
            kinds: 0,
        }
    }

    pub fn as_slice(&self) -> &[u16]
        ensures { result.now ≡ self.now }
    {
        &self.counts[..self.kinds]
    }

    pub fn push(&mut self, count: u16)
        requires { length self.old < 128 }
        ensures { self.new ≡ self.old ++ count ∷ [] }
    {
        self.counts[self.kinds] = count;
        self.kinds += 1;
    }
}
