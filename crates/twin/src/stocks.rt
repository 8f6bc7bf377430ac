// Every stock of n blocks.
ghost use Rattle.std.specs.Prelude.{◌≤◌};

use crate::patterns::has;

// A stock of at most eight kinds: the counts of as many, in fixed memory as the rows of a book are.
#[derive(Clone, Copy)]
pub struct Parts {
    counts: [u16; 8],
    kinds: usize,
}

impl Parts {
    pub fn stock(&self) -> &[u16] {
        self.counts.get(..self.kinds).unwrap_or(&self.counts)
    }

    // One block more of the last kind.
    fn add(&mut self) {
        if let Some(count) = self.counts.iter_mut().take(self.kinds).last() {
            *count = count.saturating_add(1);
        }
    }
}

// How many kinds without blocks stand before the part that begins with the block at t: one, or none.
fn gap(gaps: u8, t: usize) -> usize
    ensures { result ≤ 1 }
{
    usize::from(has(gaps, t))
}

// n blocks in a row, cut behind the block at t, counted from 0, where `cuts` has bit t: the count of a kind is the length of a part. Where `gaps` has
// bit t, a kind without blocks stands before the part that begins with the block at t.
pub fn cut(n: usize, cuts: u8, gaps: u8) -> Parts {
    let mut parts = Parts {
        counts: [0; 8],
        kinds: 1 + gap(gaps, 0),
    };
    for t in 0..n {
        parts.add();
        if has(cuts, t) {
            parts.kinds = parts.kinds.saturating_add(1 + gap(gaps, t + 1));
        }
    }
    parts
}
