// The index of a kind's pattern in a word of blocks, and its cuts.
ghost use Rattle.std.specs.Prelude.{ℕ, ◌+◌, ◌^◌, ◌≤◌, ◌<◌, ◌≡◌, length};
ghost use Rattle.rules.specs.Stock.{binom};
ghost use Rattle.rules.specs.Book.{pattern};
ghost use Rattle.rules.proofs.Listed.{face};
ghost use Rattle.rules.proofs.Index.{index, rests};
ghost use Rattle.cuts.specs.Cuts.{cuts};

use choose::{ends_in_k, ends_in_kr, ends_in_rr};

// The index of a word in its list, and how often the rule was used to find it.
#[derive(Clone, Copy)]
pub struct Indexed {
    pub index: u64,
    pub cuts: u32,
}

// A part of a list of patterns: it begins at `from`, has `all` in it, and is turned where an odd number of parts was reversed.
#[derive(Clone, Copy)]
struct Part {
    from: u64,
    all: u64,
    turned: bool,
}

impl Part {
    // The part of this one that has `ahead` before it and `own` in it. Where this one is turned, they stand behind it.
    #[tactic(auto, unfolding(rules::proofs::Listed::face))]
    fn narrowed(self, ahead: u64, own: u64) -> Part
        requires { (ahead + own ≤ self.all) × (self.from + self.all < 2 ^ 64) }
        ensures { (result.all ≡ own) × (result.turned ≡ self.turned) × (result.from + own ≤ self.from + self.all) × ((i : ℕ) → i < own → self.from + face self.turned self.all (ahead + i) ≡ result.from + face self.turned own i) }
    {
        let before = if self.turned {
            self.all - ahead - own
        } else {
            ahead
        };
        Part {
            from: self.from + before,
            all: own,
            turned: self.turned,
        }
    }
}

// By the rule, words that end in K come first, then those that end in K R, in reverse order, then those that end in R R. So each turn is a cut, which takes
// one or two letters off the end of the word, and what is left of the list narrows: a letters and b letters R are left, with the part of the list that has
// their patterns. Letters of both sorts are left in a turn, so two at least. A `while let` over the letters took 1 to 4 hundredths longer.
pub fn index_of(patterns: u64, word: &[u8], kind: u8, others: usize) -> Indexed
    requires { (length word.now ≤ 64) × (others ≡ rests kind word.now) × (patterns ≡ binom (length word.now) others) }
    ensures { (result.index ≡ index kind word.now) × (result.cuts ≡ cuts (pattern kind word.now)) }
{
    let mut left = word;
    let mut b = others;
    let mut part = Part {
        from: 0,
        all: patterns,
        turned: false,
    };
    let mut cuts: u32 = 0;
    while b < left.len() {
        let a = left.len();
        if b == 0 {
            break;
        }
        let [but_two @ .., before, last] = left else {
            break;
        };
        cuts += 1;
        if *last == kind {
            part = part.narrowed(0, ends_in_k(part.all, a, b));
            left = &left[..a - 1];
        } else if *before == kind {
            let in_k = ends_in_k(part.all, a, b);
            part = part.narrowed(in_k, ends_in_kr(part.all, a, b));
            part.turned = !part.turned;
            left = but_two;
            b -= 1;
        } else {
            let in_rr = ends_in_rr(part.all, a, b);
            part = part.narrowed(part.all - in_rr, in_rr);
            left = but_two;
            b -= 2;
        }
    }
    let index = part.from;
    Indexed { index, cuts }
}
