// Whether a strip stands for its paper.
ghost use Rattle.std.specs.Prelude.{◌<◌, ◌≡◌, true, false, length};
ghost use Rattle.searching.specs.Searching.{some};
ghost use Rattle.papers.specs.Papers.{turns_of, hung};
ghost use Rattle.papers.specs.Blocks.{as_hung};
ghost use Rattle.dictionary.specs.Dictionary.{before};
ghost use Rattle.standing.specs.Standing.{stands_for_paper};

use papers::Hung;

// Whether a turn of a strip, as it hangs, comes before the strip; foot up it is known that none does as it stands. The turn by t places is held against the
// strip, k blocks of the two being alike. Where the turn comes later, so do those by up to k places more, since the strip's own turns by t places fewer come
// before them: none of them is looked at, so t jumps, and no `for` counts it. The first block that shows that a turn comes before the strip is the last that
// is looked at. The blocks are compared by `<`: a `match` on `cmp` takes longer.
fn some_before(paper: Hung) -> bool
    requires some { 0 < length paper.strip.now }
    requires there { paper.back ≡ true → some (λ t. before t paper.strip.now) (turns_of (hung false paper.strip.now)) ≡ false }
    ensures { result ≡ some (λ t. before t paper.entry.strip.now) (turns_of (as_hung paper.entry)) }
{
    let n = paper.strip.len();
    // By 0 places a strip as it stands is itself, so that its first turn is the one by 1 place.
    let mut t = usize::from(!paper.back);
    let mut k = 0;
    while t < n {
        let one = paper.block_at(t + k);
        let other = paper.strip[k];
        if one < other {
            return true;
        }
        let next = k + 1;
        if other < one {
            t += next;
            k = 0;
        } else if next < n {
            k = next;
        } else {
            return false;
        }
    }
    false
}

// Whether no turn of a strip comes before it.
pub fn is_standing(strip: &[u8]) -> bool
    requires { 0 < length strip.now }
    ensures { result ≡ stands_for_paper strip.now }
{
    let standing = Hung { strip, back: false };
    let foot_up = Hung { strip, back: true };
    !some_before(standing) && !some_before(foot_up)
}
