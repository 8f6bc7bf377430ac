// The smallest of the turns of a strip, foot up or not.
ghost use Rattle.std.specs.Prelude.{◌<◌, length};
ghost use Rattle.papers.specs.Blocks.{as_hung};
ghost use Rattle.hanging.specs.Least.{Least};

use papers::Hung;

// The smallest number of places to turn a strip by, as it hangs, to have the smallest of its turns. The turn by t places is held against the one by `best`
// places, k blocks of the two being alike. The one that comes later is out, and so are those by up to k places more than it, since the other's turns by as
// many places more come before them: so t jumps, and no `for` counts it.
pub fn least_turn(paper: Hung) -> usize
    requires { 0 < length paper.strip.now }
    ensures { Least (as_hung paper.entry) result }
{
    let n = paper.strip.len();
    let mut best = 0;
    let mut t = 1;
    let mut k = 0;
    while t < n {
        let one = paper.block_at(t + k);
        let other = paper.block_at(best + k);
        let next = k + 1;
        if one < other {
            best = t.max(best + next);
            t = best + 1;
            k = 0;
        } else if other < one {
            t += next;
            k = 0;
        } else if next < n {
            k = next;
        } else {
            return best;
        }
    }
    best
}
