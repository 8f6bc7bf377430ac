// Touching: whether two of a kind touch in a strip, on a panel or on an endless paper.
#![tactic(auto)]

ghost use Rattle.std.specs.Prelude.{◌<◌, ◌≡◌, length};
ghost use Rattle.touching.specs.Apart.{stands_apart};
ghost use Rattle.touching.specs.Places.{Begins, FreeBehind, IsLast};

// Where to begin, of n places: those behind both `seen` and `changed` need no look, and the last of all has no next one.
fn begin(n: usize, seen: usize, changed: usize) -> usize
    requires { (seen < n) × (changed < n) }
    ensures { Begins n seen changed result }
{
    seen.max(changed + 1).min(n - 1)
}

// The last place whose block is like the one before it, where there is one. `seen` is that place in the strip before a move, and `changed` the
// larger place that the move changed: no place behind both is like the next, so only those in front are looked at. `seen` is no Option: it is the bound from
// which the search goes to the front, 0 where there was no such place, and the last place of all where nothing is known yet.
pub fn last_touching(strip: &[u8], seen: usize, changed: usize) -> Option<usize>
    requires { (seen < length strip.now) × (changed < length strip.now) × FreeBehind strip.now seen changed }
    ensures { IsLast strip.now result }
{
    let from = begin(strip.len(), seen, changed);
    for i in (1..from + 1).rev() {
        if strip[i - 1] == strip[i] {
            return Some(i);
        }
    }
    None
}

// Whether no two of a kind touch, by the last place that is like the one before it. On an endless paper the last place of all touches the first.
pub fn is_apart(strip: &[u8], endless: bool, last: Option<usize>) -> bool
    requires { IsLast strip.now last }
    ensures { result ≡ stands_apart endless strip.now }
{
    match last {
        Some(_) => false,
        None if endless => strip[strip.len() - 1] != strip[0],
        None => true,
    }
}
