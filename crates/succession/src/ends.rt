// Looking at a strip from its end.
ghost use Rattle.std.specs.Prelude.{suc, ◌≤◌, ◌<◌, length, get_or, drop, MatchOption};
ghost use Rattle.dictionary.proofs.Following.{AtMost, Falls};

// The last place whose block is lower than the one behind it, so that the blocks behind it fall; none where all blocks fall.
pub fn last_rise(strip: &[u8]) -> Option<usize>
    ensures { MatchOption result (Falls strip.now) (λ at. (suc at < length strip.now) × (get_or strip.now at 0 < get_or strip.now (suc at) 0) × Falls (drop (suc at) strip.now)) }
{
    for behind in (1..strip.len()).rev() {
        if strip[behind - 1] < strip[behind] {
            return Some(behind - 1);
        }
    }
    None
}

// The last block from a place on that is higher than a kind, where the one at that place is higher.
pub fn last_above(strip: &[u8], from: usize, kind: u8) -> usize
    requires { (from < length strip.now) × (kind < get_or strip.now from 0) }
    ensures { (from ≤ result) × (result < length strip.now) × (kind < get_or strip.now result 0) × AtMost kind (drop (suc result) strip.now) }
{
    for place in (from + 1..strip.len()).rev() {
        if kind < strip[place] {
            return place;
        }
    }
    from
}
