// What a move does to a walker: the kinds above the one that moved turn.
ghost use Rattle.std.specs.Prelude.{◌≤◌, ◌≡◌};
ghost use Rattle.walker.specs.Turned.{above_turned};

use crate::Walker;

// The directions of the kinds above a kind, up to the last of them, turned.
pub fn turned_above(mut w: Walker, kind: usize, kinds: usize) -> Walker
    requires { (kind ≤ kinds) × (kinds ≤ 16) }
    ensures { result ≡ above_turned kind kinds w }
{
    for back in &mut w.back[kind..kinds] {
        *back = !*back;
    }
    w
}
