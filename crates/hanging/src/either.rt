// How a strip is hung to have its standing strip.
ghost use Rattle.std.specs.Prelude.{◌<◌, ◌≡◌, not, length};
ghost use Rattle.papers.specs.Papers.{turned, hung};
ghost use Rattle.papers.specs.Blocks.{as_hung};
ghost use Rattle.dictionary.specs.Dictionary.{before};
ghost use Rattle.standing.specs.Standing.{is_reversed, turn_of};

use crate::least::least_turn;
use papers::Hung;

// Read backwards or not, and then turned by so many places.
#[derive(Clone, Copy)]
pub struct Hanging {
    pub reversed: bool,
    pub turn: usize,
}

// Whether a strip, as it hangs and turned by t places, comes before the strip hung the other way and turned by u places.
fn turn_before(paper: Hung, t: usize, u: usize) -> bool
    requires one { t < length paper.strip.now }
    requires other { u < length paper.strip.now }
    ensures { result ≡ before (turned t (as_hung paper.entry)) (turned u (hung (not paper.entry.back) paper.entry.strip.now)) }
{
    let over = Hung {
        strip: paper.strip,
        back: !paper.back,
    };
    for k in 0..paper.strip.len() {
        let one = paper.block_at(t + k);
        let other = over.block_at(u + k);
        if one != other {
            return one < other;
        }
    }
    false
}

// Not reversed where that leads to the standing strip, and then by the smallest number of places.
pub fn least_hanging(strip: &[u8]) -> Hanging
    requires { 0 < length strip.now }
    ensures { (result.reversed ≡ is_reversed strip.now) × (result.turn ≡ turn_of strip.now) }
{
    let standing = Hung { strip, back: false };
    let foot_up = Hung { strip, back: true };
    let there = least_turn(standing);
    let back = least_turn(foot_up);
    if turn_before(foot_up, back, there) {
        return Hanging {
            reversed: true,
            turn: back,
        };
    }
    Hanging {
        reversed: false,
        turn: there,
    }
}
