// Finding the move: which kind moves, and which two places change blocks.
ghost use Rattle.std.specs.Prelude.{◌≤◌, ◌≡◌, length};
ghost use Rattle.rules.proofs.Index.{rests};
ghost use Rattle.moves.specs.Steps.{step_of};
ghost use Rattle.walking.specs.Checked.{Checked, IsMove, TakesWord, FindsStep};

use left::step_left;
use moves::{Step, next, prev};
use walker::Walker;

// The kind that moves, and the two places from 0, smaller first.
#[derive(Clone, Copy)]
pub struct Found {
    pub kind: usize,
    pub low: usize,
    pub high: usize,
}

// One kind's own move by the rule's own recursion, on or back in the list of its patterns.
fn step_by_rule(word: &[u8], kind: u8, others: usize, heading: bool) -> Option<Step>
    requires { (length word.now ≤ 64) × (others ≡ rests kind word.now) }
    ensures { result ≡ step_of heading kind word.now }
{
    if heading {
        return prev(word, kind, others);
    }
    next(word, kind, others)
}

// The move on, or back, by a finder of one kind's own move: the last kind moves if it can, and if not, a kind before it. A kind that cannot move stands
// whole in front of the kinds below it or behind them, so that their blocks are a part of the strip, from lo to before hi.
fn find_by<F: Fn(&[u8], u8, usize, bool) -> Option<Step>>(
    step: F,
    stock: &[u16],
    strip: &[u8],
    walker: Walker,
    back: bool,
) -> Option<Found>
    requires checked { Checked stock.now strip.now walker }
    requires asked { TakesWord (F.pre step) }
    requires told { FindsStep (F.post step) }
    ensures { IsMove back stock.now strip.now result }
{
    let mut lo = 0;
    let mut hi = strip.len();
    for j in (0..stock.len()).rev() {
        let amount = stock[j] as usize;
        let heading = walker.back[j] != back;
        let kind = j + 1;
        if let Some(m) = step(&strip[lo..hi], kind as u8, hi - lo - amount, heading) {
            return Some(Found {
                kind,
                low: lo + m.low,
                high: lo + m.high,
            });
        }
        if heading {
            hi -= amount;
        } else {
            lo += amount;
        }
    }
    None
}

// The move, found from the left: most moves happen there, so this is the finder for many moves.
pub fn find(stock: &[u16], strip: &[u8], walker: Walker, back: bool) -> Option<Found>
    requires { Checked stock.now strip.now walker }
    ensures { IsMove back stock.now strip.now result }
{
    find_by(step_left, stock, strip, walker, back)
}

// The same move, found by the rule's own recursion.
pub fn find_by_rule(stock: &[u16], strip: &[u8], walker: Walker, back: bool) -> Option<Found>
    requires { Checked stock.now strip.now walker }
    ensures { IsMove back stock.now strip.now result }
{
    find_by(step_by_rule, stock, strip, walker, back)
}
