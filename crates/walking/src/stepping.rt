// One move on a checked strip: finding it, and making it.
// Stock, strip and walker are no struct with `Checked` as its ghost field. A move changes the strip before the walker turns, so the field fails in between,
// and of a struct that is taken apart for that the checker writes no proof.
ghost use Rattle.std.specs.Prelude.{◌≤◌, ◌<◌, ◌≡◌, length};
ghost use Rattle.rules.specs.Neighbours.{swap};
ghost use Rattle.walking.specs.Checked.{Checked, Sought, IsStep, as_made, step_answer, step_strip};

use crate::finding::{Found, find};
use walker::Walker;
use walker::turning::turned_above;

// A move that was made: the two places that were exchanged, smaller first, and the walker of the strip as it then stands.
#[derive(Clone, Copy)]
pub struct Made {
    pub low: u8,
    pub high: u8,
    pub walker: Walker,
}

// Makes a move that was found: exchanges two blocks and turns the kinds above the one that moved.
pub fn make(stock: &[u16], strip: &mut [u8], walker: Walker, m: Found) -> Made
    requires { (m.kind ≤ length stock.now) × (length stock.now ≤ 16) × (m.low < length strip.old) × (m.high < length strip.old) × (length strip.old ≤ 64) }
    ensures { (result ≡ as_made m (length stock.now) walker) × (strip.new ≡ swap 0 strip.old m.low m.high) }
{
    strip.swap(m.low, m.high);
    let low = (m.low + 1) as u8;
    let high = (m.high + 1) as u8;
    let turned = turned_above(walker, m.kind, stock.len());
    Made {
        low,
        high,
        walker: turned,
    }
}

// Makes the move that was looked for, on or back, if one was found.
pub fn make_any(stock: &[u16], strip: &mut [u8], walker: Walker, m: Option<Found>) -> Option<Made>
    requires { Checked stock.now strip.old walker × Sought stock.now strip.old m }
    ensures { IsStep stock.now strip.old m result strip.new }
{
    let found = m?;
    Some(make(stock, strip, walker, found))
}

// Moves the strip on, or back, if a strip is left there.
pub fn step(stock: &[u16], strip: &mut [u8], walker: Walker, back: bool) -> Option<Made>
    requires { Checked stock.now strip.old walker }
    ensures { (result ≡ step_answer back stock.now strip.old) × (strip.new ≡ step_strip back stock.now strip.old) }
{
    let m = find(stock, strip, walker, back);
    make_any(stock, strip, walker, m)
}
