// Run: the strip moves on, or back, until the lent list has no room left or the end of the book is reached.
ghost use Rattle.std.specs.Prelude.{◌≡◌};
ghost use Rattle.rules.specs.Refusals.{fine};
ghost use Rattle.walking.specs.Checked.{Checked};
ghost use Rattle.running.specs.Answers.{as_ran, run_answer, run_strip, run_list};
ghost use Rattle.running.specs.Made.{Made};

use stock::Refusal;
use walker::Walker;
use walker::check::check_walker;
use walking::finding::find;
use walking::stepping::make;

// What Run answers.
#[repr(C)]
#[derive(Clone, Copy)]
pub struct Ran {
    pub refusal: Refusal,
    pub moves: u64,
    pub ended: bool,
    pub walker: Walker,
}

// The answer of a run that was not refused.
fn answered(moves: usize, ended: bool, walker: Walker) -> Ran
    ensures { result ≡ as_ran fine moves ended walker }
{
    Ran {
        refusal: Refusal::NONE,
        moves: moves as u64,
        ended,
        walker,
    }
}

// Moves a checked strip on, or back, and lists the places, two a move. Where the room is used, one move more is looked for, so that it is known whether there is one.
fn run_checked(
    stock: &[u16],
    strip: &mut [u8],
    mut walker: Walker,
    back: bool,
    list: &mut [u8],
) -> Ran
    requires { Checked stock.now strip.old walker }
    ensures { Made back stock.now strip.old list.old result strip.new list.new }
{
    let room = list.len() / 2;
    for moves in 0..room {
        let Some(m) = find(stock, strip, walker, back) else {
            return answered(moves, true, walker);
        };
        let made = make(stock, strip, walker, m);
        list[2 * moves] = made.low;
        list[2 * moves + 1] = made.high;
        walker = made.walker;
    }
    let next = find(stock, strip, walker, back);
    answered(room, next.is_none(), walker)
}

// The input is checked once; after that the strip only moves.
pub fn run(stock: &[u16], strip: &mut [u8], walker: Walker, back: bool, list: &mut [u8]) -> Ran
    ensures { (result ≡ run_answer back stock.now strip.old walker list.old) × (strip.new ≡ run_strip back stock.now strip.old walker list.old) × (list.new ≡ run_list back stock.now strip.old walker list.old) }
{
    if let Err(refused) = check_walker(stock, strip, walker) {
        return Ran {
            refusal: refused.into(),
            moves: 0,
            ended: false,
            walker,
        };
    }
    run_checked(stock, strip, walker, back, list)
}
