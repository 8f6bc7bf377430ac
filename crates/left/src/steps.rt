// The move by the first runs of a word: so many of the kind, so many others, again so many of the kind, and so on.
ghost use Rattle.std.specs.Prelude.{◌-◌, ◌≤◌, ◌<◌, ◌≡◌, length, drop};
ghost use Rattle.rules.specs.Book.{R, pattern};
ghost use Rattle.rules.proofs.Index.{rests};
ghost use Rattle.rules.proofs.Left.{ahead, near, far};
ghost use Rattle.rules.proofs.Runs.{run};
ghost use Rattle.moves.specs.Steps.{step, step_of};

use crate::runs::{is_odd, run_end};
use moves::Step;

// Moving on at place j, where a run of others ends and a block of the kind stands, if the word goes on. Whether the others behind that block are odd in
// number decides; where one more of the kind follows there are none, and no more of the word is read.
#[tactic(auto, using(crate::proofs::ByCases::by_cases))]
fn step_ahead(word: &[u8], kind: u8, j: usize) -> Option<Step>
    requires { (j ≤ length word.now) × (j < length word.now → 0 < j) × (run R (drop j (pattern kind word.now)) ≡ 0) }
    ensures { result ≡ step (ahead j (drop j (pattern kind word.now))) }
{
    if word.len() <= j {
        return None;
    }
    let behind = j + 1;
    let others = run_end(word, kind, false, behind) - behind;
    if is_odd(others) {
        return Some(Step {
            low: j,
            high: behind,
        });
    }
    Some(Step {
        low: j - 1,
        high: j,
    })
}

// Moving back at a run of others, with a run of the kind before it that begins the word.
#[tactic(auto, using(crate::proofs::ByCases::by_cases))]
fn step_near(kinds: usize, others: usize) -> Option<Step>
    requires { 0 < kinds }
    ensures { result ≡ step (near kinds others) }
{
    if others == 0 {
        return None;
    }
    if is_odd(others) {
        return Some(Step {
            low: kinds - 1,
            high: kinds,
        });
    }
    Some(Step {
        low: 0,
        high: kinds,
    })
}

// Moving back at a run of others that begins at place j, in a word that begins with so many others as `first` says.
#[tactic(auto, using(crate::proofs::ByCases::by_cases))]
fn step_far(first: usize, j: usize, others: usize) -> Option<Step>
    requires { (others ≡ 0 → ⊥) → (0 < first) × (0 < j) }
    ensures { result ≡ step (far first j others) }
{
    if others == 0 {
        return None;
    }
    if is_odd(others) {
        return Some(Step {
            low: first - 1,
            high: j - 1,
        });
    }
    Some(Step {
        low: first,
        high: j,
    })
}

// The move on, or back. The word begins with x of the kind, perhaps none, and then others to before j.
pub fn step_left(word: &[u8], kind: u8, others: usize, back: bool) -> Option<Step>
    requires { others ≡ rests kind word.now }
    ensures { result ≡ step_of back kind word.now }
{
    let x = run_end(word, kind, true, 0);
    let j = run_end(word, kind, false, x);
    let first = j - x;
    if is_odd(others - first) != back {
        if 0 < x {
            return step_near(x, first);
        }
        let k = run_end(word, kind, true, j);
        let l = run_end(word, kind, false, k);
        return step_far(j, k, l - k);
    }
    step_ahead(word, kind, j)
}
