// Moving on and back in the list of patterns: which two places of a word of blocks to exchange.
#![tactic(auto)]

ghost use Rattle.std.specs.Prelude.{◌≤◌, ◌≡◌, true, false, length};
ghost use Rattle.rules.proofs.Index.{rests};
ghost use Rattle.moves.specs.Steps.{step_of};

// Two places to exchange, from 0, smaller first.
#[derive(Clone, Copy)]
pub struct Step {
    pub low: usize,
    pub high: usize,
}

// Moving on: the step found in the shorter word, or else the one from a part of the rule's list to the part beside it. By the rule, words that end in K come
// first, then those that end in K R, in reverse order, then those that end in R R: across the reversed part, moving on is moving back in the shorter word. One
// pass over the word, at most 64 deep.
#[cycle(next_prev)]
#[tactic(auto, using(crate::proofs::Stepping::stepping))]
pub fn next(word: &[u8], kind: u8, others: usize) -> Option<Step>
    requires { (length word.now ≤ 64) × (others ≡ rests kind word.now) }
    ensures { result ≡ step_of false kind word.now }
{
    let a = word.len();
    if others == 0 {
        return None;
    }
    if a <= others {
        return None;
    }
    let last = a - 1;
    let before = a - 2;
    if word[last] == kind {
        let inner = next(&word[..last], kind, others);
        return inner.or(Some(Step {
            low: before,
            high: last,
        }));
    }
    let rest = others - 1;
    if word[before] == kind {
        if rest == 0 {
            return None;
        }
        let inner = prev(&word[..before], kind, rest);
        return inner.or(Some(Step {
            low: rest - 1,
            high: before,
        }));
    }
    next(&word[..before], kind, rest - 1)
}

// Moving back: by the same three parts, from the last to the first. It is no `next` with a flag: other parts of the list have no seam, and other places change.
#[cycle(next_prev)]
#[tactic(auto, using(crate::proofs::Stepping::stepping))]
pub fn prev(word: &[u8], kind: u8, others: usize) -> Option<Step>
    requires { (length word.now ≤ 64) × (others ≡ rests kind word.now) }
    ensures { result ≡ step_of true kind word.now }
{
    let a = word.len();
    if others == 0 {
        return None;
    }
    if a <= others {
        return None;
    }
    let last = a - 1;
    if word[last] == kind {
        return prev(&word[..last], kind, others);
    }
    let before = a - 2;
    let rest = others - 1;
    if word[before] == kind {
        let inner = next(&word[..before], kind, rest);
        return inner.or(Some(Step {
            low: before,
            high: last,
        }));
    }
    let fewer = rest - 1;
    let inner = prev(&word[..before], kind, fewer);
    inner.or(Some(Step {
        low: fewer,
        high: before,
    }))
}
