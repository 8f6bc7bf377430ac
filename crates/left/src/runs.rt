// The runs of a word of blocks: blocks of the kind and blocks of others, in turns.
ghost use Rattle.std.specs.Prelude.{◌+◌, ◌≤◌, ◌≡◌, length, drop};
ghost use Rattle.rules.specs.Book.{odd, letter, pattern};
ghost use Rattle.rules.proofs.Runs.{run};

// Where the run that begins at a place ends: a run of the kind where `own`, and else of others.
pub fn run_end(word: &[u8], kind: u8, own: bool, from: usize) -> usize
    requires { from ≤ length word.now }
    ensures { (result ≡ from + run (letter own) (drop from (pattern kind word.now))) × (result ≤ length word.now) }
{
    for i in from..word.len() {
        if (word[i] == kind) != own {
            return i;
        }
    }
    word.len()
}

#[tactic(auto, using(rules::proofs::Numbers::odd_rest))]
pub fn is_odd(n: usize) -> bool
    ensures { result ≡ odd n }
{
    n % 2 == 1
}
