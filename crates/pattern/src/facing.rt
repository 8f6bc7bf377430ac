// A place in a list that runs forward or backward.
ghost use Rattle.std.specs.Prelude.{◌<◌, ◌≡◌};
ghost use Rattle.rules.proofs.Listed.{face};

// Place i of n, counted from the back where turned.
#[tactic(auto, unfolding(rules::proofs::Listed::face))]
pub fn faced(turned: bool, n: u64, i: u64) -> u64
    requires { i < n }
    ensures { result ≡ face turned n i }
{
    if turned { n - 1 - i } else { i }
}
