// Whether the index of a kind's pattern is odd: no number that grows with the word is needed.
ghost use Rattle.std.specs.Prelude.{◌≡◌};
ghost use Rattle.rules.specs.Book.{odd};
ghost use Rattle.rules.proofs.Index.{index, rests};

use choose::odd_choose;

// The letters are read from the last to the first; b letters R are left. The words that go on with K stand before those that go on with R; after an odd
// number of letters R they are turned round by the next K. Where only R is left the index is 0.
pub fn odd_index_of(word: &[u8], kind: u8, others: usize) -> bool
    requires { others ≡ rests kind word.now }
    ensures { result ≡ odd (index kind word.now) }
{
    let mut left = word;
    let mut b = others;
    let mut turned = false;
    let mut odd = false;
    while let [but_one @ .., last] = left {
        if b == left.len() {
            break;
        }
        let odd_in_k = odd_choose(but_one.len(), b);
        if *last != kind {
            odd = odd != odd_in_k;
            b -= 1;
            turned = !turned;
        } else if turned {
            odd = odd == odd_in_k;
            turned = false;
        }
        left = but_one;
    }
    odd
}
