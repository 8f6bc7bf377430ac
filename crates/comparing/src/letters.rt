// The order of one kind's patterns in two words of blocks.
ghost use Rattle.std.specs.Prelude.{◌≡◌, length};
ghost use Rattle.rules.proofs.Index.{index, rests};
ghost use Rattle.comparing.specs.Along.{which_along};
ghost use Rattle.comparing.specs.Answers.{named};
ghost use Rattle.comparing.specs.Parted.{ahead_number};

// Which of two strips, or of their words, stands ahead of the other.
#[derive(Clone, Copy)]
pub enum Ahead {
    First,
    Second,
}

impl Ahead {
    // Its number, as Which gives it.
    pub fn number(self) -> u8
        ensures { result ≡ ahead_number (Some self) }
    {
        match self {
            Ahead::First => 1,
            Ahead::Second => 2,
        }
    }

    // That one of two lent strips.
    pub fn of<'a>(self, first: &'a [u8], second: &'a [u8]) -> &'a [u8]
        ensures { result ≡ named (ahead_number (Some self)) first.entry second.entry }
    {
        match self {
            Ahead::First => first,
            Ahead::Second => second,
        }
    }
}

// Which of two words has its pattern first in the kind's list, as it runs forward or `back`; none where the patterns are the same. The letters are read
// from the last to the first, and no further than to one that differs: there K stands before R, or behind it where the list runs backward. By the rule a
// K that is read after an odd run of letters R turns the list round for the letters before it.
pub fn order_of(one: &[u8], two: &[u8], kind: u8, back: bool) -> Option<Ahead>
    requires { (length one.now ≡ length two.now) × (rests kind one.now ≡ rests kind two.now) }
    ensures { ahead_number result ≡ which_along back (index kind one.now) (index kind two.now) }
{
    let mut turned = false;
    let mut heading = back;
    for a in (0..one.len()).rev() {
        let own = one[a] == kind;
        let other = two[a] == kind;
        if own != other {
            if own == heading {
                return Some(Ahead::Second);
            }
            return Some(Ahead::First);
        }
        if own {
            heading = heading != turned;
            turned = false;
        } else {
            turned = !turned;
        }
    }
    None
}
