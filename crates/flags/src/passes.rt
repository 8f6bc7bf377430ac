// A pass over flags: how many are set, and the first that is clear.
ghost use Rattle.std.specs.Prelude.{◌≡◌};
ghost use Rattle.flags.specs.Flags.{how_many_set, first_clear_place};

// How many flags are set. A filter that counts them has a branch at each flag, and takes longer than this sum.
pub fn how_many(flags: &[bool]) -> usize
    ensures { result ≡ how_many_set flags.now }
{
    let mut many = 0;
    for set in flags {
        many += usize::from(*set);
    }
    many
}

// The first number whose flag is clear; how many flags there are where none is. Both are told by the flags that are set ahead of
// it, and the number is the one that Replay gives to C.
pub fn first_clear(flags: &[bool]) -> usize
    ensures { result ≡ first_clear_place flags.now }
{
    flags.iter().take_while(|set| **set).count()
}
