// Copying: a copy of a strip, so that a walk or a search can be tried while the lent strip stays.
#![tactic(auto)]

ghost use Rattle.std.specs.Prelude.{◌-◌, ◌≤◌, ◌≡◌, ◌++◌, length, replicate, drop};

// Copies bytes over the start of a buffer, whose later bytes stay.
pub fn copy(from: &[u8], to: &mut [u8])
    requires { length from.now ≤ length to.old }
    ensures { to.new ≡ from.now ++ drop (length from.now) to.old }
{
    to[..from.len()].copy_from_slice(from);
}

// A strip at the start of 64 bytes, with zeros behind it.
pub fn copied(strip: &[u8]) -> [u8; 64]
    requires { length strip.now ≤ 64 }
    ensures { result ≡ strip.now ++ replicate (64 - length strip.now) 0 }
{
    let mut word: [u8; 64] = [0; 64];
    copy(strip, &mut word);
    word
}
