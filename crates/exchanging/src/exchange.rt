// The exchange of the blocks at two places.
ghost use Rattle.std.specs.Prelude.{◌≡◌, length};
ghost use Rattle.bar.specs.Bar.{exchanged};
ghost use Rattle.bar.proofs.Pairs.{Places};

// Exchanges the blocks at two places, which are counted from 1.
pub fn exchange(strip: &mut [u8], low: u8, high: u8)
    requires { Places (length strip.old) low high }
    ensures { strip.new ≡ exchanged low high strip.old }
{
    strip.swap(low as usize - 1, high as usize - 1);
}
