// The room that a sheet needs.
ghost use Rattle.std.specs.Prelude.{◌+◌, ◌*◌, ◌≤◌, ◌<◌, not, T};

// Whether so many bytes are the 83 + 3c that c moves need, or more. For a large c that sum wraps in 64 bits, so the bytes are divided instead.
pub fn has_room(bytes: usize, moves: u64) -> bool
    ensures { (T result → 83 + 3 * moves ≤ bytes) × (T (not result) → bytes < 83 + 3 * moves) }
{
    83 <= bytes && moves <= ((bytes - 83) / 3) as u64
}
