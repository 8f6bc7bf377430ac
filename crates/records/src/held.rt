// What the records before the moves hold.
ghost use Rattle.std.specs.Prelude.{◌≡◌, ◌≤◌, length, take};
ghost use Rattle.rules.specs.Refusals.{first_of, check_nos};

// An accepted stock, the first of sixteen counts, and a strip of it, the first of 64 bytes: copies, so that the sheet can be written again. There is no
// heap here, and neither is ever longer.
#[derive(Drop)]
pub struct Opening {
    pub counts: [u16; 16],
    pub kinds: usize,
    pub strip: [u8; 64],
    pub blocks: usize,
    pub ghost used: { kinds ≤ length counts },
    pub ghost within: { blocks ≤ length strip },
    pub ghost sound: { (first_of (check_nos (take kinds counts) (take blocks strip))).0 ≡ 0 },
}

impl Opening {
    // The stock: the counts to the last one that is not 0.
    pub fn stock(&self) -> &[u16]
        ensures { result.now ≡ take self.now.kinds self.now.counts }
    {
        &self.counts[..self.kinds]
    }

    // The strip, without the bytes behind its blocks.
    pub fn strip(&self) -> &[u8]
        ensures { result.now ≡ take self.now.blocks self.now.strip }
    {
        &self.strip[..self.blocks]
    }
}
