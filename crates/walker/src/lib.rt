// The walker of a strip: the direction of each kind.
#![tactic(auto)]

pub mod check;
pub mod directions;
pub mod open;
pub mod turning;

// Sixteen directions, kind 1 first: true is backward. Kind 1 and kinds that the stock has not run forward.
#[repr(C)]
#[derive(Clone, Copy)]
pub struct Walker {
    pub back: [bool; 16],
}

impl Walker {
    // All directions forward.
    pub const FORWARD: Walker = Walker { back: [false; 16] };
}
