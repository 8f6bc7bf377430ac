// Record 5 of a press sheet, the stride: its bytes, and the moves that it makes at once.
#![tactic(auto)]

pub mod ahead;
pub mod bytes;
pub mod making;
