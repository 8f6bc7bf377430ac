// The records of a press sheet that come before the moves.
#![tactic(auto)]

pub mod bodies;
mod held;
pub mod opening;

pub use held::Opening;
