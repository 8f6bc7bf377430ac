// One kind's own move, found from the left end of its word of blocks: most moves happen there, so most of the word need not be read.
#![tactic(auto)]

mod runs;
pub mod steps;

pub use steps::step_left;
