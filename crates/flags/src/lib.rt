// Flags, one for each strip of a book: how many are set, and the first that is clear.
#![tactic(auto)]

mod passes;

pub use passes::{first_clear, how_many};
