// Entries: the number of a strip in the dictionary of its stock, and the strip of a number. The functions behind the calls.
#![tactic(auto)]

mod growing;
mod numbers;
mod strips;

pub use numbers::{Entry, entry_of};
pub use strips::strip_at;
