// Succession: a strip becomes the next one in dictionary order, in its own place.
#![tactic(auto)]

mod ends;
mod step;
mod tail;

pub use step::next_entry;
