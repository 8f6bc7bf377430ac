// Comparing two strips of one stock: the calls Which and Earlier, one file for each.
#![tactic(auto)]

pub mod earlier;
mod letters;
mod order;
pub mod which;
