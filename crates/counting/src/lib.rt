// Counting: how many strips the book of a stock has, and the first of them; one file for each call. With the total stand refusals 7 and 8.
#![tactic(auto)]

pub mod count;
pub mod first;
mod totals;

pub use totals::{check_number, patterns_of, total_of};
