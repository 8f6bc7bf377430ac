// Exchanging: pairs of places, two bytes a pair, the check of a list of them and the exchange of one.
#![tactic(auto)]

pub mod exchange;
mod pairs;

pub use pairs::check_pairs;
