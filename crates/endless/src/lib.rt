// Endless: the calls on endless papers, one file for each.
#![tactic(auto)]

pub mod next_paper;
mod seek;
pub mod stand;
