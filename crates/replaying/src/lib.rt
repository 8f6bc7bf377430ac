// Replaying: exchanges that were made by hand are made again, to tell what stood on the bar.
#![tactic(auto)]

pub mod replay;
