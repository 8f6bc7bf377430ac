// Rewriting a right press sheet of either edition into the one form of edition 2.
#![tactic(auto)]

pub mod rewrite;
