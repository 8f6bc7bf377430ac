// Reading press sheets.
#![tactic(auto)]

pub mod reader;
