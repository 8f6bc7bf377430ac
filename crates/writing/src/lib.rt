// Writing a press sheet: the call, and the steps that rebuilding one has in common with it.
#![tactic(auto)]

pub mod room;
pub mod sheet;
pub mod sheet_moves;
pub mod whole;
