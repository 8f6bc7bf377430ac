// The lines that the printing programs print.
#![tactic(auto)]

mod text;
pub mod writing;
