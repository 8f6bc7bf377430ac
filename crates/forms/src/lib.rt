// The one form that a press sheet of edition 2 has for a stock, a strip and a count of moves, and writing it.
#![tactic(auto)]

pub mod long;
mod whole;
