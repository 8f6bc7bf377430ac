// Running: moving a strip on or back until a lent list of moves is full or the end of the book is reached.
#![tactic(auto)]

pub mod run;
