// Printing the book of a stock, or its endless papers: the lines of the programs' output, one after the other.
#![tactic(auto)]

pub mod printer;
