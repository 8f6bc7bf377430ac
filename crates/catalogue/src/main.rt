// Prints the endless papers of a stock: reads one line of counts from standard input, and writes a line for each standing strip, with its dictionary number.
#![tactic(auto)]

use printout::{Listing, print_out};
use std::io;

fn main(rt: HostRuntime) -> io::Result<()> {
    print_out(rt.stdin(), rt.stdout(), Listing::Papers)
}
