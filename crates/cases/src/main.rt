// Prints what the two printing programs give for many inputs: standard input holds them one after the other, each with a percent sign after it. Of each the
// first six lines and the last of the book are written, and then those of the catalogue, either with a line with a percent sign after them.
#![tactic(auto)]

use printout::{Line, Listing, each_line, read_full};
use std::io::{self, Stdout};

// A line behind the sixth may be the last: it is held in place of the one held before it, and what is held at the end is written. Where none was held, that is
// no byte, and nothing is written. Every line fits what holds it, but a closure does not know that of the lines that it may be handed, and so it asks.
fn show(stdout: Stdout, input: &[u8], listing: Listing) -> io::Result<()> {
    let mut held = [0u8; 256];
    let mut length = 0;
    each_line(input, listing, |line: Line<'_>| {
        if line.index < 6 {
            stdout.write_all(line.bytes)?;
        } else if let Some(front) = held.get_mut(..line.bytes.len()) {
            front.copy_from_slice(line.bytes);
            length = line.bytes.len();
        }
        Ok(())
    })?;
    if let Some(last) = held.get(..length) {
        stdout.write_all(last)?;
    }
    stdout.write_all(b"%\n")
}

// The bytes behind the last percent sign are no input.
fn show_each(stdout: Stdout, inputs: &[u8]) -> io::Result<()> {
    let Some(end) = inputs.iter().rposition(|byte| *byte == b'%') else {
        return Ok(());
    };
    for input in inputs[..end].split(|byte| *byte == b'%') {
        show(stdout, input, Listing::Book)?;
        show(stdout, input, Listing::Papers)?;
    }
    Ok(())
}

fn main(rt: HostRuntime) -> io::Result<()> {
    let mut inputs = [0u8; 4096];
    let n = read_full(rt.stdin(), &mut inputs)?;
    show_each(rt.stdout(), &inputs[..n])
}
