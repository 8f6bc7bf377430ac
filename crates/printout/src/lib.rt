// Printout: what the two printing programs do. The line on standard input is read, and the printer's lines are written to standard output.
#![tactic(auto)]

ghost use Rattle.std.specs.Prelude.{◌≤◌, length, IfOk, IfErr};

pub use printing::printer::Listing;
use printing::printer::{first_line, next_line};
use std::io::{self, Read, Stdin, Stdout};

// A line that is printed: its bytes and its index.
#[derive(Clone, Copy)]
pub struct Line<'a> {
    pub bytes: &'a [u8],
    pub index: usize,
}

// Hands on the lines for an input, one after the other. No output has more than 4,096. A line is handed on before the next is looked for, which may take long.
// It fails only where what it hands a line to does.
pub fn each_line<F: FnMut(Line<'_>) -> io::Result<()>>(
    input: &[u8],
    listing: Listing,
    mut put: F,
) -> io::Result<()>
    requires { F.IsAlwaysCallable put }
    ensures { IfErr result (λ e. (before : F) × (handed : _) × (behind : F) × F.step before handed (Err e) behind) }
{
    let mut line = [0u8; 256];
    let mut printed = first_line(input, listing, &mut line);
    for index in 0..4096 {
        put(Line {
            bytes: &line[..printed.length],
            index,
        })?;
        let Some(next) = next_line(printed.printer, &mut line) else {
            return Ok(());
        };
        printed = next;
    }
    Ok(())
}

// Reads until the buffer is full or the input ends. Gives how many bytes were read: they stand at the front. The loop counts the bytes that came, a
// read's worth at a time, so no form that goes from index to index fits it.
pub fn read_full(stdin: Stdin, buffer: &mut [u8]) -> io::Result<usize>
    ensures { IfOk result (λ n. n ≤ length buffer.new) }
{
    let mut from = stdin;
    let mut done: usize = 0;
    while done < buffer.len() {
        let n = from.read(&mut buffer[done..])?;
        if n == 0 {
            break;
        }
        done += n;
    }
    Ok(done)
}

// The book of the stock that is read, or its papers. One byte more is read than a line may have: a longer input is unreadable.
pub fn print_out(stdin: Stdin, stdout: Stdout, listing: Listing) -> io::Result<()> {
    let mut input = [0u8; 256];
    let n = read_full(stdin, &mut input)?;
    each_line(&input[..n], listing, |line| stdout.write_all(line.bytes))
}
