// The parts of a printed line: the call with what it is lent, and what came.
use rebuilding::Rebuilt;
use running::run::Ran;
use std::fmt::{self, Display};
use std::io::{self, Stdout};
use stock::Refusal;
use walking::Moved;

// The kinds of a strip in order, with nothing between.
#[derive(Clone, Copy)]
struct Kinds<'a>(&'a [u8]);

impl Display for Kinds<'_> {
    fn fmt<W: fmt::Write>(&self, f: &mut fmt::Formatter<W>) -> fmt::Result {
        for kind in self.0 {
            write!(f, "{kind}")?;
        }
        Ok(())
    }
}

// A call and its counts.
pub fn call(stdout: Stdout, name: &str, stock: &[u16]) -> io::Result<()> {
    print!(stdout; "{name}, counts")?;
    for count in stock {
        print!(stdout; " {count}")?;
    }
    Ok(())
}

// A call, its counts and its strip.
pub fn call_on(stdout: Stdout, name: &str, stock: &[u16], blocks: &[u8]) -> io::Result<()> {
    call(stdout, name, stock)?;
    print!(stdout; ", strip {}", Kinds(blocks))
}

// A call, its counts and its number.
pub fn call_at(stdout: Stdout, name: &str, stock: &[u16], number: u64) -> io::Result<()> {
    call(stdout, name, stock)?;
    print!(stdout; ", number {number}")
}

// Rebuilding, with its counts, its strip and its moves, in so many bytes of which one is spoiled.
pub fn call_sheet(
    stdout: Stdout,
    stock: &[u16],
    blocks: &[u8],
    moves: u64,
    bytes: usize,
    spoiled: usize,
) -> io::Result<()> {
    call_on(stdout, "Rebuild", stock, blocks)?;
    print!(stdout; ", moves {moves}, bytes {bytes}, spoiled at {spoiled}")
}

// The number and the place of a refusal: 0 and 0 where the call was not refused.
pub fn refusal(stdout: Stdout, refused: Refusal) -> io::Result<()> {
    let Refusal { no, place } = refused;
    println!(stdout; ": refusal {no} place {place}")
}

// The refusal, or what came where the call was not refused.
fn answer<D: Display + Drop>(stdout: Stdout, refused: Refusal, came: D) -> io::Result<()> {
    // The calls answer C's records.
    if refused.no != 0 {
        return refusal(stdout, refused);
    }
    println!(stdout; ": {came}")
}

// The refusal, or the number.
pub fn number(stdout: Stdout, refused: Refusal, found: u64) -> io::Result<()> {
    answer(stdout, refused, found)
}

// The refusal, or the strip.
pub fn blocks(stdout: Stdout, refused: Refusal, found: &[u8]) -> io::Result<()> {
    answer(stdout, refused, Kinds(found))
}

// The refusal, or the two places.
pub fn places(stdout: Stdout, moved: Moved) -> io::Result<()> {
    let Moved { low, high, .. } = moved;
    answer(stdout, moved.refusal, format_args!("places {low} {high}"))
}

// The refusal, or the moves made, and yes where the strip is at the end of the book.
pub fn moves(stdout: Stdout, ran: Ran) -> io::Result<()> {
    let moves = ran.moves;
    let ended = if ran.ended { "yes" } else { "no" };
    answer(stdout, ran.refusal, format_args!("moves {moves}, {ended}"))
}

// The refusal, or the moves, how many differed and the first of them.
pub fn rebuilt(stdout: Stdout, found: Rebuilt) -> io::Result<()> {
    let Rebuilt {
        moves,
        differing,
        first,
        ..
    } = found;
    answer(
        stdout,
        found.refusal,
        format_args!("moves {moves}, differing {differing}, first {first}"),
    )
}
