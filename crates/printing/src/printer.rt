// The printer: a state by value, with a step that gives the bytes of the next line. The listing says whether the papers of a stock are printed, or its book.
ghost use Rattle.std.specs.Prelude.{◌≤◌, ◌≡◌, length, Some};
ghost use Rattle.std.proofs.Math.Option.{some};
ghost use Rattle.rules.specs.Refusals.{first_of};
ghost use Rattle.stock.specs.Refused.{told};
ghost use Rattle.counts.specs.Reading.{counts_read};
ghost use Rattle.lines.specs.Puts.{Puts};
ghost use Rattle.printed.specs.Output.{nos_of, stock_lines, output};
ghost use Rattle.showing.specs.States.{of_papers, shown_text, Fits};
ghost use Rattle.printing.specs.States.{Sound, shown_first, printer_of, after, rest, Begins, Prints};

use counting::{patterns_of, total_of};
use counts::{Counts, read_line};
use lines::writing::{put_refusal, put_strip, put_unreadable};
pub use showing::Listing;
use showing::{Shown, show_first, show_next};
use stock::{Reason, Refused, blocks, check_stock};

// What was read, if it can be, what is printed of it, and the strip that is shown, if one is.
#[derive(Clone, Copy)]
pub struct Printer {
    pub read: Option<Counts>,
    pub listing: Listing,
    pub shown: Option<Shown>,
}

// How many bytes of the lent line are the line that is printed, and the printer after it.
#[derive(Clone, Copy)]
pub struct Printed {
    pub length: usize,
    pub printer: Printer,
}

// The same of a stock: the length of its first line, and the strip that is shown then.
#[derive(Clone, Copy)]
pub struct Begun {
    pub length: usize,
    pub shown: Option<Shown>,
}

// The line of the strip that is shown.
fn put_shown(stock: &[u16], shown: Shown, line: &mut [u8]) -> usize
    requires { Fits stock.now shown × (200 ≤ length line.old) }
    ensures { Puts line.old 0 (shown_text stock.now shown) line.new result }
{
    put_strip(line, shown.number, &shown.strip[..blocks(stock)])
}

// Checks a stock. For its papers it is refused by 7 too, since a number in the dictionary is then none.
fn check(stock: &[u16], listing: Listing) -> Result<(), Refused>
    ensures { told result ≡ first_of (nos_of (of_papers listing) stock.now) }
{
    check_stock(stock)?;
    match listing {
        Listing::Book => Ok(()),
        Listing::Papers => match total_of(&patterns_of(stock), stock) {
            Some(_) => Ok(()),
            None => Err(Reason::Many.at(0)),
        },
    }
}

// The first line of a stock.
fn begin(stock: &[u16], listing: Listing, line: &mut [u8]) -> Begun
    requires { 200 ≤ length line.old }
    ensures { Begins (stock_lines (of_papers listing) stock.now) (shown_first (of_papers listing) (some stock.now)) line.old line.new result }
{
    if let Err(refused) = check(stock, listing) {
        return Begun {
            length: put_refusal(line, refused.into()),
            shown: None,
        };
    }
    let shown = show_first(stock);
    Begun {
        length: put_shown(stock, shown, line),
        shown: Some(shown),
    }
}

// The first line of an input.
pub fn first_line(input: &[u8], listing: Listing, line: &mut [u8]) -> Printed
    requires { 200 ≤ length line.old }
    ensures { Prints (output (of_papers listing) input.now) (printer_of listing (counts_read input.now)) line.old line.new (Some result) }
{
    let read = read_line(input);
    let begun = match &read {
        Some(counts) => begin(counts.as_slice(), listing, line),
        None => Begun {
            length: put_unreadable(line),
            shown: None,
        },
    };
    Printed {
        length: begun.length,
        printer: Printer {
            read,
            listing,
            shown: begun.shown,
        },
    }
}

// The next line, if one is left.
pub fn next_line(printer: Printer, line: &mut [u8]) -> Option<Printed>
    requires { Sound printer × (200 ≤ length line.old) }
    ensures { Prints (rest printer) (after printer) line.old line.new result }
{
    let counts = printer.read?;
    let stock = counts.as_slice();
    let shown = show_next(stock, printer.listing, printer.shown)?;
    let length = put_shown(stock, shown, line);
    let printer = Printer {
        shown: Some(shown),
        ..printer
    };
    Some(Printed { length, printer })
}
