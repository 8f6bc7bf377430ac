// Earlier: of two lent strips the one that stands first in the book, as the very slice that was lent.
ghost use Rattle.comparing.specs.Answers.{IsEarlier};

use crate::order::check_and_compare;

// The earlier of two strips, the first lent where they are equal; where refused, the empty part at the start of the first lent.
pub fn earlier<'a>(stock: &[u16], first: &'a [u8], second: &'a [u8]) -> &'a [u8]
    ensures { IsEarlier stock.now first.entry second.entry result }
{
    match check_and_compare(stock, first, second) {
        Ok(Some(parting)) => parting.ahead.of(first, second),
        Ok(None) => first,
        Err(_) => &first[..0],
    }
}
