// Converting: between the book's numbers and dictionary numbers. The strip of a number in the one list, and the number of that strip in the other.
#![tactic(auto)]

ghost use Rattle.std.specs.Prelude.{◌^◌, ◌<◌, ◌≡◌, [], get_or};
ghost use Rattle.rules.specs.Stock.{total, IsStock, IsStrip};
ghost use Rattle.rules.specs.Book.{place_in};
ghost use Rattle.rules.specs.Refusals.{first_of, unless};
ghost use Rattle.stock.specs.Refused.{refusal};
ghost use Rattle.numbering.specs.Answers.{by_number_nos};
ghost use Rattle.converting.specs.Answers.{convert_answer, to_dictionary_answer, to_book_answer};
ghost use Rattle.converting.specs.Lists.{list_of};

use counting::patterns_of;
use drawers::Filed;
use drawers::strip::dictionary_strip;
use entries::entry_of;
use numbering::number_of;
use numbering::strip::strip;
use stock::{Refusal, blocks, check_stock};

// The two lists of a stock's strips.
#[derive(Clone, Copy)]
enum Listing {
    Book,
    Dictionary,
}

impl Listing {
    // Lays the strip of a number in a buffer.
    fn lay(self, stock: &[u16], number: u64, buffer: &mut [u8]) -> Refusal
        ensures { (result ≡ refusal (first_of (by_number_nos stock.now number buffer.old))) × (buffer.new ≡ unless (first_of (by_number_nos stock.now number buffer.old)) buffer.old (get_or (list_of self stock.now) number [])) }
    {
        match self {
            Listing::Book => strip(stock, number, buffer),
            Listing::Dictionary => dictionary_strip(stock, number, buffer),
        }
    }

    // The number of a strip, of which nothing is checked again: below 2^64 strips each of them has an entry.
    fn place(self, stock: &[u16], strip: &[u8]) -> u64
        requires { IsStock stock.now × IsStrip stock.now strip.now × (total stock.now < 2 ^ 64) }
        ensures { result ≡ place_in (list_of self stock.now) strip.now }
    {
        match self {
            Listing::Book => number_of(&patterns_of(stock), stock, strip).number,
            Listing::Dictionary => entry_of(stock, strip).unwrap().number,
        }
    }
}

// The number in one list of the strip that has a number in the other. A stock is checked before its blocks are counted, since one that is refused may have any
// number of kinds. The word has as many places as the stock has blocks, so laying refuses by all else that refuses the conversion, and never by 4. Both calls
// that lay answer C's record, and that is handed on.
fn convert(stock: &[u16], number: u64, from: Listing, to: Listing) -> Filed
    ensures { result ≡ convert_answer (list_of from stock.now) (list_of to stock.now) stock.now number }
{
    if let Err(refused) = check_stock(stock) {
        return Err(refused).into();
    }
    let mut buffer = [0; 64];
    let word = &mut buffer[..blocks(stock)];
    let refusal = from.lay(stock, number, word);
    let number = if refusal.no == 0 {
        to.place(stock, word)
    } else {
        0
    };
    Filed { refusal, number }
}

// The dictionary number of the strip that has a number in the book.
pub fn to_dictionary(stock: &[u16], number: u64) -> Filed
    ensures { result ≡ to_dictionary_answer stock.now number }
{
    convert(stock, number, Listing::Book, Listing::Dictionary)
}

// The book number of the strip that has a number in the dictionary.
pub fn to_book(stock: &[u16], number: u64) -> Filed
    ensures { result ≡ to_book_answer stock.now number }
{
    convert(stock, number, Listing::Dictionary, Listing::Book)
}
