// Papers: whether two strips, hung endless, are the same paper.
#![tactic(auto)]

mod places;

ghost use Rattle.std.specs.Prelude.{◌<◌, ◌≡◌, false, length};
ghost use Rattle.rules.specs.Book.{same};
ghost use Rattle.searching.specs.Searching.{is_among};
ghost use Rattle.stock.specs.Refused.{answered};
ghost use Rattle.papers.specs.Papers.{turned, turns_of, is_a_turn, as_asked, same_paper_answer};
ghost use Rattle.papers.specs.Blocks.{as_hung};

pub use places::Hung;
use stock::{Refusal, Refused, check_pair};

// What Same paper answers.
#[repr(C)]
#[derive(Clone, Copy)]
pub struct Asked {
    pub refusal: Refusal,
    pub same: bool,
}

// Whether the second strip is the first, as it hangs, turned by t places.
fn turned_by(first: Hung, second: &[u8], t: usize) -> bool
    requires long { length first.strip.now ≡ length second.now }
    requires below { t < length first.strip.now }
    ensures { result ≡ same (turned t (as_hung first.entry)) second.now }
{
    for i in 0..first.strip.len() {
        if first.block_at(i + t) != second[i] {
            return false;
        }
    }
    true
}

// Whether the second strip is the first, as it hangs, turned by some number of places.
fn is_turn_of(first: Hung, second: &[u8]) -> bool
    requires { length first.strip.now ≡ length second.now }
    ensures { result ≡ is_among (turns_of (as_hung first.entry)) second.now }
{
    (0..first.strip.len()).any(|t| turned_by(first, second, t))
}

// Whether the second strip is a turn of the first, as it stands or foot up.
fn is_turn(first: &[u8], second: &[u8]) -> bool
    requires { length first.now ≡ length second.now }
    ensures { result ≡ is_a_turn first.now second.now }
{
    let there = Hung {
        strip: first,
        back: false,
    };
    let foot_up = Hung {
        strip: first,
        back: true,
    };
    is_turn_of(there, second) || is_turn_of(foot_up, second)
}

// Whether two strips that are accepted are the same paper.
fn is_same(stock: &[u16], first: &[u8], second: &[u8]) -> Result<bool, Refused>
    ensures { answered as_asked false result ≡ same_paper_answer stock.now first.now second.now }
{
    check_pair(stock, first, second)?;
    Ok(is_turn(first, second))
}

// Whether the two strips are the same paper.
pub fn same_paper(stock: &[u16], first: &[u8], second: &[u8]) -> Asked
    ensures { result ≡ same_paper_answer stock.now first.now second.now }
{
    match is_same(stock, first, second) {
        Ok(same) => Asked {
            refusal: Refusal::NONE,
            same,
        },
        Err(refused) => Asked {
            refusal: refused.into(),
            same: false,
        },
    }
}
