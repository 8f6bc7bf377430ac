// Replay: what the press really printed.
ghost use Rattle.std.specs.Prelude.{◌≡◌, length};
ghost use Rattle.rules.specs.Stock.{total};
ghost use Rattle.rules.specs.Book.{book};
ghost use Rattle.stock.specs.Refused.{answered};
ghost use Rattle.counting.specs.Patterns.{ArePatterns};
ghost use Rattle.bar.specs.Bar.{stood, final_strip, walked};
ghost use Rattle.flags.specs.Flags.{Clear, Flagged};
ghost use Rattle.replaying.specs.Answers.{as_replayed, told, replay_answer, replay_after};
ghost use Rattle.replaying.specs.Replayable.{Replayable};

use counting::{patterns_of, total_of};
use exchanging::check_pairs;
use exchanging::exchange::exchange;
use flags::{first_clear, how_many};
use numbering::number_of;
use stock::{Refusal, Refused, check_strip};

// What Replay answers.
#[repr(C)]
#[derive(Clone, Copy)]
pub struct Replayed {
    pub refusal: Refusal,
    pub walked: u64,
    pub different: u64,
    pub missing: u64,
}

// Makes the exchanges of a checked list one after the other and sets the flag of each strip that stands; how many were the walk's next move on. An exchange
// is that exactly where the number rises by one, so that one Number for each exchange tells both.
fn exchange_all(
    patterns: &[u64; 16],
    stock: &[u16],
    strip: &mut [u8],
    pairs: &[u8],
    flags: &mut [bool],
) -> u64
    requires { ArePatterns stock.now patterns.now × Replayable stock.now strip.old pairs.now × (length flags.old ≡ total stock.now) × Clear flags.old }
    ensures { (result ≡ walked stock.now strip.old pairs.now) × (strip.new ≡ final_strip strip.old pairs.now) × Flagged (book stock.now) (stood strip.old pairs.now) flags.new }
{
    let start = number_of(patterns, stock, strip).number;
    flags[start as usize] = true;
    let mut number = start;
    let mut walked: u64 = 0;
    for k in 0..pairs.len() / 2 {
        exchange(strip, pairs[2 * k], pairs[2 * k + 1]);
        let before = number;
        number = number_of(patterns, stock, strip).number;
        flags[number as usize] = true;
        if number == before + 1 {
            walked += 1;
        }
    }
    walked
}

// A replay that nothing refuses, with flags for the strips of the book, all clear: how many exchanges were the walk's next move, how many different strips
// stood, and the smallest number of one that never did. The three stand as the definition has them.
fn replay_with(
    patterns: &[u64; 16],
    stock: &[u16],
    strip: &mut [u8],
    pairs: &[u8],
    flags: &mut [bool],
) -> (u64, u64, u64)
    requires { ArePatterns stock.now patterns.now × Replayable stock.now strip.old pairs.now × (length flags.old ≡ total stock.now) × Clear flags.old }
    ensures { (result ≡ told stock.now strip.old pairs.now) × (strip.new ≡ final_strip strip.old pairs.now) }
{
    let walked = exchange_all(patterns, stock, strip, pairs, flags);
    let different = how_many(flags);
    let missing = first_clear(flags);
    (walked, different as u64, missing as u64)
}

// The same with 4,096 flags, of which the book of so many strips uses the first.
fn replay_checked(
    patterns: &[u64; 16],
    strips: usize,
    stock: &[u16],
    strip: &mut [u8],
    pairs: &[u8],
) -> (u64, u64, u64)
    requires { ArePatterns stock.now patterns.now × Replayable stock.now strip.old pairs.now × (strips ≡ total stock.now) }
    ensures { (result ≡ told stock.now strip.old pairs.now) × (strip.new ≡ final_strip strip.old pairs.now) }
{
    let mut flags = [false; 4096];
    replay_with(patterns, stock, strip, pairs, &mut flags[..strips])
}

// The same for any stock, strip and pairs. All pairs are looked at before the first exchange.
fn replay_any(stock: &[u16], strip: &mut [u8], pairs: &[u8]) -> Result<(u64, u64, u64), Refused>
    ensures { (answered as_replayed (0, 0, 0) result ≡ replay_answer stock.now strip.old pairs.now) × (strip.new ≡ replay_after stock.now strip.old pairs.now) }
{
    check_strip(stock, strip)?;
    let patterns = patterns_of(stock);
    let strips = total_of(&patterns, stock);
    check_pairs(stock, strips, strip.len(), pairs)?;
    let many = strips.unwrap() as usize;
    let told = replay_checked(&patterns, many, stock, strip, pairs);
    Ok(told)
}

// The lent strip becomes what the exchanges make of it.
pub fn replay(stock: &[u16], strip: &mut [u8], pairs: &[u8]) -> Replayed
    ensures { (result ≡ replay_answer stock.now strip.old pairs.now) × (strip.new ≡ replay_after stock.now strip.old pairs.now) }
{
    match replay_any(stock, strip, pairs) {
        Ok((walked, different, missing)) => Replayed {
            refusal: Refusal::NONE,
            walked,
            different,
            missing,
        },
        Err(refused) => Replayed {
            refusal: refused.into(),
            walked: 0,
            different: 0,
            missing: 0,
        },
    }
}
