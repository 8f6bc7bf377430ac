// The records at a byte that are alike: moves, or in edition 2 a stride.
ghost use Rattle.std.specs.Prelude.{◌<◌, ◌≡◌, true, length, get_or};
ghost use Rattle.rules.specs.Stock.{IsStock, IsStrip};
ghost use Rattle.walking.specs.Checked.{Checked};
ghost use Rattle.following.specs.Editions.{has_strides};
ghost use Rattle.following.specs.Ends.{NextMove, Took, TookAny};

use crate::Edition;
use sheets::Record;
use stock::{Reason, Refused};
use strides::bytes::number_at;
use strides::making::stride_on;
use walker::Walker;
use walker::directions::walker_of;
use walking::stepping::step;

// The kinds of the records behind the strip.
const MOVE: u8 = Record::Move as u8;

pub const END: u8 = Record::End as u8;

const STRIDE: u8 = Record::Stride as u8;

// Records that are passed: the walker behind them, their bytes and their moves.
#[derive(Clone, Copy)]
pub struct Taken {
    pub walker: Walker,
    pub bytes: usize,
    pub moves: u64,
}

// Makes the next move of the strip, where it is the one that exchanges these two places; answers the walker behind it. A move that is refused leaves the
// strip one move past its walker, so that no struct of the stock, the strip and the walker could say that they belong together: they are passed one by
// one.
fn make_move(stock: &[u16], strip: &mut [u8], walker: Walker, low: u8, high: u8) -> Option<Walker>
    requires { Checked stock.now strip.old walker }
    ensures { NextMove stock.now strip.old low high result strip.new }
{
    let made = step(stock, strip, walker, false)?;
    if made.low != low || made.high != high {
        return None;
    }
    Some(made.walker)
}

// The moves from a byte on, one after the other: each is the next one of the strip, or 12.
fn take_moves(
    sheet: &[u8],
    from: usize,
    stock: &[u16],
    strip: &mut [u8],
    walker: Walker,
) -> Result<Taken, Refused>
    requires { Checked stock.now strip.old walker × (from < length sheet.now) × (get_or sheet.now from 0 ≡ 3) }
    ensures { TookAny stock.now sheet.now strip.old from result strip.new }
{
    let mut walker = walker;
    let mut at = from;
    let mut moves: u64 = 0;
    // The byte goes on by a whole record, and a refusal tells at which one, so no iterator is plainer.
    while at < sheet.len() && sheet[at] == MOVE {
        if sheet.len() - at < 3 {
            return Err(Reason::Record.at(at));
        }
        let Some(next) = make_move(stock, strip, walker, sheet[at + 1], sheet[at + 2]) else {
            return Err(Reason::Astray.at(at));
        };
        walker = next;
        at += 3;
        moves += 1;
    }
    Ok(Taken {
        walker,
        bytes: at - from,
        moves,
    })
}

// The stride at a byte.
fn take_stride(sheet: &[u8], at: usize, stock: &[u16], strip: &mut [u8]) -> Result<Taken, Refused>
    requires { IsStock stock.now × IsStrip stock.now strip.old × (at < length sheet.now) × (get_or sheet.now at 0 ≡ 5) }
    ensures { Took true stock.now sheet.now strip.old at result strip.new }
{
    if sheet.len() - at < 9 {
        return Err(Reason::Record.at(at));
    }
    let moves = number_at(sheet, at + 1);
    if let Err(reason) = stride_on(stock, strip, moves) {
        return Err(reason.at(at));
    }
    Ok(Taken {
        walker: walker_of(stock, strip),
        bytes: 9,
        moves,
    })
}

// The records at a byte that is no end: moves, a stride where there are any, or 11.
pub fn take_records(
    sheet: &[u8],
    at: usize,
    stock: &[u16],
    strip: &mut [u8],
    walker: Walker,
    edition: Edition,
) -> Result<Taken, Refused>
    requires { Checked stock.now strip.old walker × (at < length sheet.now) × (get_or sheet.now at 0 ≡ 4 → ⊥) }
    ensures { Took (has_strides edition) stock.now sheet.now strip.old at result strip.new }
{
    match sheet[at] {
        MOVE => take_moves(sheet, at, stock, strip, walker),
        STRIDE if edition.has_strides() => take_stride(sheet, at, stock, strip),
        _ => Err(Reason::Record.at(at)),
    }
}
