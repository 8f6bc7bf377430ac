// How a sheet ends behind its first records, rightly or wrongly, and what is to come of it then: so many moves in all, or a refusal.
ghost use Rattle.std.specs.Prelude.{◌<◌};

use crate::editions::Page;
use crate::table::{Reason, Refused};

// Where the records before an ending lead: the strip's number, how many moves are left from there, how many were made, and the places of the next one;
// and whether the book has fewer than 2^64 strips.
#[derive(Clone, Copy)]
pub struct Stand {
    pub here: usize,
    pub left: usize,
    pub made: usize,
    pub low: u8,
    pub high: u8,
    pub numbered: bool,
}

pub type Due = Result<usize, Refused>;

// A refusal is placed at the first byte of an ending, or at the one behind where an end stands there.
fn refused(reason: Reason, at: usize, kind: u8) -> Refused {
    reason.at(if kind == 4 { at.saturating_add(1) } else { at })
}

// An ending of few bytes, and why it is refused.
fn put_few(page: &mut Page, made: usize, bytes: &[u8], reason: Option<Reason>) -> Due {
    let at = page.end;
    let kind = bytes.first().copied().unwrap_or(0);
    page.put(bytes);
    match reason {
        Some(reason) => Err(refused(reason, at, kind)),
        None if kind == 3 => Ok(made.saturating_add(1)),
        None => Ok(made),
    }
}

// The end, alone or with a byte behind it, nothing at all, and records that no sheet has there.
const WITHOUT_MOVE: [(&[u8], Option<Reason>); 8] = [
    (&[4], None),
    (&[], Some(Reason::Record)),
    (&[4, 4], Some(Reason::Record)),
    (&[0, 4], Some(Reason::Record)),
    (&[1, 4], Some(Reason::Record)),
    (&[2, 4], Some(Reason::Record)),
    (&[6, 4], Some(Reason::Record)),
    (&[255, 4], Some(Reason::Record)),
];

// Why the next move is refused: where none is left.
fn next_reason(left: usize) -> Option<Reason> {
    (left == 0).then_some(Reason::Astray)
}

// A move that is cut short, that is not the next one, or that is, where one is left.
fn put_with_move(page: &mut Page, stand: Stand, which: usize) -> Due {
    let made = stand.made;
    let low = stand.low;
    let high = stand.high;
    match which {
        0 => put_few(page, made, &[3], Some(Reason::Record)),
        1 => put_few(page, made, &[3, low], Some(Reason::Record)),
        2 => put_few(page, made, &[3, high, low, 4], Some(Reason::Astray)),
        3 => put_few(page, made, &[3, low, low, 4], Some(Reason::Astray)),
        4 => put_few(
            page,
            made,
            &[3, low, high.wrapping_add(1), 4],
            Some(Reason::Astray),
        ),
        _ => put_few(page, made, &[3, low, high, 4], next_reason(stand.left)),
    }
}

// A stride whose body is cut short.
fn put_cut(page: &mut Page, body: usize) -> Due {
    let at = page.end;
    page.put_stride(2);
    page.end = at.saturating_add(1).saturating_add(body);
    Err(Reason::Record.at(at))
}

// Why a stride is refused: first for its size, then for the total, then for the moves that are left.
fn stride_reason(stand: Stand, moves: u64) -> Option<Reason> {
    if moves < 2 {
        return Some(Reason::Stride);
    }
    if !stand.numbered {
        return Some(Reason::Many);
    }
    if (stand.left as u64) < moves {
        return Some(Reason::Astray);
    }
    None
}

// A stride of so many moves, and the end.
fn put_strided(page: &mut Page, stand: Stand, moves: u64) -> Due {
    let at = page.end;
    page.put_stride(moves);
    page.put_end();
    match stride_reason(stand, moves) {
        Some(reason) => Err(reason.at(at)),
        None => Ok(stand.made.saturating_add(moves as usize)),
    }
}

// 2^64 minus a number: so many moves on would lead around to strip 0, or to a total of 0.
fn around(number: usize) -> u64 {
    (number as u64).wrapping_neg()
}

// Strides about the moves that are left, and such as would wrap.
fn near(stand: Stand) -> [u64; 7] {
    let left = stand.left as u64;
    [
        0,
        1,
        left,
        left.saturating_add(1),
        around(stand.here),
        around(stand.made),
        u64::MAX,
    ]
}

// Strides that would be 2 if a byte were left out, or if the lowest came first, and one of half the numbers.
const FAR: [u64; 9] = [
    258,
    65538,
    16777218,
    4294967298,
    1099511627778,
    281474976710658,
    72057594037927938,
    144115188075855872,
    9223372036854775808,
];

pub const ENDINGS: usize = 38;

// Puts one of the endings on a page, by its place in their row, since they are trials and no kinds: without a move, with one, with
// a stride that is cut short, and with a whole one.
pub fn put_ending(page: &mut Page, stand: Stand, which: usize) -> Due
    requires { which < 38 }
{
    match which {
        0..=7 => {
            let (bytes, reason) = WITHOUT_MOVE[which];
            put_few(page, stand.made, bytes, reason)
        }
        8..=13 => put_with_move(page, stand, which - 8),
        14..=21 => put_cut(page, which - 14),
        22..=28 => put_strided(page, stand, near(stand)[which - 22]),
        _ => put_strided(page, stand, FAR[which - 29]),
    }
}
