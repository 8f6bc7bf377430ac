// Writing and rewriting into the one form of edition 2, compared with that form by the document's words.
use crate::editions::{Page, SPACE};
use crate::pressed::{BEFORE, Sheet};
use crate::table::{NONE, Reason, Refused, refusal_of};
use crate::tally::{Call, Tally};
use forms::long::write_long;
use rewriting::rewrite::rewrite;
use sheets::Written;

// What is to come of writing: the form, or a refusal.
type Due<'a> = Result<&'a Page, Refused>;

// What is to come in so much room: first 13, where the form takes more.
fn in_room<'a>(form: &Page, room: usize, due: Due<'a>) -> Due<'a> {
    if room < form.end {
        return Err(Reason::Room.at(0));
    }
    due
}

// Whether a page has the form, and its length is answered; or where it is refused, whether the page is as it was and 0 is answered.
fn page_agrees(page: &[u8; SPACE], written: Written, due: Due) -> bool {
    let left = match due {
        Ok(form) => *form,
        Err(_) => Sheet::new(),
    };
    written.refusal == refusal_of(due) && written.length == left.end as u64 && *page == left.bytes
}

// So many moves from a strip of a stock, which are to be written.
#[derive(Clone, Copy)]
pub struct Order<'a> {
    pub stock: &'a [u16],
    pub strip: &'a [u8],
    pub moves: u64,
}

// Writing in so much room.
pub fn compare_room(tally: &mut Tally, order: Order, room: usize, due: Due) {
    let mut page: [u8; SPACE] = [BEFORE; SPACE];
    let call = match due {
        Ok(_) => Call::WriteLong,
        Err(_) => Call::WriteLongRefused,
    };
    let agrees = match page.get_mut(..room) {
        Some(lent) => {
            let written = write_long(order.stock, order.strip, order.moves, lent);
            page_agrees(&page, written, due)
        }
        None => false,
    };
    tally.note(call, agrees);
}

// Writing with more room than the form takes, with as much and with one byte less.
pub fn compare_written(tally: &mut Tally, order: Order, form: &Page, left: Result<(), Refused>) {
    let due = left.map(|()| form);
    for room in [SPACE, form.end, form.end.saturating_sub(1)] {
        compare_room(tally, order, room, in_room(form, room, due));
    }
}

fn rewrite_call(due: Due) -> Call {
    match due {
        Ok(_) => Call::Rewrite,
        Err(refused) if refused.reason == Reason::Room => Call::RewriteRoom,
        Err(_) => Call::RewriteRefused,
    }
}

fn compare_rewrite(tally: &mut Tally, sheet: &[u8], room: usize, due: Due) {
    let mut page: [u8; SPACE] = [BEFORE; SPACE];
    let agrees = match page.get_mut(..room) {
        Some(lent) => {
            let written = rewrite(sheet, lent);
            page_agrees(&page, written, due)
        }
        None => false,
    };
    tally.note(rewrite_call(due), agrees);
}

// Rewrites a right sheet, and what came of it once more: that is to change nothing.
fn again_agrees(sheet: &[u8]) -> bool {
    let mut once: [u8; SPACE] = [BEFORE; SPACE];
    let mut twice: [u8; SPACE] = [BEFORE; SPACE];
    let first = rewrite(sheet, &mut once);
    if (SPACE as u64) < first.length {
        return false;
    }
    let second = rewrite(&once[..first.length as usize], &mut twice);
    second.refusal == NONE && first.length == second.length && once == twice
}

// Rewriting with more room than the form takes, with as much and with one byte less, and again. A refused sheet has no form: it is tried in no room at all,
// where 13 comes after all that reading meets.
pub fn compare_rewritten(tally: &mut Tally, sheet: &[u8], due: Due) {
    compare_rewrite(tally, sheet, SPACE, due);
    match due {
        Ok(form) => {
            let short = form.end.saturating_sub(1);
            compare_rewrite(tally, sheet, form.end, due);
            compare_rewrite(tally, sheet, short, in_room(form, short, due));
            tally.note(Call::RewriteAgain, again_agrees(sheet));
        }
        Err(_) => compare_rewrite(tally, sheet, 0, due),
    }
}
