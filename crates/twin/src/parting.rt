// The kind at which two strips part, by the rule itself: both are written down without the kinds above one, and compared.
use crate::rows::Word;

// A strip without the kinds above one, and zeros behind.
fn reduced(strip: &[u8], kind: u8) -> Word {
    let mut kept: Word = [0; 8];
    let lower = strip.iter().filter(|block| **block <= kind);
    for (place, block) in kept.iter_mut().zip(lower) {
        *place = *block;
    }
    kept
}

// The first kind from 2 upward at which they differ; none where they are the same. No stock here has more than 8 kinds.
pub fn parting_kind(first: &[u8], second: &[u8]) -> Option<u8> {
    (2..9).find(|kind: &u8| reduced(first, *kind) != reduced(second, *kind))
}
