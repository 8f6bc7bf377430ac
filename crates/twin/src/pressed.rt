// Press sheets by the document's words: the records of a stock, of a strip of its book and of the strips that follow it there. No strip is moved: the
// places of a move are those at which two rows of the book differ.
use crate::rows::{Book, padded, places};

// What stands in a buffer before it is written, and behind the end of a sheet.
pub const BEFORE: u8 = 238;

// A sheet that is written from the first of N bytes on: where it ends so far, and where its first stride stands.
#[derive(Clone, Copy)]
pub struct Sheet<const N: usize> {
    pub bytes: [u8; N],
    pub end: usize,
    pub stride: Option<usize>,
}

impl<const N: usize> Sheet<N> {
    // Nothing is written.
    pub fn new() -> Self {
        Sheet {
            bytes: [BEFORE; N],
            end: 0,
            stride: None,
        }
    }

    // The bytes that are written.
    pub fn written(&self) -> &[u8] {
        self.bytes.get(..self.end).unwrap_or(&[])
    }

    // One byte more, where there is room.
    fn push(&mut self, byte: u8) {
        if self.end < N {
            self.bytes[self.end] = byte;
            self.end += 1;
        }
    }

    pub fn put(&mut self, bytes: &[u8]) {
        for byte in bytes {
            self.push(*byte);
        }
    }

    // The record of a move.
    pub fn put_move(&mut self, low: u8, high: u8) {
        self.put(&[3, low, high]);
    }

    // The record of a stride, from the highest digit to the lowest.
    pub fn put_stride(&mut self, moves: u64) {
        if self.stride.is_none() {
            self.stride = Some(self.end);
        }
        self.push(5);
        self.put(&moves.to_be_bytes());
    }

    pub fn put_end(&mut self) {
        self.push(4);
    }

    // The record of a stock of few blocks: sixteen counts, with zeros after the last.
    fn put_stock(&mut self, stock: &[u16]) {
        let mut counts: [u8; 16] = [0; 16];
        for (place, count) in counts.iter_mut().zip(stock) {
            *place = u8::try_from(*count).unwrap_or(0);
        }
        self.push(1);
        self.put(&counts);
    }

    // The record of a strip: sixty-four blocks, with zeros after the last.
    fn put_strip(&mut self, strip: &[u8]) {
        let blocks: [u8; 64] = padded(strip, 0);
        self.push(2);
        self.put(&blocks);
    }

    // A sheet with the records of a stock and a strip.
    pub fn opened(stock: &[u16], strip: &[u8]) -> Self {
        let mut sheet = Sheet::new();
        sheet.put_stock(stock);
        sheet.put_strip(strip);
        sheet
    }

    // The record of the move on from the strip of a number.
    pub fn put_next(&mut self, book: &Book, number: usize) {
        let (low, high) = places(&book.word(number), &book.word(number.saturating_add(1)));
        self.put_move(low, high);
    }
}
