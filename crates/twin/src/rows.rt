// The rows of a book, and a book with its stock.
ghost use Rattle.std.specs.Prelude.{◌≤◌};

// A strip, and zeros behind it, which decide nothing where two of one length are compared.
pub type Word = [u8; 8];

// Seven kinds of one block have the most strips.
pub const MOST: usize = 5040;

// A strip of a book: its number there, its directions, where bit j - 1 is set if kind j runs backward, and its cuts. Rows are in order by their strips, block
// by block.
#[derive(Clone, Copy, PartialEq, Eq, PartialOrd, Ord)]
pub struct Row {
    pub word: Word,
    pub number: usize,
    pub directions: u8,
    pub cuts: u8,
}

impl Row {
    // The row of a strip of no blocks.
    pub const EMPTY: Row = Row {
        word: [0; 8],
        number: 0,
        directions: 0,
        cuts: 0,
    };
}

// Rows that are written down one after the other. They are in fixed memory, since a failing allocation would change what is printed.
#[derive(Drop)]
pub struct Rows {
    rows: [Row; MOST],
    many: usize,
    ghost few: { many ≤ 5040 },
}

impl Rows {
    pub fn new() -> Rows {
        Rows {
            rows: [Row::EMPTY; MOST],
            many: 0,
        }
    }

    pub fn push(&mut self, row: Row) {
        if self.many < MOST {
            self.rows[self.many] = row;
            self.many += 1;
        }
    }

    pub fn len(&self) -> usize {
        self.many
    }

    pub fn as_slice(&self) -> &[Row] {
        &self.rows[..self.many]
    }

    pub fn sorted(self) -> Rows {
        let Rows { mut rows, many } = self;
        rows[..many].sort_unstable();
        Rows { rows, many }
    }
}

// The rows of a stock, whose strips have so many blocks: its book, or the same rows in dictionary order.
#[derive(Clone, Copy)]
pub struct Book<'a> {
    pub stock: &'a [u16],
    pub rows: &'a [Row],
    pub blocks: usize,
    ghost short: { blocks ≤ 8 },
}

impl<'a> Book<'a> {
    // The index of the last strip.
    pub fn last(&self) -> usize {
        self.rows.len().saturating_sub(1)
    }

    fn row(&self, i: usize) -> Row {
        self.rows.get(i).copied().unwrap_or(Row::EMPTY)
    }

    // The strip at an index, with zeros behind it.
    pub fn word(&self, i: usize) -> Word {
        self.row(i).word
    }

    // The blocks of the strip at an index; none where there is no strip.
    pub fn strip(&self, i: usize) -> &'a [u8] {
        match self.rows.get(i) {
            Some(row) => &row.word[..self.blocks],
            None => &[],
        }
    }

    // The directions of the strip at an index.
    pub fn directions(&self, i: usize) -> u8 {
        self.row(i).directions
    }

    // The cuts of the strip at an index.
    pub fn cuts(&self, i: usize) -> u8 {
        self.row(i).cuts
    }

    // The index of a strip.
    pub fn position(&self, word: &Word) -> Option<usize> {
        self.rows.iter().position(|row| row.word == *word)
    }

    // The index on from an index, or back from it; none where the book ends.
    pub fn beside(&self, i: usize, back: bool) -> Option<usize> {
        if back {
            return i.checked_sub(1);
        }
        if i < self.last() { Some(i + 1) } else { None }
    }
}

// Exchanges the blocks of two places, the smaller first. Gives whether there are two such places and their blocks differ.
pub fn exchange(strip: &mut [u8], low: u8, high: u8) -> bool {
    let a = usize::from(low);
    let b = usize::from(high);
    if a == 0 || b <= a || strip.len() < b {
        return false;
    }
    strip.swap(a - 1, b - 1);
    strip[a - 1] != strip[b - 1]
}

// The first place at which two strips differ, and the last. Zeros where they are the same, as in the records and answers that they are compared with, which an
// Option would have to become again.
pub fn places(one: &Word, other: &Word) -> (u8, u8) {
    let mut low: u8 = 0;
    let mut high: u8 = 0;
    for (place, (here, there)) in (1..9).zip(one.iter().zip(other)) {
        if here != there {
            high = place;
            if low == 0 {
                low = place;
            }
        }
    }
    (low, high)
}

// A strip in the first of N bytes, and one value in all those behind it.
pub fn padded<const N: usize>(strip: &[u8], behind: u8) -> [u8; N] {
    let mut bytes = [behind; N];
    if let Some(front) = bytes.get_mut(..strip.len()) {
        front.copy_from_slice(strip);
    }
    bytes
}
