// The lists E(a, b) by the rule itself, for words of up to 7 letters.
ghost use Rattle.std.specs.Prelude.{◌<◌};

// A word: bit t of its letters is set where its letter at t, counted from 0, is K, so that K put after a word of t letters is bit t, and R is no bit; and how
// many uses of the rule made it.
#[derive(Clone, Copy)]
pub struct Word {
    pub letters: u8,
    pub uses: u8,
}

// A list: its words in order, at most 35 of them, in fixed memory as the rows of a book are. That bound is no invariant of the type, since the proof that an
// element of an array of arrays is read does not close where the element has one.
#[derive(Clone, Copy)]
pub struct List {
    words: [Word; 35],
    many: usize,
}

// E(a, b) stands at b of a.
pub type Lists = [[List; 8]; 8];

// Bit t.
pub fn bit(t: usize) -> u8 {
    if t < 8 { 1 << t } else { 0 }
}

// Whether a set of bits has bit t.
pub fn has(bits: u8, t: usize) -> bool {
    bits & bit(t) != 0
}

impl List {
    // No words.
    pub const EMPTY: List = List {
        words: [Word {
            letters: 0,
            uses: 0,
        }; 35],
        many: 0,
    };

    pub fn words(&self) -> &[Word] {
        self.words.get(..self.many).unwrap_or(&[])
    }

    // One word more at the end.
    fn push(&mut self, letters: u8, uses: u8) {
        if self.many < 35 {
            self.words[self.many] = Word { letters, uses };
            self.many += 1;
        }
    }

    // The words in reverse order.
    pub fn reversed(self) -> List {
        let List { mut words, many } = self;
        if let Some(some) = words.get_mut(..many) {
            some.reverse();
        }
        List { words, many }
    }

    // Puts the words of another list, each with letters put after it, at the end. For each word that is one use of the rule more than made the shorter one;
    // a word of 7 letters has at most 6.
    fn append(&mut self, shorter: &List, letters: u8) {
        for word in shorter.words() {
            self.push(word.letters | letters, word.uses.saturating_add(1));
        }
    }
}

// E(a, b) of the lists of shorter words. A word that has only one of the two letters is there without a use of the rule: a letters K, or none.
fn made(lists: &Lists, a: usize, b: usize) -> List
    requires { a < 8 }
{
    let mut list = List::EMPTY;
    if b == 0 {
        list.push(bit(a).wrapping_sub(1), 0);
    } else if a <= b {
        list.push(0, 0);
    } else {
        list.append(&lists[a - 1][b], bit(a - 1));
        list.append(&lists[a - 2][b - 1].reversed(), bit(a - 2));
        if 2 <= b {
            list.append(&lists[a - 2][b - 2], 0);
        }
    }
    list
}

// The lists E(a, b) for b from 0 to a.
fn fill(lists: &mut Lists, a: usize)
    requires { a < 8 }
{
    for b in 0..=a {
        let list = made(lists, a, b);
        lists[a][b] = list;
    }
}

// Every list of words of up to 7 letters, shorter words first.
pub fn lists() -> Lists {
    let mut lists: Lists = [[List::EMPTY; 8]; 8];
    for a in 0..8 {
        fill(&mut lists, a);
    }
    lists
}

// The list E(a, b); no words where a word has more letters.
pub fn e(lists: &Lists, a: usize, b: usize) -> List {
    if a < 8 && b < 8 {
        lists[a][b]
    } else {
        List::EMPTY
    }
}
