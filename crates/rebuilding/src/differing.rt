// The move records in which two sheets differ.
ghost use Rattle.std.specs.Prelude.{◌+◌, ◌*◌, ◌≤◌, ◌<◌, ◌≡◌, length};
ghost use Rattle.rebuilding.specs.Rebuilding.{bytes_behind, differing};
ghost use Rattle.rebuilding.specs.Parts.{Holds, Joins};

// How many differ, and the number of the first of them, from 1, where one does.
#[derive(Clone, Copy)]
pub struct Found {
    pub many: u64,
    pub first: Option<u64>,
}

impl Found {
    // What is found with one more record that differs, of the move of this number.
    fn with(self, number: u64) -> Found
        requires { self.many < number }
        ensures { Joins self number result }
    {
        Found {
            many: self.many + 1,
            first: self.first.or(Some(number)),
        }
    }
}

// The three bytes of a sheet behind so many move records.
fn record_behind(sheet: &[u8], moves: usize) -> &[u8]
    requires { 82 + 3 * moves + 3 ≤ length sheet.now }
    ensures { result.now ≡ bytes_behind moves sheet.now }
{
    let at = 82 + 3 * moves;
    &sheet[at..at + 3]
}

// Which of so many move records of the proper sheet differ from the damaged sheet's three bytes at the same offset.
pub fn differ(proper: &[u8], damaged: &[u8], moves: usize) -> Found
    requires { (82 + 3 * moves ≤ length proper.now) × (82 + 3 * moves ≤ length damaged.now) }
    ensures { Holds (differing proper.now damaged.now moves) result }
{
    let mut found = Found {
        many: 0,
        first: None,
    };
    for i in 0..moves {
        if record_behind(proper, i) != record_behind(damaged, i) {
            found = found.with(i as u64 + 1);
        }
    }
    found
}
