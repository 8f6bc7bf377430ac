// The counts of the line that the printing programs read.
#![tactic(auto)]

mod counts;

ghost use Rattle.std.specs.Prelude.{◌+◌, ◌*◌, ◌-◌, ◌≤◌, ◌≡◌, true, false, length, MatchOption};
ghost use Rattle.counts.specs.Reading.{takes, read_from, counts_read, has_begun, value_of, line_read};

pub use counts::Counts;

// A count with one more digit; none where the byte is no digit that may stand next.
fn with_digit(begun: Option<u16>, byte: u8) -> Option<u16>
    ensures { MatchOption
        result
        (takes (has_begun begun) (value_of begun) byte ≡ false)
        (λ value. (takes (has_begun begun) (value_of begun) byte ≡ true) × (value ≡ 10 * value_of begun + (byte - 48))) }
{
    if !matches!(byte, b'0'..=b'9') {
        return None;
    }
    let digit = u16::from(byte - b'0');
    match begun {
        None => Some(digit),
        Some(value) if 0 < value && value < 100 => Some(10 * value + digit),
        Some(_) => None,
    }
}

// The counts of a line without its line feed.
fn read_counts(line: &[u8]) -> Option<Counts>
    requires { length line.now ≤ 254 }
    ensures { result ≡ line_read (read_from false 0 line.now) }
{
    let mut counts = Counts::new();
    let mut begun: Option<u16> = None;
    for byte in line {
        if let Some(value) = with_digit(begun, *byte) {
            begun = Some(value);
        } else {
            let value = begun?;
            if *byte != b' ' {
                return None;
            }
            counts.push(value);
            begun = None;
        }
    }
    counts.push(begun?);
    Some(counts)
}

// The counts of a line: it ends with a line feed, and has at most 255 bytes. None where it cannot be read.
#[tactic(auto, using(crate::proofs::ReadOn::no_bytes, crate::proofs::ReadOn::long_line))]
pub fn read_line(input: &[u8]) -> Option<Counts>
    ensures { result ≡ line_read (counts_read input.now) }
{
    if 255 < input.len() {
        return None;
    }
    let (end, line) = input.split_last()?;
    if *end != b'\n' {
        return None;
    }
    read_counts(line)
}
