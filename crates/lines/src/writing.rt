// The lines that the programs print.
ghost use Rattle.std.specs.Prelude.{◌+◌, ◌≤◌, ◌<◌, map, length};
ghost use Rattle.lines.specs.Text.{hyphen, decimal, joined, unreadable_line, refused_line, strip_line};
ghost use Rattle.lines.specs.Puts.{Puts};
ghost use Rattle.lines.specs.Writing.{Writes};

use crate::text::Line;
use stock::Refusal;

// The kinds of a strip in order, joined by hyphens.
fn put_kinds(line: &mut Line, strip: &[u8])
    requires { (0 < length strip.now) × (line.old.end + length (joined hyphen (map decimal strip.now)) ≤ length line.old.bytes.now) }
    ensures { Writes line.old (joined hyphen (map decimal strip.now)) line.new }
{
    line.put_decimal(u64::from(strip[0]));
    for kind in &strip[1..] {
        line.put_byte(b'-');
        line.put_decimal(u64::from(*kind));
    }
}

// The line of a strip and its number.
#[tactic(auto, using(crate::proofs::Parts::strip_room))]
pub fn put_strip(line: &mut [u8], number: u64, strip: &[u8]) -> usize
    requires { (number < 1000000) × (0 < length strip.now) × (length (strip_line number strip.now) ≤ length line.old) }
    ensures { Puts line.old 0 (strip_line number strip.now) line.new result }
{
    let mut text = Line::begin(line);
    text.put_decimal(number);
    text.put_byte(b' ');
    put_kinds(&mut text, strip);
    text.put_byte(b'\n');
    text.end
}

// The line of an input that cannot be read.
pub fn put_unreadable(line: &mut [u8]) -> usize
    requires { length unreadable_line ≤ length line.old }
    ensures { Puts line.old 0 unreadable_line line.new result }
{
    let mut text = Line::begin(line);
    text.put_word(b"unreadable\n");
    text.end
}

// The line of a refusal.
#[tactic(auto, using(crate::proofs::Parts::refused_room))]
pub fn put_refusal(line: &mut [u8], refusal: Refusal) -> usize
    requires { (refusal.place < 1000000) × (length (refused_line (refusal.no, refusal.place)) ≤ length line.old) }
    ensures { Puts line.old 0 (refused_line (refusal.no, refusal.place)) line.new result }
{
    let mut text = Line::begin(line);
    text.put_word(b"refused ");
    text.put_decimal(u64::from(refusal.no));
    text.put_byte(b' ');
    text.put_decimal(refusal.place);
    text.put_byte(b'\n');
    text.end
}
