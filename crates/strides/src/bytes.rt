// The bytes of a stride: its kind, then a number of eight bytes, highest byte first.
ghost use Rattle.std.specs.Prelude.{◌+◌, ◌≤◌, ◌≡◌, ◌++◌, length, take, drop};
ghost use Rattle.strides.specs.Strides.{value, stride_record};

use sheets::Record;
use sheets::records::put_record;

// The number of the eight bytes from a byte on.
pub fn number_at(sheet: &[u8], at: usize) -> u64
    requires { at + 8 ≤ length sheet.now }
    ensures { result ≡ value (take 8 (drop at sheet.now)) }
{
    let mut bytes: [u8; 8] = [0; 8];
    bytes.copy_from_slice(&sheet[at..at + 8]);
    u64::from_be_bytes(bytes)
}

// A stride of so many moves at the front of the rest of a sheet, whose bytes behind it stay.
pub fn put_stride(rest: &mut [u8], moves: u64)
    requires { 9 ≤ length rest.old }
    ensures { rest.new ≡ stride_record moves ++ drop 9 rest.old }
{
    put_record(rest, Record::Stride as u8, &moves.to_be_bytes());
}
