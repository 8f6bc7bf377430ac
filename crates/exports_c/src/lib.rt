// The library that C programs link. Each call is the one of `exports` with its contract, under the symbol that C knows; include/nelfrupi.h tells a C
// programmer what it says. A crate is a library or a static library, so the functions stand in `exports` too, which the theorems cite.
#![tactic(auto)]

ghost use Rattle.std.specs.Prelude.{◌≡◌, true, false};
ghost use Rattle.counting.specs.Answers.{count_answer, first_answer, first_after};
ghost use Rattle.numbering.specs.Answers.{number_answer, strip_answer, strip_after};
ghost use Rattle.drawers.specs.Answers.{dictionary_number_answer, dictionary_strip_answer, dictionary_strip_after, dictionary_next_answer, dictionary_next_after};
ghost use Rattle.converting.specs.Answers.{to_dictionary_answer, to_book_answer};
ghost use Rattle.comparing.specs.Answers.{which_answer};
ghost use Rattle.measuring.specs.Answers.{distance_answer};
ghost use Rattle.walker.specs.Answers.{open_answer};
ghost use Rattle.walking.specs.Answers.{move_answer, move_strip};
ghost use Rattle.running.specs.Answers.{run_answer, run_strip, run_list};
ghost use Rattle.replaying.specs.Answers.{replay_answer, replay_after};
ghost use Rattle.papers.specs.Papers.{same_paper_answer};
ghost use Rattle.endless.specs.Answers.{stand_answer, stand_after, next_paper_answer, next_paper_after};
ghost use Rattle.spacing.specs.Answers.{next_apart_answer, next_apart_after};
ghost use Rattle.sheets.specs.Writing.{write_answer, sheet_written};
ghost use Rattle.reading.specs.Reading.{read_answer, read_buffer};
ghost use Rattle.rebuilding.specs.Rebuilding.{rebuild_answer, rebuild_out};
ghost use Rattle.forms.specs.Forms.{long_answer, long_sheet};
ghost use Rattle.rewriting.specs.Rewriting.{rewrite_answer, rewrite_out};

use comparing::which::Compared;
use counting::count::Counted;
use drawers::Filed;
use endless::next_paper::Stepped;
use endless::stand::Stood;
use following::Readout;
use measuring::distance::Apart;
use numbering::number::Numbered;
use papers::Asked;
use rebuilding::Rebuilt;
use replaying::replay::Replayed;
use running::run::Ran;
use sheets::Written;
use spacing::next_apart::Spaced;
use stock::Refusal;
use walker::Walker;
use walker::open::Opened;
use walking::Moved;

#[unsafe(no_mangle)]
pub extern "C" fn nelfrupi_count(stock: &[u16]) -> Counted
    ensures { result ≡ count_answer stock.now }
{
    exports::nelfrupi_count(stock)
}

#[unsafe(no_mangle)]
pub extern "C" fn nelfrupi_first(stock: &[u16], buffer: &mut [u8]) -> Refusal
    ensures { (result ≡ first_answer stock.now buffer.old) × (buffer.new ≡ first_after stock.now buffer.old) }
{
    exports::nelfrupi_first(stock, buffer)
}

#[unsafe(no_mangle)]
pub extern "C" fn nelfrupi_number(stock: &[u16], strip: &[u8]) -> Numbered
    ensures { result ≡ number_answer stock.now strip.now }
{
    exports::nelfrupi_number(stock, strip)
}

#[unsafe(no_mangle)]
pub extern "C" fn nelfrupi_strip(stock: &[u16], number: u64, buffer: &mut [u8]) -> Refusal
    ensures { (result ≡ strip_answer stock.now number buffer.old) × (buffer.new ≡ strip_after stock.now number buffer.old) }
{
    exports::nelfrupi_strip(stock, number, buffer)
}

#[unsafe(no_mangle)]
pub extern "C" fn nelfrupi_dictionary_number(stock: &[u16], strip: &[u8]) -> Filed
    ensures { result ≡ dictionary_number_answer stock.now strip.now }
{
    exports::nelfrupi_dictionary_number(stock, strip)
}

#[unsafe(no_mangle)]
pub extern "C" fn nelfrupi_dictionary_strip(
    stock: &[u16],
    number: u64,
    buffer: &mut [u8],
) -> Refusal
    ensures { (result ≡ dictionary_strip_answer stock.now number buffer.old) × (buffer.new ≡ dictionary_strip_after stock.now number buffer.old) }
{
    exports::nelfrupi_dictionary_strip(stock, number, buffer)
}

#[unsafe(no_mangle)]
pub extern "C" fn nelfrupi_dictionary_next(stock: &[u16], strip: &mut [u8]) -> Refusal
    ensures { (result ≡ dictionary_next_answer stock.now strip.old) × (strip.new ≡ dictionary_next_after stock.now strip.old) }
{
    exports::nelfrupi_dictionary_next(stock, strip)
}

#[unsafe(no_mangle)]
pub extern "C" fn nelfrupi_to_dictionary(stock: &[u16], number: u64) -> Filed
    ensures { result ≡ to_dictionary_answer stock.now number }
{
    exports::nelfrupi_to_dictionary(stock, number)
}

#[unsafe(no_mangle)]
pub extern "C" fn nelfrupi_to_book(stock: &[u16], number: u64) -> Filed
    ensures { result ≡ to_book_answer stock.now number }
{
    exports::nelfrupi_to_book(stock, number)
}

#[unsafe(no_mangle)]
pub extern "C" fn nelfrupi_which(stock: &[u16], first: &[u8], second: &[u8]) -> Compared
    ensures { result ≡ which_answer stock.now first.now second.now }
{
    exports::nelfrupi_which(stock, first, second)
}

#[unsafe(no_mangle)]
pub extern "C" fn nelfrupi_distance(stock: &[u16], first: &[u8], second: &[u8]) -> Apart
    ensures { result ≡ distance_answer stock.now first.now second.now }
{
    exports::nelfrupi_distance(stock, first, second)
}

#[unsafe(no_mangle)]
pub extern "C" fn nelfrupi_open(stock: &[u16], strip: &[u8]) -> Opened
    ensures { result ≡ open_answer stock.now strip.now }
{
    exports::nelfrupi_open(stock, strip)
}

#[unsafe(no_mangle)]
pub extern "C" fn nelfrupi_walk(
    stock: &[u16],
    strip: &mut [u8],
    walker: Walker,
    back: bool,
) -> Moved
    ensures { (result ≡ move_answer back stock.now strip.old walker) × (strip.new ≡ move_strip back stock.now strip.old walker) }
{
    exports::nelfrupi_walk(stock, strip, walker, back)
}

// The press driver's call, which moves the lent walker.
#[unsafe(no_mangle)]
pub extern "C" fn nelfrupi_drive(
    stock: &[u16],
    strip: &mut [u8],
    walker: &mut Walker,
    back: bool,
) -> Moved
    ensures { (result ≡ move_answer back stock.now strip.old walker.old) × (strip.new ≡ move_strip back stock.now strip.old walker.old) × (walker.new ≡ result.walker) }
{
    exports::driving::nelfrupi_drive(stock, strip, walker, back)
}

#[unsafe(no_mangle)]
pub extern "C" fn nelfrupi_run(
    stock: &[u16],
    strip: &mut [u8],
    walker: Walker,
    back: bool,
    list: &mut [u8],
) -> Ran
    ensures { (result ≡ run_answer back stock.now strip.old walker list.old) × (strip.new ≡ run_strip back stock.now strip.old walker list.old) × (list.new ≡ run_list back stock.now strip.old walker list.old) }
{
    exports::nelfrupi_run(stock, strip, walker, back, list)
}

#[unsafe(no_mangle)]
pub extern "C" fn nelfrupi_next_apart(
    stock: &[u16],
    strip: &mut [u8],
    walker: Walker,
    endless: bool,
    moves: u64,
) -> Spaced
    ensures { (result ≡ next_apart_answer endless stock.now strip.old walker moves) × (strip.new ≡ next_apart_after endless stock.now strip.old walker moves) }
{
    exports::nelfrupi_next_apart(stock, strip, walker, endless, moves)
}

#[unsafe(no_mangle)]
pub extern "C" fn nelfrupi_replay(stock: &[u16], strip: &mut [u8], pairs: &[u8]) -> Replayed
    ensures { (result ≡ replay_answer stock.now strip.old pairs.now) × (strip.new ≡ replay_after stock.now strip.old pairs.now) }
{
    exports::nelfrupi_replay(stock, strip, pairs)
}

#[unsafe(no_mangle)]
pub extern "C" fn nelfrupi_same_paper(stock: &[u16], first: &[u8], second: &[u8]) -> Asked
    ensures { result ≡ same_paper_answer stock.now first.now second.now }
{
    exports::nelfrupi_same_paper(stock, first, second)
}

#[unsafe(no_mangle)]
pub extern "C" fn nelfrupi_stand(stock: &[u16], strip: &mut [u8]) -> Stood
    ensures { (result ≡ stand_answer stock.now strip.old) × (strip.new ≡ stand_after stock.now strip.old) }
{
    exports::nelfrupi_stand(stock, strip)
}

#[unsafe(no_mangle)]
pub extern "C" fn nelfrupi_next_paper(stock: &[u16], strip: &mut [u8], steps: u64) -> Stepped
    ensures { (result ≡ next_paper_answer stock.now strip.old steps) × (strip.new ≡ next_paper_after stock.now strip.old steps) }
{
    exports::nelfrupi_next_paper(stock, strip, steps)
}

#[unsafe(no_mangle)]
pub extern "C" fn nelfrupi_write_sheet(
    stock: &[u16],
    strip: &[u8],
    moves: u64,
    sheet: &mut [u8],
) -> Written
    ensures { (result ≡ write_answer stock.now strip.now moves sheet.old) × (sheet.new ≡ sheet_written stock.now strip.now moves sheet.old) }
{
    exports::nelfrupi_write_sheet(stock, strip, moves, sheet)
}

#[unsafe(no_mangle)]
pub extern "C" fn nelfrupi_read_sheet(sheet: &[u8], buffer: &mut [u8]) -> Readout
    ensures { (result ≡ read_answer false sheet.now buffer.old) × (buffer.new ≡ read_buffer false sheet.now buffer.old) }
{
    exports::nelfrupi_read_sheet(sheet, buffer)
}

#[unsafe(no_mangle)]
pub extern "C" fn nelfrupi_rebuild(sheet: &[u8], out: &mut [u8]) -> Rebuilt
    ensures { (result ≡ rebuild_answer sheet.now out.old) × (out.new ≡ rebuild_out sheet.now out.old) }
{
    exports::nelfrupi_rebuild(sheet, out)
}

#[unsafe(no_mangle)]
pub extern "C" fn nelfrupi_write_long(
    stock: &[u16],
    strip: &[u8],
    moves: u64,
    sheet: &mut [u8],
) -> Written
    ensures { (result ≡ long_answer stock.now strip.now moves sheet.old) × (sheet.new ≡ long_sheet stock.now strip.now moves sheet.old) }
{
    exports::nelfrupi_write_long(stock, strip, moves, sheet)
}

#[unsafe(no_mangle)]
pub extern "C" fn nelfrupi_read_editions(sheet: &[u8], buffer: &mut [u8]) -> Readout
    ensures { (result ≡ read_answer true sheet.now buffer.old) × (buffer.new ≡ read_buffer true sheet.now buffer.old) }
{
    exports::nelfrupi_read_editions(sheet, buffer)
}

#[unsafe(no_mangle)]
pub extern "C" fn nelfrupi_rewrite(sheet: &[u8], out: &mut [u8]) -> Written
    ensures { (result ≡ rewrite_answer sheet.now out.old) × (out.new ≡ rewrite_out sheet.now out.old) }
{
    exports::nelfrupi_rewrite(sheet, out)
}
