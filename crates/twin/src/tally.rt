// How often each call was compared with a book, and how often it disagreed.
use std::io;

// What is compared. Count is compared once a stock, and Number once a strip.
#[derive(Clone, Copy)]
pub enum Call {
    Count,
    First,
    Number,
    Cuts,
    Strip,
    Open,
    WalkOn,
    WalkBack,
    Run,
    Listed,
    Which,
    Kind,
    Earlier,
    Distance,
    DictionaryNumber,
    DictionaryStrip,
    DictionaryNext,
    ToDictionary,
    ToBook,
    SamePaper,
    SameStanding,
    Stand,
    StandAgain,
    NextPaper,
    ApartPanel,
    ApartEndless,
    RebuiltCut,
    RebuiltByte,
    RebuiltTail,
    ReplayMoves,
    ReplayExchanges,
    ReplayLarge,
    ReplayWrong,
    ReadRight,
    ReadVast,
    ReadUnknown,
    ReadPast,
    ReadLow,
    ReadSheet,
    ReadSheetStride,
    WriteLong,
    WriteLongRefused,
    Rewrite,
    RewriteRoom,
    RewriteRefused,
    RewriteAgain,
}

// The lines that are printed, in order.
const LINES: [(Call, &str); 46] = [
    (Call::Count, "Count"),
    (Call::First, "First"),
    (Call::Number, "Number"),
    (Call::Cuts, "Cuts that Number reports"),
    (Call::Strip, "Strip"),
    (Call::Open, "Open"),
    (Call::WalkOn, "Walk on"),
    (Call::WalkBack, "Walk back"),
    (Call::Run, "Run"),
    (Call::Listed, "Moves that Run lists"),
    (Call::Which, "Which"),
    (Call::Kind, "Kind that Which reports"),
    (Call::Earlier, "Earlier"),
    (Call::Distance, "Distance"),
    (Call::DictionaryNumber, "Dictionary number"),
    (Call::DictionaryStrip, "Dictionary strip"),
    (Call::DictionaryNext, "Dictionary next"),
    (Call::ToDictionary, "To dictionary"),
    (Call::ToBook, "To book"),
    (Call::SamePaper, "Same paper"),
    (Call::SameStanding, "Same paper, by the standing strips"),
    (Call::Stand, "Stand"),
    (Call::StandAgain, "Stand again"),
    (Call::NextPaper, "Next paper"),
    (Call::ApartPanel, "Next apart, panel"),
    (Call::ApartEndless, "Next apart, endless"),
    (Call::RebuiltCut, "Rebuild, cut or longer"),
    (Call::RebuiltByte, "Rebuild, one byte spoiled"),
    (Call::RebuiltTail, "Rebuild, all spoiled from a byte on"),
    (Call::ReplayMoves, "Replay, moves on or back"),
    (Call::ReplayExchanges, "Replay, exchanges by hand"),
    (Call::ReplayLarge, "Replay, refused for its total"),
    (Call::ReplayWrong, "Replay, refused for a pair"),
    (Call::ReadRight, "Read editions"),
    (Call::ReadVast, "Read editions, refused by 7"),
    (Call::ReadUnknown, "Read editions, refused by 11"),
    (Call::ReadPast, "Read editions, refused by 12"),
    (Call::ReadLow, "Read editions, refused by 17"),
    (Call::ReadSheet, "Read sheet, without strides"),
    (Call::ReadSheetStride, "Read sheet, with strides"),
    (Call::WriteLong, "Write long"),
    (Call::WriteLongRefused, "Write long, refused"),
    (Call::Rewrite, "Rewrite"),
    (Call::RewriteRoom, "Rewrite, refused by 13"),
    (Call::RewriteRefused, "Rewrite, refused as reading"),
    (Call::RewriteAgain, "Rewrite again"),
];

// How often a call was compared, and how often it disagreed.
#[derive(Clone, Copy)]
struct Seen {
    compared: u64,
    disagreed: u64,
}

// What was seen of each call.
#[derive(Drop)]
pub struct Tally {
    calls: [Seen; 46],
}

impl Tally {
    pub fn new() -> Tally {
        Tally {
            calls: [Seen {
                compared: 0,
                disagreed: 0,
            }; 46],
        }
    }

    // One comparison.
    pub fn note(&mut self, call: Call, agrees: bool) {
        let seen = &mut self.calls[call as usize];
        seen.compared = seen.compared.saturating_add(1);
        seen.disagreed = seen.disagreed.saturating_add(u64::from(!agrees));
    }

    fn seen(&self, call: Call) -> Seen {
        self.calls[call as usize]
    }
}

fn print_line(rt: &impl Print, words: &str, seen: Seen) -> io::Result<()> {
    let compared = seen.compared;
    let disagreed = seen.disagreed;
    println!(rt; "{words}: {compared} compared, {disagreed} disagreed")
}

// Count is compared once a stock, and Number once a strip.
pub fn print(rt: &impl Print, tally: &Tally) -> io::Result<()> {
    println!(rt; "Stocks: {}", tally.seen(Call::Count).compared)?;
    println!(rt; "Strips: {}", tally.seen(Call::Number).compared)?;
    for (call, words) in LINES {
        print_line(rt, words, tally.seen(call))?;
    }
    Ok(())
}
