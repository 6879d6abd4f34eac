ghost use Rattle.std.specs.Prelude.{◌≡◌};
ghost use Rattle.session.specs.Expected.{expected_text};

use bars::condition::Condition;
use fddevs::part::PartMove;
use std::alloc::{AllocError, AllocFailed};
use timers::setting::Setting;

// Where a file comes from: a path, or bytes that stand in the line.
#[derive(Drop)]
pub enum Source {
    Path(String),
    Bytes(Vec<u8>),
}

// A line of a session.
#[derive(Drop)]
pub enum Command {
    // a timer bank
    Timers(Vec<Setting>),
    // a table bank
    Scheme(Source),
    // every part as a table
    Sheet,
    // one part, step by step
    Follow(u8, Vec<PartMove>),
    // the rows of a set file for so many parts
    Rows(u8, Source),
    // a wiring
    Wire(Source),
    // a proof file
    Offer(Source),
    // a bar of these conditions
    Bar(Vec<Condition>),
    // what the verdict is
    Verdict,
    // the wires and the bars that stand
    Show,
}

// What a malformed line should have had.
#[derive(Clone, Copy, PartialEq, Eq, Debug)]
pub enum Malformed {
    Command,
    NothingMore,
    Setting,
    Source,
    HexPair,
    Part,
    Move,
    PartCount,
    Condition,
    // a second timer bank or a second table bank
    OneOfEach,
    // a bank's line behind a line that asks something of the bank
    BankFirst,
    // no memory was left to read the line
    Memory,
}

impl Malformed {
    // What was expected, in plain words.
    pub fn expected(self) -> &'static str
        ensures { result.now ≡ expected_text self }
    {
        match self {
            Malformed::Command =>
                "expected timers, scheme, sheet, follow, rows, wire, bar, offer, verdict or show",
            Malformed::NothingMore => "expected nothing more on this line",
            Malformed::Setting => "expected timer settings OPERATE/HOLD in decimal, as 20/5",
            Malformed::Source => "expected the path of a file, or hex and byte pairs",
            Malformed::HexPair => "expected pairs of hexadecimal digits, as 01 FF",
            Malformed::Part => "expected a part number, from 0 to 255, and a colon",
            Malformed::Move => "expected moves separated by commas: input K, delay D or inner",
            Malformed::PartCount => "expected a number of parts, from 0 to 255, and a set file",
            Malformed::Condition =>
                "expected conditions PART:PHASE, each number from 0 to 255, as 0:2 1:3",
            Malformed::OneOfEach => "expected at most one timers line and one scheme line",
            Malformed::BankFirst => "expected the timers and scheme lines before all others",
            Malformed::Memory => "out of memory",
        }
    }
}

impl From<AllocError> for Malformed {
    fn from(_e: AllocError) -> Malformed {
        Malformed::Memory
    }
}

impl<T: Drop> From<AllocFailed<T>> for Malformed {
    fn from(_e: AllocFailed<T>) -> Malformed {
        Malformed::Memory
    }
}
