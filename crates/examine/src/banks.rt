// The lines of a session that make its bank. They come before all others.
use crate::calls::run_calls;
use crate::failure::Failure;
use crate::line::{Line, Session};
use bank::idle::Idle;
use bank::interface::Bank;
use bank::pair;
use bank::pair::Pair;
use scheme_file::table_bank::TableBank;
use session::command::{Command, Malformed, Source};
use timers::setting::Setting;
use timers::timer_bank::TimerBank;

// The bank that the lines so far have made: a pair has the banks in the order of the lines. Two `Option`s and an order
// would have states that cannot be.
#[derive(Drop)]
enum Made {
    Nothing,
    Timers(TimerBank),
    Table(TableBank),
    TimersTable(Pair<TimerBank, TableBank>),
    TableTimers(Pair<TableBank, TimerBank>),
}

fn make_timers(line: Line, settings: &[Setting]) -> Result<TimerBank, Failure> {
    line.print_vetted("timers", timers::vetting::vet(settings))?;
    Ok(timers::timer_bank::make(line.rt.alloc(), settings)?)
}

fn make_table(line: Line, source: Source) -> Result<TableBank, Failure> {
    let file = line.bytes(source)?;
    line.print_vetted("scheme", scheme_file::vetting::vet(&file))?;
    Ok(scheme_file::table_bank::make(line.rt.alloc(), &file)?)
}

// The pair of two banks. Says so where they are too large to be joined.
fn join<A: Bank, B: Bank>(line: Line, first: A, second: B) -> Result<Pair<A, B>, Failure> {
    let vetted = pair::vet(&first, &second);
    if vetted.is_err() {
        line.print_vetted("pair", vetted)?;
    }
    Ok(Pair::new(first, second))
}

// The two differ in what they are given, make and how they order it: one function of both would take four closures.
impl Made {
    fn with_timers(self, line: Line, settings: &[Setting]) -> Result<Made, Failure> {
        match self {
            Made::Nothing => Ok(Made::Timers(make_timers(line, settings)?)),
            Made::Table(table) => {
                let timers = make_timers(line, settings)?;
                Ok(Made::TableTimers(join(line, table, timers)?))
            }
            _ => line.malformed(Malformed::OneOfEach),
        }
    }

    fn with_table(self, line: Line, source: Source) -> Result<Made, Failure> {
        match self {
            Made::Nothing => Ok(Made::Table(make_table(line, source)?)),
            Made::Timers(timers) => {
                let table = make_table(line, source)?;
                Ok(Made::TimersTable(join(line, timers, table)?))
            }
            _ => line.malformed(Malformed::OneOfEach),
        }
    }
}

// A session's bank, and how many lines stand before its first other line.
fn gather(session: Session) -> Result<(Made, usize), Failure> {
    let mut made = Made::Nothing;
    let mut passed = 0;
    for (k, content) in session.text.lines().enumerate() {
        let line = session.line(k);
        match line.command(content)? {
            None => {}
            Some(Command::Timers(settings)) => made = made.with_timers(line, &settings)?,
            Some(Command::Scheme(source)) => made = made.with_table(line, source)?,
            Some(_) => break,
        }
        passed = line.number;
    }
    Ok((made, passed))
}

// Runs a session: its banks, then its calls on their pair, on the one bank, or on the idle bank where it names none.
pub fn run_session(session: Session) -> Result<(), Failure> {
    let (made, passed) = gather(session)?;
    match made {
        Made::Nothing => run_calls(session, Idle, passed),
        Made::Timers(bank) => run_calls(session, bank, passed),
        Made::Table(bank) => run_calls(session, bank, passed),
        Made::TimersTable(bank) => run_calls(session, bank, passed),
        Made::TableTimers(bank) => run_calls(session, bank, passed),
    }
}
