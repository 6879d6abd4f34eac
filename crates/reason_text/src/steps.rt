// Why a witness was refused: the step at fault, and the row at which it was to be taken.
use crate::offer::Offer;
use crate::words::Named;
use bank::interface::Bank;
use book::row::Row;
use fddevs::scheme::Move;
use reasons::cells::cell;
use reasons::parts::first_short;
use reasons::walking::move_of;
use report::words::Ticks;
use std::alloc::AllocError;
use std::fmt;

// Why a step is not allowed in a row.
#[derive(Drop)]
struct Hindrance<'a, B: Bank> {
    bank: &'a B,
    row: &'a Row,
    step: Move,
}

impl<B: Bank> Hindrance<'_, B> {
    // What the row leaves to a part, where there is the part.
    fn remains<W: fmt::Write>(&self, part: u8, f: &mut fmt::Formatter<W>) -> fmt::Result {
        match cell(self.row, part) {
            Some(cell) if part < self.bank.part_count() => {
                let left = Ticks(cell.remaining);
                write!(f, "part {part} has {left} remaining")
            }
            _ => write!(f, "there is no part {part}"),
        }
    }
}

impl<B: Bank> fmt::Display for Hindrance<'_, B> {
    fn fmt<W: fmt::Write>(&self, f: &mut fmt::Formatter<W>) -> fmt::Result {
        match self.step {
            Move::Outer(x) => write!(f, "there is no outer input {x}"),
            Move::Internal(part) => self.remains(part, f),
            Move::Delay(0) => f.write_str("a delay is at least 1"),
            Move::Delay(d) => match first_short(self.bank, self.row, d) {
                Some(part) => self.remains(part, f),
                None => Ok(()),
            },
        }
    }
}

impl<B: Bank> Offer<'_, B> {
    // Step k, why it is not allowed, and the row at which it was to be taken.
    pub fn step_lines(&self, k: usize) -> Result<String, AllocError> {
        let bank = self.x.bank();
        let row = &self.row_after(k);
        let mut out = self.named("row before it", row)?;
        if let Some([kind, high, low]) = self.body.chunks(3).nth(k) {
            write!(out, "  bytes {kind:02X} {high:02X} {low:02X}: ")?;
            match move_of(*kind, *high, *low) {
                Some(step) => {
                    let why = Hindrance { bank, row, step };
                    writeln!(out, "{}; {why}", Named(step))?;
                }
                None => writeln!(out, "no step")?,
            }
        }
        Ok(out)
    }

    // How many steps the body of a witness has.
    pub fn step_count(&self) -> usize {
        self.body.len() / 3
    }

    // The row after all steps.
    pub fn last_row(&self) -> Row {
        self.row_after(self.step_count())
    }
}
