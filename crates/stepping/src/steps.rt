// The moves of a scheme on its row, in place. The row has 16 cells: the parts have the first of them, and the others
// stay as they are. A row is given beside its bank: many rows of one bank are made, loaded and stepped apart
// from it.
ghost use Rattle.std.specs.Prelude.{◌≡◌, ◌<◌, take};
ghost use Rattle.fddevs.specs.declared.scheme.Move.TheVariants.{Outer, Internal, Delay};
ghost use Rattle.fddevs.specs.Rows.{every, lasts};
ghost use Rattle.wiring.specs.Meaning.{wiring_of, no_wiring};
ghost use Rattle.stepping.specs.RowBytes.{cells_of};
ghost use Rattle.stepping.specs.Stepping.{start_cells, cells_after, cells_allow, fed, cells_given};

use crate::cell::{put, read};
use crate::known::know_row;
use crate::part::{Part, after_delay, is_spent};
use bank::interface::Bank;
use book::row::Row;
use fddevs::part::Output;
use fddevs::scheme::{Move, OUTSIDE, Wire};
use wiring::wires::Wiring;

// The parts of a bank, and the wires between them.
#[derive(Drop)]
pub struct Scheme<'a, B> {
    pub bank: &'a B,
    pub wiring: &'a Wiring,
}

// The row in which every part begins.
pub fn start<B: Bank>(bank: &B) -> Row
    ensures { cells_of result.bytes ≡ start_cells (B.family bank.now) }
{
    let mut row = Row::ZERO;
    for part in 0..bank.part_count() {
        let begin = Part { bank, number: part }.begin();
        put(&mut row, part, begin);
    }
    row
}

// d ticks pass.
pub fn delay<B: Bank>(bank: &B, d: u32, row: &mut Row)
    ensures { cells_of row.new.bytes ≡ cells_after (B.family bank.now) no_wiring (Delay d) (cells_of row.old.bytes) }
{
    for part in 0..bank.part_count() {
        let after = after_delay(read(row, part), d);
        put(row, part, after);
    }
}

// Whether a part may take its internal step.
pub fn is_due<B: Bank>(bank: &B, row: &Row, part: u8) -> bool
    ensures { result ≡ cells_allow (B.family bank.now) no_wiring (cells_of row.now.bytes) (Internal part) }
{
    know_row(row);
    part < bank.part_count() && is_spent(read(row, part).remaining)
}

// Whether every part lasts for d ticks.
fn all_last<B: Bank>(bank: &B, row: &Row, d: u32) -> bool
    ensures { result ≡ every (λ c. lasts d c.remaining) (take (B.family bank.now).count (cells_of row.now.bytes)) }
{
    know_row(row);
    (0..bank.part_count()).all(|part| read(row, part).remaining.lasts(u64::from(d)))
}

// Whether d ticks may pass.
pub fn can_delay<B: Bank>(bank: &B, row: &Row, d: u32) -> bool
    ensures { result ≡ cells_allow (B.family bank.now) no_wiring (cells_of row.now.bytes) (Delay d) }
{
    d >= 1 && all_last(bank, row, d)
}

impl<B: Bank> Scheme<'_, B> {
    // The part that a wire leads to takes its input.
    fn feed(&self, wire: Wire, row: &mut Row)
        ensures { cells_of row.new.bytes ≡ fed (B.family self.now.bank.now) wire (cells_of row.old.bytes) }
    {
        if wire.target < self.bank.part_count() {
            let target = Part {
                bank: self.bank,
                number: wire.target,
            };
            let after = target.after_input(wire.input, read(row, wire.target));
            put(row, wire.target, after);
        }
    }

    // Every part that is wired to this output of the source takes its input.
    fn send(&self, source: u8, output: u8, row: &mut Row)
        ensures { cells_of row.new.bytes ≡ cells_given (B.family self.now.bank.now) (wiring_of self.now.wiring.now) source output (cells_of row.old.bytes) }
    {
        let wires = self.wiring.from_source(source, output);
        for wire in wires {
            self.feed(*wire, row);
        }
    }

    // Outer input x comes.
    pub fn outer_input(&self, x: u8, row: &mut Row)
        ensures { cells_of row.new.bytes ≡ cells_after (B.family self.now.bank.now) (wiring_of self.now.wiring.now) (Outer x) (cells_of row.old.bytes) }
    {
        self.send(OUTSIDE, x, row);
    }

    // A part takes its internal step, and the parts that are wired to what it sends take their inputs. Its own cell is
    // written last: it takes no input, also where a wire leads to itself.
    pub fn internal_step(&self, part: u8, row: &mut Row)
        ensures { cells_of row.new.bytes ≡ cells_after (B.family self.now.bank.now) (wiring_of self.now.wiring.now) (Internal part) (cells_of row.old.bytes) }
    {
        if part < self.bank.part_count() {
            let sender = Part {
                bank: self.bank,
                number: part,
            };
            know_row(row);
            let before = read(row, part);
            if let Output::Sends(number) = sender.output(before.phase) {
                self.send(part, number, row);
            }
            put(row, part, sender.after_internal(before));
        }
    }

    // Whether the scheme allows a move.
    pub fn allows(&self, row: &Row, a: Move) -> bool
        ensures { result ≡ cells_allow (B.family self.now.bank.now) (wiring_of self.now.wiring.now) (cells_of row.now.bytes) a }
    {
        match a {
            Move::Outer(x) => x < self.wiring.outer_inputs(),
            Move::Internal(part) => is_due(self.bank, row, part),
            Move::Delay(d) => can_delay(self.bank, row, d),
        }
    }

    // Makes a move, allowed or not.
    pub fn step(&self, a: Move, row: &mut Row)
        ensures { cells_of row.new.bytes ≡ cells_after (B.family self.now.bank.now) (wiring_of self.now.wiring.now) a (cells_of row.old.bytes) }
    {
        match a {
            Move::Outer(x) => self.outer_input(x, row),
            Move::Internal(part) => self.internal_step(part, row),
            Move::Delay(d) => delay(self.bank, d, row),
        }
    }
}
