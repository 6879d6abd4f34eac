// The steps of one part of a bank, on its cell. What the part does not have is ignored: an input leaves the cell as it
// is, and a phase is unlimited, stays and is silent.
ghost use Rattle.std.specs.Prelude.{◌≡◌, ◌<◌};
ghost use Rattle.fddevs.specs.Rows.{cell_fresh, cell_input, cell_internal, cell_delay, is_due};
ghost use Rattle.stepping.specs.Stepping.{machine};

use bank::interface::Bank;
use fddevs::part::{Cell, Mark, Output, Span};

// A part of a bank, by its number, stepped on its cell of a row: `follow` steps a part on its state, which says more.
#[derive(Drop)]
pub(crate) struct Part<'a, B: Bank> {
    pub(crate) bank: &'a B,
    pub(crate) number: u8,
    ghost there: { number < (B.Bank.family bank.now).count },
}

impl<B: Bank> Part<'_, B> {
    // A phase with its own lifespan, from the beginning.
    fn fresh(&self, phase: u8) -> Cell
        ensures { result ≡ cell_fresh (machine (B.Bank.family self.now.bank.now) self.now.number) phase }
    {
        Cell {
            phase,
            remaining: self
                .bank
                .lifespan(self.number, phase)
                .unwrap_or(Span::Unlimited),
        }
    }

    pub(crate) fn begin(&self) -> Cell
        ensures { result ≡ cell_fresh (machine (B.Bank.family self.now.bank.now) self.now.number) (machine (B.Bank.family self.now.bank.now) self.now.number).start }
    {
        self.fresh(self.bank.start(self.number).unwrap_or(0))
    }

    pub(crate) fn after_input(&self, input: u8, cell: Cell) -> Cell
        ensures { result ≡ cell_input (machine (B.Bank.family self.now.bank.now) self.now.number) input cell }
    {
        let Some(external) = self.bank.external(self.number, cell.phase, input) else {
            return cell;
        };
        match external.mark {
            Mark::Restart => self.fresh(external.next),
            Mark::Keep => Cell {
                phase: external.next,
                ..cell
            },
        }
    }

    pub(crate) fn after_internal(&self, cell: Cell) -> Cell
        ensures { result ≡ cell_internal (machine (B.Bank.family self.now.bank.now) self.now.number) cell }
    {
        let next = self.bank.next(self.number, cell.phase);
        self.fresh(next.unwrap_or(cell.phase))
    }

    // What the internal step from a phase sends.
    pub(crate) fn output(&self, phase: u8) -> Output
        ensures { result ≡ (machine (B.Bank.family self.now.bank.now) self.now.number).output phase }
    {
        self.bank
            .output(self.number, phase)
            .unwrap_or(Output::Silent)
    }
}

// The cell after a delay. What remains is at most what remained, so that it fits where it is cast.
pub(crate) fn after_delay(cell: Cell, d: u32) -> Cell
    ensures { result ≡ cell_delay d cell }
{
    match cell.remaining {
        Span::Ticks(ticks) => Cell {
            phase: cell.phase,
            remaining: Span::Ticks(u32::from(ticks).saturating_sub(d) as u16),
        },
        Span::Unlimited => cell,
    }
}

// Whether nothing remains.
pub(crate) fn is_spent(remaining: Span) -> bool
    ensures { result ≡ is_due remaining }
{
    match remaining {
        Span::Ticks(ticks) => ticks == 0,
        Span::Unlimited => false,
    }
}
