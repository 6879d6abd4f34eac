// Why a set was refused: the row at fault, and what is wrong with it.
use crate::offer::Offer;
use crate::words::Named;
use bank::interface::Bank;
use reasons::cells::cell;
use reasons::leaving::leaving;
use reasons::parts::missing_phase;
use std::alloc::AllocError;

impl<B: Bank> Offer<'_, B> {
    fn row_line(&self, k: usize) -> Result<String, AllocError> {
        let row = self.row(k);
        format!(in self.heap; "  row {k}:{}\n", self.cells(&row))
    }

    // Row k, and its first part without its phase.
    pub fn phase_lines(&self, k: usize) -> Result<String, AllocError> {
        let bank = self.x.bank();
        let row = self.row(k);
        let mut out = self.row_line(k)?;
        if let Some(part) = missing_phase(bank, &row)
            && let Some(cell) = cell(&row, part)
            && let Some(counts) = bank.counts(part)
        {
            let phase = cell.phase;
            let phases = counts.phases;
            writeln!(
                out,
                "  part {part} has {phases} phases and no phase {phase}"
            )?;
        }
        Ok(out)
    }

    // Row k behind the row before it.
    pub fn order_lines(&self, k: usize) -> Result<String, AllocError> {
        let mut out = self.row_line(k.saturating_sub(1))?;
        out.push_str(self.row_line(k)?.as_str())?;
        Ok(out)
    }

    // Row k, and the bar that holds in it.
    pub fn barred_lines(&self, k: usize) -> Result<String, AllocError> {
        let mut out = self.row_line(k)?;
        self.write_held(&self.row(k), &mut out)?;
        Ok(out)
    }

    // Row k, the step that leads out, and the row that it leads to.
    pub fn leaving_lines(&self, k: usize) -> Result<String, AllocError> {
        let row = self.row(k);
        let mut out = self.row_line(k)?;
        if let Some(departure) = leaving(self.x.bank(), self.x.wiring(), &self.rows(), &row) {
            let step = Named(departure.step);
            let to = self.cells(&departure.to);
            writeln!(out, "  {step} leads to:{to}")?;
        }
        Ok(out)
    }
}
