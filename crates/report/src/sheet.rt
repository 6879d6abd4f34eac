use crate::words::{Leads, Sent, Ticks};
use bank::interface::Bank;
use fddevs::part::{Counts, Output, Span};
use std::alloc::{AllocError, Global};

// A part of a bank, as its table shows it.
#[derive(Drop)]
struct Table<'a, B: Bank> {
    heap: Global,
    bank: &'a B,
    part: u8,
    start: u8,
    counts: Counts,
}

impl<B: Bank> Table<'_, B> {
    // The heads of the columns.
    fn heads(&self) -> Result<String, AllocError> {
        let mut line = String::from_str(self.heap, "    phase   lifespan  next  output")?;
        for input in 0..self.counts.inputs {
            write!(line, "  input {input:<5}")?;
        }
        Ok(line)
    }

    // The line of a phase. Where a text of two pieces is padded as a whole it is made first: a width is kept by a `Display`
    // of one piece alone.
    fn row(&self, phase: u8) -> Result<String, AllocError> {
        let bank = self.bank;
        let part = self.part;
        let lifespan = Ticks(bank.lifespan(part, phase).unwrap_or(Span::Unlimited));
        let next = bank.next(part, phase).unwrap_or(phase);
        let output = Sent(bank.output(part, phase).unwrap_or(Output::Silent));
        let mut line = format!(in self.heap;
            "    {phase:>5}  {lifespan:>9}  {next:>4}  {output:>6}"
        )?;
        for input in 0..self.counts.inputs {
            if let Some(external) = bank.external(part, phase, input) {
                let leads = format!(in self.heap; "{}", Leads(external))?;
                write!(line, "  {leads:<11}")?;
            }
        }
        Ok(line)
    }

    // The line that names the part, and its columns. No spaces stand at the end of a line.
    fn write(&self, out: &mut String) -> Result<(), AllocError> {
        let part = self.part;
        let start = self.start;
        let Counts {
            phases,
            inputs,
            outputs,
        } = self.counts;
        writeln!(
            out,
            "  part {part}: phases {phases}, inputs {inputs}, outputs {outputs}, start phase {start}"
        )?;
        writeln!(out, "{}", self.heads()?.trim_end())?;
        for phase in 0..phases {
            writeln!(out, "{}", self.row(phase)?.trim_end())?;
        }
        Ok(())
    }
}

// Every part of a bank as a table: its counts and start, and of each phase the lifespan, the next phase, the output,
// and per input the next phase and the mark.
pub fn sheet<B: Bank>(heap: Global, bank: &B) -> Result<String, AllocError> {
    let mut out = String::new(heap);
    for part in 0..bank.part_count() {
        if let (Some(start), Some(counts)) = (bank.start(part), bank.counts(part)) {
            let table = Table {
                heap,
                bank,
                part,
                start,
                counts,
            };
            table.write(&mut out)?;
        }
    }
    Ok(out)
}
