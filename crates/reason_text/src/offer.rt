// A proof file that was offered to an examination.
use bank::interface::Bank;
use book::row::Row;
use examination::examination::Examination;
use lookup::rows::Rows;
use reasons::holding::holding;
use reasons::walking::walk_to;
use report::rows::Cells;
use report::show::Conditions;
use set_file::layout::width;
use std::alloc::{AllocError, Global};

// How many bytes the head of a proof file has.
const HEAD: usize = 6;

// The body is what follows the head of the file, whether or not it has the length that the head says.
#[derive(Drop)]
pub(crate) struct Offer<'a, B: Bank> {
    pub heap: Global,
    pub x: &'a Examination<B>,
    pub body: &'a [u8],
}

impl<'a, B: Bank> Offer<'a, B> {
    pub fn new(heap: Global, x: &'a Examination<B>, file: &'a [u8]) -> Self {
        let body = file.get(HEAD..).unwrap_or(&[]);
        Offer { heap, x, body }
    }

    // The rows of the body of a set.
    pub fn rows(&self) -> Rows<'_> {
        Rows::new(self.x.bank().part_count(), self.body)
    }

    // Row k of the body, or zeros. In `judging` it is asked that there is one, and promised which it is.
    pub fn row(&self, k: usize) -> Row {
        let mut row = Row::ZERO;
        self.rows().load(k, &mut row);
        row
    }

    // The row after so many steps of the body of a witness.
    pub fn row_after(&self, steps: usize) -> Row {
        walk_to(self.x.bank(), self.x.wiring(), self.body, steps)
    }

    pub fn cells<'r>(&self, row: &'r Row) -> Cells<'r> {
        let width = width(self.x.bank().part_count());
        Cells(row.bytes.get(..width).unwrap_or(&row.bytes))
    }

    // The line of a row behind its name.
    pub fn named(&self, name: &str, row: &Row) -> Result<String, AllocError> {
        format!(in self.heap; "  {name}:{}\n", self.cells(row))
    }

    // The line of the first bar that holds in a row, by its conditions.
    pub fn write_held(&self, row: &Row, out: &mut String) -> Result<(), AllocError> {
        let bars = self.x.bars();
        if let Some(k) = holding(self.x.bank(), bars, row)
            && let Some(bar) = bars.get(k)
        {
            writeln!(out, "  bar {k} holds:{}", Conditions(bar.conditions()))?;
        }
        Ok(())
    }
}
