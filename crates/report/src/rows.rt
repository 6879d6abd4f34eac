// The rows of a set, and the cells of a row.
use crate::words::Ticks;
use fddevs::part::Span;
use set_file::reader::SetReader;
use std::alloc::{AllocError, Global};
use std::fmt;

// The phase and the remaining of each part of a row, parted by semicolons: three bytes a part. They are lent by a set or a
// record and are split here, where `stepping` reads a record by the number of a part.
#[derive(Clone, Copy)]
pub struct Cells<'a>(pub &'a [u8]);

// A part in a row, and its bytes.
#[derive(Clone, Copy)]
struct InRow<'a>(usize, &'a [u8]);

impl fmt::Display for InRow<'_> {
    fn fmt<W: fmt::Write>(&self, f: &mut fmt::Formatter<W>) -> fmt::Result {
        let InRow(part, cell) = *self;
        match cell {
            [phase, high, low] => {
                let left = Ticks(Span::from(u16::from_be_bytes([*high, *low])));
                write!(f, " part {part} phase {phase} remaining {left}")
            }
            _ => Ok(()),
        }
    }
}

impl fmt::Display for Cells<'_> {
    fn fmt<W: fmt::Write>(&self, f: &mut fmt::Formatter<W>) -> fmt::Result {
        let cells = self.0.chunks_exact(3).enumerate();
        f.write_joined(cells.map(|(part, cell)| InRow(part, cell)), ";")
    }
}

// The rows of a set, a line each. A set hands its rows out by their numbers: an iterator of them would need ghost members
// of its own.
pub fn rows_text(heap: Global, set: &SetReader) -> Result<String, AllocError> {
    let mut text = String::new(heap);
    for k in 0..set.count() {
        if let Some(bytes) = set.row(k) {
            writeln!(text, "  row {k}:{}", Cells(bytes))?;
        }
    }
    Ok(text)
}
