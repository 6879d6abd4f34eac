// The cell of a part, read from a row.
pub use stepping::cell::cell;
