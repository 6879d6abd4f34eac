// What ends a session early.
use std::alloc::AllocError;
use std::io;
use thiserror::Error;

#[derive(Debug, Drop, Error)]
pub enum Failure {
    // the file, the line where there is one, and what was wrong
    #[error("{0}")]
    Told(String),
    #[error(transparent)]
    Io(#[from] io::Error),
    #[error("out of memory")]
    Memory(#[from] AllocError),
}
