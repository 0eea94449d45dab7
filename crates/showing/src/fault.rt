// Why something could not be shown.
use std::alloc::AllocError;
use std::io;
use thiserror::Error;

// Each is told in its own words: as an `io::Error`, a failed allocation would be told in others.
#[derive(Debug, Drop, Error)]
pub enum ShowFault {
    // Reading or writing failed.
    #[error(transparent)]
    Io(#[from] io::Error),
    // There was no memory.
    #[error(transparent)]
    Memory(#[from] AllocError),
}
