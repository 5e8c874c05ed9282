//! Why the walkthrough cannot go on.
use std::alloc::AllocError;
use std::io;
use telecommand::{ReadFault, WriteFault};
use thiserror::Error;

#[derive(Debug, Drop, Error)]
pub enum Stop {
    #[error("nothing can be printed: {0}")]
    Print(#[from] io::Error),
    #[error("there is no memory for a link or an answer")]
    Memory,
    #[error("what is on the links is no command: {0}")]
    Read(#[from] ReadFault),
    #[error("a frame cannot be written: {0}")]
    Write(#[from] WriteFault),
    #[error("something else was read than was written")]
    Changed,
}

// By hand: a derived one needs a field, and a run without memory would then print more than it did.
impl From<AllocError> for Stop {
    fn from(_: AllocError) -> Stop {
        Stop::Memory
    }
}
