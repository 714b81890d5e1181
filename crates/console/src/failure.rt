//! What can end a program before all is printed.
use std::alloc::AllocError;
use std::io;
use thiserror::Error;

/// It prints in the words of what failed.
#[derive(Debug, Drop, Error)]
pub enum Failure {
    /// The memory for orders, answers, messages or the text.
    #[error(transparent)]
    Memory(#[from] AllocError),
    /// The input, also where the memory for what is read runs out, or the writer.
    #[error(transparent)]
    Io(#[from] io::Error),
}
