//! Faults of reading and writing.
use thiserror::Error;

/// The reason why reading or writing stops.
#[derive(Clone, Copy, Debug, PartialEq, Eq, Error)]
pub enum IoFault {
    /// Out of memory.
    #[error("out of memory")]
    Memory,
    /// The reader failed.
    #[error("the reader has failed")]
    Read,
    /// The writer failed; a beginning of the text was written.
    #[error("the writer has failed")]
    Write,
}
