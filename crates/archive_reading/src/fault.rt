//! Why a folder or a file of it isn't read.

use gate_file::OpenFault;
use thiserror::Error;

/// Why a folder or a file of it isn't read. No memory is held then.
#[derive(Clone, Copy, Debug, PartialEq, Eq, Error)]
pub enum ReadingFault {
    /// The folder or the file can't be opened or read.
    #[error("it can't be read")]
    File,
    /// Memory was refused.
    #[error("memory was refused")]
    Memory,
    /// The end of the file's committed bytes can't be found.
    #[error("{0}")]
    Open(OpenFault),
}
