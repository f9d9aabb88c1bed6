//! Why a file is left as it is.

use gate_file::OpenFault;

/// Why a file is left exactly as it is.
#[derive(Clone, Copy, Debug, PartialEq, Eq)]
pub enum Damage {
    /// It can't be opened or read.
    Unreadable,
    /// It begins with bytes that no recording begins with.
    Foreign,
    /// It holds no chain of links up to its last whole page, or its disk has failed.
    Open(OpenFault),
    /// Bytes follow its last whole page that no stop leaves there: a page may stand there whose first byte turned over.
    Tail(u64),
}
