//! Why an import goes no further.
ghost use Rattle.std.specs.Prelude.{◌≡◌};
ghost use Rattle.import_mend.specs.ImportFault.{code_of, name_of, IsMemory};

use std::alloc::AllocError;
use thiserror::Error;

/// Why an import goes no further. No page is a reason.
#[derive(Clone, Copy, Debug, PartialEq, Eq, Error)]
pub enum ImportFault {
    /// The reader failed.
    #[error("reading failed")]
    Read,
    /// Memory was refused.
    #[error("out of memory")]
    Memory,
}

impl ImportFault {
    /// The fault's number.
    pub fn code(self) -> u8
        ensures { result ≡ code_of self }
    {
        match self {
            ImportFault::Read => 1,
            ImportFault::Memory => 2,
        }
    }

    /// The fault's name.
    pub fn name(self) -> &'static str
        ensures { result.now ≡ name_of self }
    {
        match self {
            ImportFault::Read => "Read",
            ImportFault::Memory => "Memory",
        }
    }
}

impl From<AllocError> for ImportFault {
    ghost from_gives = { IsMemory };

    fn from(_refused: AllocError) -> ImportFault {
        ImportFault::Memory
    }
}
