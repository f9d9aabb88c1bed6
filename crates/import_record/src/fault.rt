//! Why no further page is recorded.
ghost use Rattle.std.specs.Prelude.{◌≡◌};
ghost use Rattle.import_record.specs.RecordFault.{code_of, name_of, IsMemory, IsWrite};

use ogg_page::WriteFault;
use std::alloc::AllocError;
use thiserror::Error;

/// Why no further page is recorded. Neither a page nor a refusal is a reason.
#[derive(Clone, Copy, Debug, PartialEq, Eq, Error)]
pub enum RecordFault {
    /// The reader failed.
    #[error("reading failed")]
    Read,
    /// Memory was refused.
    #[error("out of memory")]
    Memory,
    /// The pages could not be written.
    #[error("writing failed")]
    Write,
}

impl RecordFault {
    /// The fault's number.
    pub fn code(self) -> u8
        ensures { result ≡ code_of self }
    {
        match self {
            RecordFault::Read => 1,
            RecordFault::Memory => 2,
            RecordFault::Write => 3,
        }
    }

    /// The fault's name.
    pub fn name(self) -> &'static str
        ensures { result.now ≡ name_of self }
    {
        match self {
            RecordFault::Read => "Read",
            RecordFault::Memory => "Memory",
            RecordFault::Write => "Write",
        }
    }
}

impl From<AllocError> for RecordFault {
    ghost from_gives = { IsMemory };

    fn from(_refused: AllocError) -> RecordFault {
        RecordFault::Memory
    }
}

impl From<WriteFault> for RecordFault {
    ghost from_gives = { IsWrite };

    fn from(_failed: WriteFault) -> RecordFault {
        RecordFault::Write
    }
}
