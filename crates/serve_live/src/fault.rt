//! Why a listener can't join.
ghost use Rattle.std.specs.Prelude.{◌≡◌};
ghost use Rattle.serve_live.specs.JoinFault.{code_of, name_of, IsMemory};

use std::alloc::AllocError;
use thiserror::Error;

/// Why a listener can't join a link.
#[derive(Clone, Copy, Debug, PartialEq, Eq, Error)]
pub enum JoinFault {
    /// The source couldn't be read.
    #[error("the source can't be read")]
    Source,
    /// Memory was refused.
    #[error("memory was refused")]
    Memory,
}

impl JoinFault {
    /// The fault's number.
    pub fn code(self) -> u8
        ensures { result ≡ code_of self }
    {
        match self {
            JoinFault::Source => 1,
            JoinFault::Memory => 2,
        }
    }

    /// The fault's name.
    pub fn name(self) -> &'static str
        ensures { result.now ≡ name_of self }
    {
        match self {
            JoinFault::Source => "Source",
            JoinFault::Memory => "Memory",
        }
    }
}

impl From<AllocError> for JoinFault {
    ghost from_gives = { IsMemory };

    fn from(_refused: AllocError) -> JoinFault {
        JoinFault::Memory
    }
}
