//! Why a page isn't taken.
ghost use Rattle.std.specs.Prelude.{◌≡◌};
ghost use Rattle.import_gather.specs.Fault.{code_of, name_of, IsMemory};

use link_chain::ChainFault;
use std::alloc::AllocError;
use thiserror::Error;

/// Why a page isn't taken.
#[derive(Clone, Copy, Debug, PartialEq, Eq, Error)]
pub enum GatherFault {
    /// The page may not follow the pages before it.
    #[error("{0}")]
    Chain(ChainFault),
    /// A packet is longer than a packet may be.
    #[error("a packet is too long")]
    PacketTooLong,
    /// A growth of a vector was refused.
    #[error("out of memory")]
    Memory,
}

impl GatherFault {
    /// The fault's number.
    pub fn code(self) -> u8
        ensures { result ≡ code_of self }
    {
        match self {
            GatherFault::Chain(_) => 1,
            GatherFault::PacketTooLong => 2,
            GatherFault::Memory => 3,
        }
    }

    /// The fault's name.
    pub fn name(self) -> &'static str
        ensures { result.now ≡ name_of self }
    {
        match self {
            GatherFault::Chain(_) => "Chain",
            GatherFault::PacketTooLong => "PacketTooLong",
            GatherFault::Memory => "Memory",
        }
    }
}

impl From<AllocError> for GatherFault {
    ghost from_gives = { IsMemory };

    fn from(_refused: AllocError) -> GatherFault {
        GatherFault::Memory
    }
}
