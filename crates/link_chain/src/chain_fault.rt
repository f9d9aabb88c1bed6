//! Why a page may not follow.
ghost use Rattle.std.specs.Prelude.{◌≡◌};
ghost use Rattle.link_chain.specs.ChainFault.{code_of, name_of, IsMemory};

use std::alloc::AllocError;
use thiserror::Error;

/// Why a page may not follow the pages of a chain (RFC 3533, sections 4 to 6).
#[derive(Clone, Copy, Debug, PartialEq, Eq, Error)]
pub enum ChainFault {
    /// The sequence number isn't one more than that of the stream's page before.
    #[error("the sequence number isn't the next one")]
    Sequence,
    /// The page doesn't begin as the stream's page before ended: with or without a continued packet.
    #[error("the continued flag doesn't fit the page before")]
    Continued,
    /// The first page of all isn't marked as a stream's first.
    #[error("the first page doesn't begin a stream")]
    BosPlace,
    /// A stream's first page doesn't hold exactly one whole packet.
    #[error("a first page doesn't hold just one whole packet")]
    BosShape,
    /// The link has a stream with this serial already.
    #[error("the link has a stream with this serial already")]
    SerialTwice,
    /// The last link has no stream with this serial.
    #[error("the last link has no such stream")]
    NoStream,
    /// The stream has its last page already.
    #[error("the stream has ended")]
    AfterEos,
    /// A stream begins after the first pages of a link that is still open.
    #[error("a stream begins in the middle of a link")]
    BosWhileOpen,
    /// There are as many streams as a link may have, or as many links as a file.
    #[error("there are too many streams or links")]
    TooMany,
    /// A stream's last page leaves a packet unfinished.
    #[error("the last page leaves a packet unfinished")]
    EosUnfinished,
    /// Memory was refused.
    #[error("out of memory")]
    Memory,
}

impl ChainFault {
    /// The fault's number.
    pub fn code(self) -> u8
        ensures { result ≡ code_of self }
    {
        match self {
            ChainFault::Sequence => 1,
            ChainFault::Continued => 2,
            ChainFault::BosPlace => 3,
            ChainFault::BosShape => 4,
            ChainFault::SerialTwice => 5,
            ChainFault::NoStream => 6,
            ChainFault::AfterEos => 7,
            ChainFault::BosWhileOpen => 8,
            ChainFault::TooMany => 9,
            ChainFault::EosUnfinished => 10,
            ChainFault::Memory => 11,
        }
    }

    /// The fault's name.
    pub fn name(self) -> &'static str
        ensures { result.now ≡ name_of self }
    {
        match self {
            ChainFault::Sequence => "Sequence",
            ChainFault::Continued => "Continued",
            ChainFault::BosPlace => "BosPlace",
            ChainFault::BosShape => "BosShape",
            ChainFault::SerialTwice => "SerialTwice",
            ChainFault::NoStream => "NoStream",
            ChainFault::AfterEos => "AfterEos",
            ChainFault::BosWhileOpen => "BosWhileOpen",
            ChainFault::TooMany => "TooMany",
            ChainFault::EosUnfinished => "EosUnfinished",
            ChainFault::Memory => "Memory",
        }
    }
}

impl From<AllocError> for ChainFault {
    ghost from_gives = { IsMemory };

    fn from(_refused: AllocError) -> ChainFault {
        ChainFault::Memory
    }
}
