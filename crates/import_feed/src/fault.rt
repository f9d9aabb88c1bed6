//! Why a feed ends before its input does.
ghost use Rattle.std.specs.Prelude.{◌≡◌};
ghost use Rattle.import_feed.specs.MakingFault.{code_of, name_of, IsMemory};

use link_chain::ChainFault;
use ogg_page::PageFault;
use std::alloc::AllocError;
use thiserror::Error;

/// Why a feed ends before its input does, and the offset in the input where that stands.
#[derive(Clone, Copy, Debug, PartialEq, Eq, Error)]
pub enum MakingFault {
    /// No page begins at this offset, and what is wrong there.
    #[error("no page begins at byte {0}: {1}")]
    Page(u64, PageFault),
    /// The page at this offset may not follow the pages before it.
    #[error("the page at byte {0} may not follow: {1}")]
    Chain(u64, ChainFault),
    /// With the page at this offset a packet is longer than a packet may be.
    #[error("at byte {0} a packet is too long")]
    PacketTooLong(u64),
    /// The input ends at this offset, and the last packet of the stream with this serial is unfinished.
    #[error("the input ends at byte {0} within a packet of stream {1}")]
    Unfinished(u64, u32),
    /// With the page at this offset the input is longer than a file may be.
    #[error("at byte {0} the input is too long")]
    TooLong(u64),
    /// The reader failed after this offset.
    #[error("reading failed behind byte {0}")]
    Read(u64),
    /// A command is too long for a record.
    #[error("a command is too long for a record")]
    Limit,
    /// The writer failed.
    #[error("writing failed")]
    Write,
    /// Memory was refused.
    #[error("out of memory")]
    Memory,
}

impl MakingFault {
    /// The fault's number.
    pub fn code(self) -> u8
        ensures { result ≡ code_of self }
    {
        match self {
            MakingFault::Page(_, _) => 1,
            MakingFault::Chain(_, _) => 2,
            MakingFault::PacketTooLong(_) => 3,
            MakingFault::Unfinished(_, _) => 4,
            MakingFault::TooLong(_) => 5,
            MakingFault::Read(_) => 6,
            MakingFault::Limit => 7,
            MakingFault::Write => 8,
            MakingFault::Memory => 9,
        }
    }

    /// The fault's name.
    pub fn name(self) -> &'static str
        ensures { result.now ≡ name_of self }
    {
        match self {
            MakingFault::Page(_, _) => "Page",
            MakingFault::Chain(_, _) => "Chain",
            MakingFault::PacketTooLong(_) => "PacketTooLong",
            MakingFault::Unfinished(_, _) => "Unfinished",
            MakingFault::TooLong(_) => "TooLong",
            MakingFault::Read(_) => "Read",
            MakingFault::Limit => "Limit",
            MakingFault::Write => "Write",
            MakingFault::Memory => "Memory",
        }
    }
}

impl From<AllocError> for MakingFault {
    ghost from_gives = { IsMemory };

    fn from(_refused: AllocError) -> MakingFault {
        MakingFault::Memory
    }
}
