//! Why a file isn't opened.
ghost use Rattle.std.specs.Prelude.{◌≡◌};
ghost use Rattle.gate_file.specs.OpenFault.{IsOfFinding, code_of, name_of};

use link_chain::ChainFault;
use ogg_page::PageFault;
use thiserror::Error;

/// Why the end of a file's committed bytes isn't found. An offset is that of a page's first byte.
#[derive(Clone, Copy, Debug, PartialEq, Eq, Error)]
pub enum FindFault {
    /// A call of the disk failed.
    #[error("the disk failed")]
    Disk,
    /// Pages end at this offset, and what follows is neither a page nor what may follow the committed bytes.
    #[error("neither a page nor the end stands at byte {0}: {1}")]
    Page(u64, PageFault),
}

/// Why a file isn't opened. An offset is that of a page's first byte. `GateFile::find` returns only the first three;
/// the others are for callers that check the pages that it passes.
#[derive(Clone, Copy, Debug, PartialEq, Eq, Error)]
pub enum OpenFault {
    /// A call of the disk failed.
    #[error("the disk failed")]
    Disk,
    /// Pages end at this offset, and what follows is neither a page nor what may follow the committed bytes.
    #[error("neither a page nor the end stands at byte {0}: {1}")]
    Page(u64, PageFault),
    /// Memory was refused.
    #[error("memory was refused")]
    Memory,
    /// The page at this offset may not follow the pages before it.
    #[error("the page at byte {0} may not follow: {1}")]
    Chain(u64, ChainFault),
    /// The last packet of the stream with this serial is unfinished.
    #[error("the last packet of stream {0} is unfinished")]
    Unfinished(u32),
}

impl From<FindFault> for OpenFault {
    ghost from_gives = { IsOfFinding };

    fn from(fault: FindFault) -> OpenFault {
        match fault {
            FindFault::Disk => OpenFault::Disk,
            FindFault::Page(offset, fault) => OpenFault::Page(offset, fault),
        }
    }
}

impl OpenFault {
    /// The fault's number.
    pub fn code(self) -> u8
        ensures { result ≡ code_of self }
    {
        match self {
            OpenFault::Disk => 1,
            OpenFault::Page(..) => 2,
            OpenFault::Memory => 3,
            OpenFault::Chain(..) => 4,
            OpenFault::Unfinished(_) => 5,
        }
    }

    /// The fault's name.
    pub fn name(self) -> &'static str
        ensures { result.now ≡ name_of self }
    {
        match self {
            OpenFault::Disk => "Disk",
            OpenFault::Page(..) => "Page",
            OpenFault::Memory => "Memory",
            OpenFault::Chain(..) => "Chain",
            OpenFault::Unfinished(_) => "Unfinished",
        }
    }
}
