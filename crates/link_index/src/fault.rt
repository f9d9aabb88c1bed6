//! Why bytes have no index.
ghost use Rattle.std.specs.Prelude.{◌≡◌};
ghost use Rattle.link_index.specs.IndexFault.{code_of, name_of};

use link_chain::ChainFault;
use ogg_page::PageFault;
use thiserror::Error;

/// Why no further page was added to an index. An offset is that of the page's first byte in the file.
#[derive(Clone, Copy, Debug, PartialEq, Eq, Error)]
pub enum IndexFault {
    /// No page stands at this offset.
    #[error("no page stands at byte {0}: {1}")]
    Page(u64, PageFault),
    /// The page at this offset may not follow the pages before it.
    #[error("the page at byte {0} may not follow: {1}")]
    Chain(u64, ChainFault),
    /// Memory was refused.
    #[error("memory was refused")]
    Memory,
}

impl IndexFault {
    /// The fault's number.
    pub fn code(self) -> u8
        ensures { result ≡ code_of self }
    {
        match self {
            IndexFault::Page(..) => 1,
            IndexFault::Chain(..) => 2,
            IndexFault::Memory => 3,
        }
    }

    /// The fault's name.
    pub fn name(self) -> &'static str
        ensures { result.now ≡ name_of self }
    {
        match self {
            IndexFault::Page(..) => "Page",
            IndexFault::Chain(..) => "Chain",
            IndexFault::Memory => "Memory",
        }
    }
}
