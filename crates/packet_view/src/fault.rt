//! What can be wrong with the pages of a stream, and with their source.
ghost use Rattle.std.specs.Prelude.{◌≡◌};
ghost use Rattle.packet_view.specs.ViewFault.{code_of, name_of};
ghost use Rattle.packet_view.specs.StreamFault.{code_of as stream_code_of, name_of as stream_name_of};

use ogg_page::PageFault;
use thiserror::Error;

/// Why a stream returns no further packet. For one page `Page` is checked first, and then
/// `AfterEos`, `Sequence` and `Continued`. An offset is that of the page's first byte.
#[derive(Clone, Copy, Debug, PartialEq, Eq, Error)]
pub enum ViewFault {
    /// At this offset there is no page, of whatever stream, for this reason.
    #[error("at byte {0}: {1}")]
    Page(u64, PageFault),
    /// The number of the stream's page isn't one more than that of its page before.
    #[error("at byte {0}: a page of the stream is missing")]
    Sequence(u64),
    /// The stream's page begins with a continued packet although its page before left none
    /// unfinished, or the other way round.
    #[error("at byte {0}: a packet isn't continued where it should be")]
    Continued(u64),
    /// A page of the stream comes after its last page.
    #[error("at byte {0}: the stream has ended")]
    AfterEos(u64),
    /// The bytes end, and the stream's last packet is unfinished.
    #[error("the last packet is unfinished")]
    Unfinished,
}

impl ViewFault {
    /// The fault's number.
    pub fn code(self) -> u8
        ensures { result ≡ code_of self }
    {
        match self {
            ViewFault::Page(..) => 1,
            ViewFault::Sequence(_) => 2,
            ViewFault::Continued(_) => 3,
            ViewFault::AfterEos(_) => 4,
            ViewFault::Unfinished => 5,
        }
    }

    /// The fault's name.
    pub fn name(self) -> &'static str
        ensures { result.now ≡ name_of self }
    {
        match self {
            ViewFault::Page(..) => "Page",
            ViewFault::Sequence(_) => "Sequence",
            ViewFault::Continued(_) => "Continued",
            ViewFault::AfterEos(_) => "AfterEos",
            ViewFault::Unfinished => "Unfinished",
        }
    }
}

/// Why a stream over a window lends no further part.
#[derive(Clone, Copy, Debug, PartialEq, Eq, Error)]
pub enum StreamFault {
    /// The source couldn't be read.
    #[error("the source can't be read")]
    Source,
    /// The stream has no further packet, for this reason. An offset is one in the source.
    #[error("{0}")]
    View(ViewFault),
}

impl StreamFault {
    /// The fault's number.
    pub fn code(self) -> u8
        ensures { result ≡ stream_code_of self }
    {
        match self {
            StreamFault::Source => 1,
            StreamFault::View(_) => 2,
        }
    }

    /// The fault's name.
    pub fn name(self) -> &'static str
        ensures { result.now ≡ stream_name_of self }
    {
        match self {
            StreamFault::Source => "Source",
            StreamFault::View(_) => "View",
        }
    }
}
