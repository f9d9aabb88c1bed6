//! Why no further page is lent.
ghost use Rattle.std.specs.Prelude.{◌≡◌};
ghost use Rattle.import_pages.specs.PageReaderFault.{code_of, name_of};

use ogg_page::PageFault;
use thiserror::Error;

/// Why a page reader lends no further page.
#[derive(Clone, Copy, Debug, PartialEq, Eq, Error)]
pub enum PageReaderFault {
    /// No page begins at the end of the pages lent so far, for this reason.
    #[error("{0}")]
    Page(PageFault),
    /// The reader failed.
    #[error("reading failed")]
    Read,
}

impl PageReaderFault {
    /// The fault's number.
    pub fn code(self) -> u8
        ensures { result ≡ code_of self }
    {
        match self {
            PageReaderFault::Page(_) => 1,
            PageReaderFault::Read => 2,
        }
    }

    /// The fault's name.
    pub fn name(self) -> &'static str
        ensures { result.now ≡ name_of self }
    {
        match self {
            PageReaderFault::Page(_) => "Page",
            PageReaderFault::Read => "Read",
        }
    }
}
