//! What can go wrong with a page, with a writer, and with a source of pages.
ghost use Rattle.std.specs.Prelude.{◌≡◌};
ghost use Rattle.ogg_page.specs.PageFault.{code_of, name_of};
ghost use Rattle.ogg_page.specs.WindowFault.{code_of as window_code_of, name_of as window_name_of};

use thiserror::Error;

/// What is wrong with a page: the first fault in the order in which they are looked for.
#[derive(Clone, Copy, Debug, PartialEq, Eq, Error)]
pub enum PageFault {
    /// The bytes end before the page does.
    #[error("the page is cut short")]
    Short,
    /// The first four bytes aren't the capture pattern `OggS`.
    #[error("no page begins here")]
    Pattern,
    /// The version of the page's structure isn't 0.
    #[error("the page has an unknown version")]
    Version,
    /// The checksum isn't that of the page's bytes.
    #[error("the page's checksum is wrong")]
    Checksum,
}

impl PageFault {
    /// The fault's number.
    pub fn code(self) -> u8
        ensures { result ≡ code_of self }
    {
        match self {
            PageFault::Short => 1,
            PageFault::Pattern => 2,
            PageFault::Version => 3,
            PageFault::Checksum => 4,
        }
    }

    /// The fault's name.
    pub fn name(self) -> &'static str
        ensures { result.now ≡ name_of self }
    {
        match self {
            PageFault::Short => "Short",
            PageFault::Pattern => "Pattern",
            PageFault::Version => "Version",
            PageFault::Checksum => "Checksum",
        }
    }
}

/// A writer failed, or took no byte of some. A prefix of the text was written.
#[derive(Clone, Copy, Debug, PartialEq, Eq, Error)]
#[error("writing failed")]
pub struct WriteFault;

/// A source couldn't be read.
#[derive(Clone, Copy, Debug, PartialEq, Eq, Error)]
#[error("the source can't be read")]
pub struct SourceFault;

/// Why a window lends no further page.
#[derive(Clone, Copy, Debug, PartialEq, Eq, Error)]
pub enum WindowFault {
    /// The source couldn't be read.
    #[error("the source can't be read")]
    Source,
    /// No page begins at this offset of the source, for this reason.
    #[error("no page begins at byte {0}: {1}")]
    Page(u64, PageFault),
}

impl WindowFault {
    /// The fault's number.
    pub fn code(self) -> u8
        ensures { result ≡ window_code_of self }
    {
        match self {
            WindowFault::Source => 1,
            WindowFault::Page(_, _) => 2,
        }
    }

    /// The fault's name.
    pub fn name(self) -> &'static str
        ensures { result.now ≡ window_name_of self }
    {
        match self {
            WindowFault::Source => "Source",
            WindowFault::Page(_, _) => "Page",
        }
    }
}
