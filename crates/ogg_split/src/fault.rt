//! Why nothing, or not all, was copied.
ghost use Rattle.std.specs.Prelude.{◌≡◌};
ghost use Rattle.ogg_split.specs.SplitFault.{code_of, name_of};

use thiserror::Error;

/// Why a link or a stream wasn't copied as a whole.
#[derive(Clone, Copy, Debug, PartialEq, Eq, Error)]
pub enum SplitFault {
    /// The index has no link with this number.
    #[error("there is no such link")]
    NoLink,
    /// The link has no stream with this serial.
    #[error("the link has no such stream")]
    NoStream,
    /// A read failed, or returned no good page at a place where the index has one.
    #[error("the pages can't be read")]
    Source,
    /// The writer failed, or took no byte of some.
    #[error("writing failed")]
    Write,
}

impl SplitFault {
    /// The fault's number.
    pub fn code(self) -> u8
        ensures { result ≡ code_of self }
    {
        match self {
            SplitFault::NoLink => 1,
            SplitFault::NoStream => 2,
            SplitFault::Source => 3,
            SplitFault::Write => 4,
        }
    }

    /// The fault's name.
    pub fn name(self) -> &'static str
        ensures { result.now ≡ name_of self }
    {
        match self {
            SplitFault::NoLink => "NoLink",
            SplitFault::NoStream => "NoStream",
            SplitFault::Source => "Source",
            SplitFault::Write => "Write",
        }
    }
}
