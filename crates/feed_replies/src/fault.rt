//! What can go wrong with a feed, and with a run over one.
ghost use Rattle.std.specs.Prelude.{◌≡◌};
ghost use Rattle.feed_replies.specs.FeedFault.{code_of as feed_code_of, name_of as feed_name_of, IsMemory};
ghost use Rattle.feed_replies.specs.RunFault.{code_of as run_code_of, name_of as run_name_of};

use std::alloc::AllocError;
use thiserror::Error;

/// Why a feed returns no further command. The checks come in this order: `Truncated`, `Kind` and `Length` in a
/// record's head, room for the payload, `Truncated` in the payload, `Form`, and room for the command. `Read` comes
/// when the reader fails.
#[derive(Clone, Copy, Debug, PartialEq, Eq, Error)]
pub enum FeedFault {
    /// The input ends inside a record.
    #[error("the feed ends inside a record")]
    Truncated,
    /// A record is of no known kind.
    #[error("a record is of an unknown kind")]
    Kind,
    /// A payload is longer than a payload may be.
    #[error("a payload is too long")]
    Length,
    /// A payload isn't exactly the spelling of a command of its kind.
    #[error("a payload is malformed")]
    Form,
    /// The reader failed.
    #[error("reading failed")]
    Read,
    /// Memory was refused.
    #[error("out of memory")]
    Memory,
}

impl FeedFault {
    /// The fault's number.
    pub fn code(self) -> u8
        ensures { result ≡ feed_code_of self }
    {
        match self {
            FeedFault::Truncated => 1,
            FeedFault::Kind => 2,
            FeedFault::Length => 3,
            FeedFault::Form => 4,
            FeedFault::Read => 5,
            FeedFault::Memory => 6,
        }
    }

    /// The fault's name.
    pub fn name(self) -> &'static str
        ensures { result.now ≡ feed_name_of self }
    {
        match self {
            FeedFault::Truncated => "Truncated",
            FeedFault::Kind => "Kind",
            FeedFault::Length => "Length",
            FeedFault::Form => "Form",
            FeedFault::Read => "Read",
            FeedFault::Memory => "Memory",
        }
    }
}

impl From<AllocError> for FeedFault {
    ghost from_gives = { IsMemory };

    fn from(_refused: AllocError) -> FeedFault {
        FeedFault::Memory
    }
}

/// What ends a run over a feed before the feed's end.
#[derive(Clone, Copy, Debug, PartialEq, Eq, Error)]
pub enum RunFault {
    /// The feed has a fault.
    #[error("{0}")]
    Feed(FeedFault),
    /// A writer failed.
    #[error("writing failed")]
    Write,
    /// There are more records than a run takes.
    #[error("the feed has too many records")]
    TooMany,
}

impl RunFault {
    /// The fault's number.
    pub fn code(self) -> u8
        ensures { result ≡ run_code_of self }
    {
        match self {
            RunFault::Feed(_) => 1,
            RunFault::Write => 2,
            RunFault::TooMany => 3,
        }
    }

    /// The fault's name.
    pub fn name(self) -> &'static str
        ensures { result.now ≡ run_name_of self }
    {
        match self {
            RunFault::Feed(_) => "Feed",
            RunFault::Write => "Write",
            RunFault::TooMany => "TooMany",
        }
    }
}
