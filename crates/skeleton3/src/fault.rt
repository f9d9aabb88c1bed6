//! What can be wrong with a packet of a Skeleton.
ghost use Rattle.std.specs.Prelude.{◌≡◌};
ghost use Rattle.skeleton3.specs.SkeletonFault.{code_of, name_of};

use thiserror::Error;

/// What is wrong with a packet: the first fault in the order of the variants.
#[derive(Clone, Copy, Debug, PartialEq, Eq, Error)]
pub enum SkeletonFault {
    /// A fishead doesn't have 64 bytes, or a fisbone has less than 52.
    #[error("the packet has the wrong length")]
    Length,
    /// The packet doesn't begin with the name of its kind and a zero byte.
    #[error("the packet begins with another name")]
    Name,
    /// A fishead's major version isn't 3.
    #[error("the Skeleton has an unknown version")]
    Version,
    /// A fisbone has a message field without a colon, or none that is named `Content-Type`.
    #[error("the message fields are malformed, or name no media type")]
    Fields,
}

impl SkeletonFault {
    /// The fault's number.
    pub fn code(self) -> u8
        ensures { result ≡ code_of self }
    {
        match self {
            SkeletonFault::Length => 1,
            SkeletonFault::Name => 2,
            SkeletonFault::Version => 3,
            SkeletonFault::Fields => 4,
        }
    }

    /// The fault's name.
    pub fn name(self) -> &'static str
        ensures { result.now ≡ name_of self }
    {
        match self {
            SkeletonFault::Length => "Length",
            SkeletonFault::Name => "Name",
            SkeletonFault::Version => "Version",
            SkeletonFault::Fields => "Fields",
        }
    }
}
