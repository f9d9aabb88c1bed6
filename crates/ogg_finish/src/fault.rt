//! Why no link, or not all of it, was written finished.
ghost use Rattle.std.specs.Prelude.{◌≡◌};
ghost use Rattle.ogg_finish.specs.FinishFault.{code_of, name_of};

use thiserror::Error;

/// Why a link wasn't written finished as a whole. The numbers and names are those of a copy's faults
/// ([`SplitFault`](ogg_split::SplitFault)); there is no 2, since no stream is asked for.
#[derive(Clone, Copy, Debug, PartialEq, Eq, Error)]
pub enum FinishFault {
    /// The index has no link with this number.
    #[error("there is no such link")]
    NoLink,
    /// A read failed, or returned no good page at a place where the index has one.
    #[error("the pages can't be read")]
    Source,
    /// The writer failed, or took no byte of some.
    #[error("writing failed")]
    Write,
}

impl FinishFault {
    /// The fault's number.
    pub fn code(self) -> u8
        ensures { result ≡ code_of self }
    {
        match self {
            FinishFault::NoLink => 1,
            FinishFault::Source => 3,
            FinishFault::Write => 4,
        }
    }

    /// The fault's name.
    pub fn name(self) -> &'static str
        ensures { result.now ≡ name_of self }
    {
        match self {
            FinishFault::NoLink => "NoLink",
            FinishFault::Source => "Source",
            FinishFault::Write => "Write",
        }
    }
}
