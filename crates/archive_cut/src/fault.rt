//! Why a cut can't be made.
ghost use Rattle.std.specs.Prelude.{◌≡◌};
ghost use Rattle.archive_cut.specs.CutFault.{code_of, name_of};

use thiserror::Error;

/// Why a cut can't be made.
#[derive(Clone, Copy, Debug, PartialEq, Eq, Error)]
pub enum CutFault {
    /// The source can't be read.
    #[error("the source can't be read")]
    Source,
    /// Memory was refused.
    #[error("memory was refused")]
    Memory,
    /// A stream has no number left for the page that ends it.
    #[error("a stream has no number left")]
    NoNumber,
}

impl CutFault {
    /// The fault's number.
    pub fn code(self) -> u8
        ensures { result ≡ code_of self }
    {
        match self {
            CutFault::Source => 1,
            CutFault::Memory => 2,
            CutFault::NoNumber => 3,
        }
    }

    /// The fault's name.
    pub fn name(self) -> &'static str
        ensures { result.now ≡ name_of self }
    {
        match self {
            CutFault::Source => "Source",
            CutFault::Memory => "Memory",
            CutFault::NoNumber => "NoNumber",
        }
    }
}
