//! Why a call of a session isn't carried out.
ghost use Rattle.std.specs.Prelude.{◌≡◌};
ghost use Rattle.serve_machine.specs.HubFault.{code_of, name_of};

use thiserror::Error;

/// Why a call of a session isn't carried out. `NoSession` comes before the others.
#[derive(Clone, Copy, Debug, PartialEq, Eq, Error)]
pub enum HubFault {
    /// There is no session with this number.
    #[error("there is no such session")]
    NoSession,
    /// There are as many sessions as may be, or all numbers of 64 bits are given.
    #[error("there are too many sessions")]
    SessionsFull,
    /// A read of the file failed, or found no good page. The session has ended.
    #[error("the file can't be read")]
    Source,
    /// Memory was refused. The session is as it was before the call.
    #[error("memory was refused")]
    Memory,
    /// The file was given back, and its opening failed.
    #[error("there is no file")]
    NoFile,
}

impl HubFault {
    /// The fault's number.
    pub fn code(self) -> u8
        ensures { result ≡ code_of self }
    {
        match self {
            HubFault::NoSession => 1,
            HubFault::SessionsFull => 2,
            HubFault::Source => 3,
            HubFault::Memory => 4,
            HubFault::NoFile => 5,
        }
    }

    /// The fault's name.
    pub fn name(self) -> &'static str
        ensures { result.now ≡ name_of self }
    {
        match self {
            HubFault::NoSession => "NoSession",
            HubFault::SessionsFull => "SessionsFull",
            HubFault::Source => "Source",
            HubFault::Memory => "Memory",
            HubFault::NoFile => "NoFile",
        }
    }
}
