//! The password that a source has to give.
ghost use Rattle.std.specs.Prelude.{◌≡◌, ◌↔◌, [], IfOk, Err};
ghost use Rattle.serve_sources.specs.Password.{IsMemory, first_line, line_before, password_bytes, without_return};

use crate::places::place_of;
use std::alloc::{AllocError, Global};
use thiserror::Error;

/// Why a password file gives no password.
#[derive(Clone, Copy, Debug, PartialEq, Eq, Error)]
pub enum PasswordFault {
    /// Its first line is empty.
    #[error("the password is empty")]
    Empty,
    /// Memory was refused.
    #[error("memory was refused")]
    Memory,
}

impl From<AllocError> for PasswordFault {
    ghost from_gives = { IsMemory };

    fn from(_refused: AllocError) -> PasswordFault {
        PasswordFault::Memory
    }
}

/// The password that sources have to give: any bytes but a line feed, and at least one.
#[derive(Drop)]
pub struct Password {
    bytes: Vec<u8>,
}

fn without_return(text: &[u8]) -> &[u8]
    ensures { result.now ≡ without_return text.now }
{
    if text.ends_with(b"\r") {
        &text[..text.len() - 1]
    } else {
        text
    }
}

fn first_line(file: &[u8]) -> &[u8]
    ensures { result.now ≡ first_line file.now }
{
    match place_of(b'\n', file) {
        Some(end) => without_return(&file[..end]),
        None => without_return(file),
    }
}

impl Password {
    /// The password in a password file: its first line, without the line end. What follows isn't looked at.
    pub fn new(alloc: Global, file: &[u8]) -> Result<Password, PasswordFault>
        ensures ok { IfOk result (λ password. password_bytes password ≡ first_line file.now) }
        ensures empty { (result ≡ Err PasswordFault.Empty) ↔ (first_line file.now ≡ []) }
    {
        let line = first_line(file);
        if line.is_empty() {
            return Err(PasswordFault::Empty);
        }
        let mut bytes = Vec::new(alloc);
        bytes.extend_from_slice(line)?;
        Ok(Password { bytes })
    }

    /// The bytes of the password.
    pub(crate) fn as_slice(&self) -> &[u8]
        ensures { result.now ≡ password_bytes self.now }
    {
        self.bytes.as_slice()
    }
}
