//! The beginning of a line whose end hasn't come.
ghost use Rattle.std.specs.Prelude.{◌≡◌, ◌+◌, ◌^◌, ◌<◌, ◌↔◌, [], Some, OnOk, IsTrue, IfSome, IfNone, None, length};
ghost use Rattle.line_packets.specs.Lines.{joined};

use crate::Memory;
use crate::placing::LONGEST_LINE;
use std::alloc::Global;
use std::marker::Model;

/// The beginning of a line whose end hasn't come. Of a line that is too long no byte is kept.
#[derive(Drop)]
pub struct Front {
    bytes: Vec<u8>,
    is_long: bool,
}

impl Model for Front {
    ghost use Rattle.std.specs.Prelude.{Option, Some, None, List, ℕ, if◌then◌else◌};

    ghost Value = { Option (List ℕ) };

    ghost view = { λ f. if f.is_long then None else Some f.bytes.items };
}

impl Front {
    /// Nothing has come of a line. It takes no memory.
    pub(crate) fn new(alloc: Global) -> Front
        ensures { result ≡ Some [] }
    {
        Front {
            bytes: Vec::new(alloc),
            is_long: false,
        }
    }

    /// What has come of the line, unless it is too long.
    pub(crate) fn bytes(&self) -> Option<&[u8]>
        ensures some { IfSome result (λ bytes. self.now ≡ Some bytes.now) }
        ensures none { IfNone result (self.now ≡ None) }
    {
        if self.is_long {
            return None;
        }
        Some(self.bytes.as_slice())
    }

    /// Whether nothing has come of the line.
    pub(crate) fn is_empty(&self) -> bool
        ensures { IsTrue result ↔ (self.now ≡ Some []) }
    {
        !self.is_long && self.bytes.is_empty()
    }

    /// More of the line has come. After `Memory` nothing has changed.
    pub(crate) fn join(&mut self, piece: &[u8]) -> Result<(), Memory>
        requires { length piece.now < 2 ^ 62 }
        ensures ok { OnOk result (self.new ≡ joined self.old piece.now) }
    {
        if self.is_long {
            return Ok(());
        }
        if piece.len() > LONGEST_LINE || self.bytes.len() > LONGEST_LINE - piece.len() {
            self.is_long = true;
            self.bytes.clear();
            return Ok(());
        }
        self.bytes.extend_from_slice(piece)
    }

    /// The line has ended: the next one begins.
    pub(crate) fn end(&mut self)
        ensures { self.new ≡ Some [] }
    {
        self.is_long = false;
        self.bytes.clear();
    }
}
