//! What is kept of a connection grows, and a growth that is refused is noted.
ghost use Rattle.std.specs.Prelude.{◌≡◌, ◌<◌, ◌≤◌, ◌+◌, ◌++◌, ◌||◌, Bool, true, false, is_err, OnOk, OnErr, length, vec_len, vec_capacity};

use crate::Memory;
use std::marker::Model;

/// Grows what is kept, and notes when a growth was refused. What was noted stays noted.
#[derive(Drop)]
pub(crate) struct Grower {
    refused: bool,
}

impl Model for Grower {
    ghost Value = { Bool };

    ghost view = { λ g. g.refused };
}

impl Grower {
    /// No growth was refused yet.
    pub fn new() -> Grower
        ensures { result ≡ false }
    {
        Grower { refused: false }
    }

    /// Notes that a growth was refused.
    pub fn note(&mut self)
        ensures { self.new ≡ true }
    {
        self.refused = true;
    }

    /// Appends bytes. After `Memory` what is kept is as it was, and has no room for them. Room that there is stays.
    pub fn append(&mut self, kept: &mut Vec<u8>, bytes: &[u8]) -> Result<(), Memory>
        ensures ok { OnOk result (kept.new.items ≡ kept.old.items ++ bytes.now) }
        ensures err { OnErr result (kept.new.items ≡ kept.old.items) }
        ensures full { OnErr result (vec_capacity kept.old < vec_len kept.old + length bytes.now) }
        ensures room { vec_capacity kept.old ≤ vec_capacity kept.new }
        ensures stays { OnErr result (vec_capacity kept.new ≡ vec_capacity kept.old) }
        ensures noted { self.new ≡ (is_err result || self.old) }
    {
        if let Err(refused) = kept.reserve(bytes.len()) {
            self.note();
            return Err(refused);
        }
        kept.extend_from_slice(bytes).unwrap();
        Ok(())
    }
}
