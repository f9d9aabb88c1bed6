//! The tail: the bytes that are kept, and where they stand in the contents.
ghost use Rattle.std.specs.Prelude.{◌≡◌, ◌↔◌, ◌+◌, ◌-◌, ◌^◌, ◌<◌, ◌≤◌, [], length, take, drop, IfOk, IsTrue, vec_capacity};
ghost use Rattle.disk_tail.specs.Tail.{Tail, tail_at, IsKept, Holds, forgotten, tail_written, tail_cut};

use crate::keeping::{append, overwrite};
use disk_model::Memory;
use std::alloc::Global;
use std::marker::Model;

/// Bytes of a disk's contents that follow each other there.
#[derive(Drop)]
pub(crate) struct Kept {
    start: u64,
    bytes: Vec<u8>,
    room: usize,
}

impl Model for Kept {
    ghost use Rattle.std.specs.Prelude.{◌≤◌, vec_capacity};
    ghost use Rattle.disk_tail.specs.Tail.{Tail, tail_at, IsKept};

    ghost Value = { Tail };

    ghost view = { λ k. tail_at k.start k.bytes.items k.room };

    ghost invariant = { λ k. IsKept (tail_at k.start k.bytes.items k.room) × (k.room ≤ vec_capacity k.bytes) };
}

impl Kept {
    /// Nothing is kept. The memory is taken at once.
    pub(crate) fn new(alloc: Global, room: usize) -> Result<Kept, Memory>
        ensures { IfOk result (λ kept. kept ≡ tail_at 0 [] room) }
    {
        Ok(Kept {
            start: 0,
            bytes: Vec::with_capacity(alloc, room)?,
            room,
        })
    }

    /// Fills the buffer if all of what stands at `at` is kept. If not it returns false, and the buffer is as it was.
    pub(crate) fn read(&self, at: u64, buffer: &mut [u8]) -> bool
        ensures held { IsTrue result ↔ Holds at (length buffer.old) self.now }
        ensures read { IsTrue result
            → buffer.new ≡ take (length buffer.old) (drop (at - self.now.start) self.now.bytes) }
    {
        let kept = self.bytes.len() as u64;
        if at < self.start || at - self.start > kept {
            return false;
        }
        let offset = at - self.start;
        if buffer.len() as u64 > kept - offset {
            return false;
        }
        let offset = offset as usize;
        buffer.copy_from_slice(&self.bytes[offset..offset + buffer.len()]);
        true
    }

    /// These bytes were written.
    #[tactic(auto, unfolding(crate::specs::Tail::tail_written))]
    pub(crate) fn write(&mut self, at: u64, bytes: &[u8])
        requires { at + length bytes.now < 2 ^ 63 }
        ensures { self.new ≡ tail_written at bytes.now self.old }
    {
        if at + bytes.len() as u64 <= self.start {
            return;
        }
        if self.start <= at && at <= self.start + self.bytes.len() as u64 {
            let offset = (at - self.start) as usize;
            self.start += overwrite(&mut self.bytes, self.room, offset, bytes) as u64;
        } else {
            self.bytes.clear();
            self.start = at + append(&mut self.bytes, self.room, bytes) as u64;
        }
    }

    /// The contents were cut to this length.
    #[tactic(auto, unfolding(crate::specs::Tail::tail_cut))]
    pub(crate) fn cut(&mut self, to: u64)
        ensures { self.new ≡ tail_cut to self.old }
    {
        if self.start <= to {
            let length = (to - self.start).min(self.bytes.len() as u64);
            self.bytes.truncate(length as usize);
        } else {
            self.forget();
        }
    }

    /// Nothing is known of the contents any more.
    pub(crate) fn forget(&mut self)
        ensures { self.new ≡ forgotten self.old }
    {
        self.start = 0;
        self.bytes.clear();
    }
}
