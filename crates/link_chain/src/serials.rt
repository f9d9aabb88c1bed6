//! The serials of all streams so far.
ghost use Rattle.std.specs.Prelude.{◌≡◌, ◌≤◌, ◌<◌, ◌+◌, ◌++◌, [], ◌∷◌, OnOk, OnErr, nat_eq};
ghost use Rattle.std.specs.List.{list_any};

use crate::Memory;
use serial_set::SerialSet;
use std::alloc::Global;
use std::marker::Model;

/// The serials of all streams so far. One is found without a walk through the others.
#[derive(Debug, Drop)]
pub struct Serials {
    // in the order of their first pages
    listed: Vec<u32>,
    // the same without repetitions, to be looked up
    known: SerialSet,
}

impl Model for Serials {
    ghost use Rattle.std.specs.Prelude.{◌≡◌, ℕ, ◌-◌, min, nat_eq, vec_len, vec_capacity};
    ghost use Rattle.std.specs.List.{list_any};
    ghost use Rattle.link_chain.specs.Serials.{SerialState};

    ghost Value = { SerialState };

    ghost view = { λ s. record {
      listed = s.listed.items;
      room = min (vec_capacity s.listed - vec_len s.listed) s.known.room;
    } };

    ghost invariant = { λ s. (serial : ℕ) → list_any (nat_eq serial) s.known.listed ≡ list_any (nat_eq serial) s.listed.items };
}

impl Serials {
    /// No serials.
    pub fn new(alloc: Global) -> Self
        ensures { result.listed ≡ [] }
    {
        Serials {
            listed: Vec::new(alloc),
            known: SerialSet::new(alloc),
        }
    }

    /// Whether a stream has this serial.
    pub fn contains(&self, serial: u32) -> bool
        ensures { result ≡ list_any (nat_eq serial) self.now.listed }
    {
        self.known.contains(serial)
    }

    /// The serials, in the order of their streams' first pages.
    pub fn as_slice(&self) -> &[u32]
        ensures { result.now ≡ self.now.listed }
    {
        &self.listed
    }

    /// Makes room for this number of further serials.
    pub fn reserve(&mut self, additional: usize) -> Result<(), Memory>
        ensures same { self.new.listed ≡ self.old.listed }
        ensures ok { OnOk result (additional ≤ self.new.room) }
        ensures full { OnErr result (self.old.room < additional) }
    {
        self.listed.reserve(additional)?;
        self.known.reserve(additional)?;
        Ok(())
    }

    /// Adds a serial. It takes no memory: `reserve` has made the room.
    pub fn push_reserved(&mut self, serial: u32)
        requires { 0 < self.old.room }
        ensures listed { self.new.listed ≡ self.old.listed ++ serial ∷ [] }
        ensures room { self.old.room ≤ self.new.room + 1 }
    {
        if !self.known.contains(serial) {
            self.known.push_reserved(serial);
        }
        self.listed.push_reserved(serial);
    }
}
