//! What connections are, and how many there are of each kind.
ghost use Rattle.std.specs.Prelude.{◌≡◌, None, Some, false};
ghost use Rattle.slab.specs.Slab.{get};
ghost use Rattle.serve_clients.specs.Client.{ClientState};
ghost use Rattle.serve_clients.specs.Kinds.{both, count_of, is_of, kind_of, kinds_in, nobody, same, sum};

use crate::client::Stage;
use crate::clients::Clients;

/// What a connection is.
#[derive(Clone, Copy, Debug, PartialEq, Eq)]
pub enum Kind {
    Listener,
    /// The file server answers it.
    Session,
    Source,
    /// It isn't known yet, or not any more.
    Other,
}

/// How many connections there are of each kind.
#[derive(Clone, Copy, Debug, PartialEq, Eq)]
pub struct Kinds {
    pub listeners: u64,
    pub sessions: u64,
    pub sources: u64,
    pub others: u64,
}

/// What a connection is, by how far it has come.
pub fn kind_of(stage: Stage) -> Kind
    ensures { result ≡ kind_of stage }
{
    match stage {
        Stage::Hearing => Kind::Listener,
        Stage::Reading | Stage::Sending => Kind::Session,
        Stage::Offering | Stage::Waiting | Stage::Feeding => Kind::Source,
        Stage::Asking | Stage::Ending | Stage::Closing | Stage::Cut => Kind::Other,
    }
}

fn same(one: Kind, other: Kind) -> bool
    ensures { result ≡ same one other }
{
    match (one, other) {
        (Kind::Listener, Kind::Listener) => true,
        (Kind::Session, Kind::Session) => true,
        (Kind::Source, Kind::Source) => true,
        (Kind::Other, Kind::Other) => true,
        _ => false,
    }
}

/// A sum that stops at the greatest number.
fn sum(one: u64, other: u64) -> u64
    ensures { result ≡ sum one other }
{
    one.saturating_add(other)
}

impl Kinds {
    /// No connection.
    pub fn none() -> Kinds
        ensures { result ≡ nobody }
    {
        Kinds {
            listeners: 0,
            sessions: 0,
            sources: 0,
            others: 0,
        }
    }

    /// These and others.
    pub fn and(self, other: Kinds) -> Kinds
        ensures { result ≡ both self other }
    {
        Kinds {
            listeners: sum(self.listeners, other.listeners),
            sessions: sum(self.sessions, other.sessions),
            sources: sum(self.sources, other.sources),
            others: sum(self.others, other.others),
        }
    }
}

impl Clients {
    /// Whether there is a connection under this key, and of this kind.
    fn is_of(&self, key: usize, kind: Kind) -> bool
        ensures some { (client : ClientState) → get self.now.slots key ≡ Some client → result ≡ same kind (kind_of client.stage) }
        ensures none { get self.now.slots key ≡ None → result ≡ false }
    {
        match self.slots.get(key) {
            Some(client) => same(kind, kind_of(client.stage)),
            None => false,
        }
    }

    /// How many connections are of this kind.
    pub fn count(&self, kind: Kind) -> u64
        ensures { result ≡ count_of kind self.now.slots }
    {
        let mut count: u64 = 0;
        for key in 0..self.slots.capacity() {
            if self.is_of(key, kind) {
                count = sum(count, 1);
            }
        }
        count
    }

    /// How many connections there are of each kind.
    pub fn kinds(&self) -> Kinds
        ensures { result ≡ kinds_in self.now.slots }
    {
        Kinds {
            listeners: self.count(Kind::Listener),
            sessions: self.count(Kind::Session),
            sources: self.count(Kind::Source),
            others: self.count(Kind::Other),
        }
    }
}
