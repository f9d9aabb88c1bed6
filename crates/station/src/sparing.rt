//! Spare places: connections that come when there are as many as may be are asked first what they want.
ghost use Rattle.std.specs.Prelude.{◌≡◌, ◌≢◌, ◌⊎◌, ◌++◌, ◌∷◌, [], ℕ, None, Some, Err, IfOk, IfErr, true};
ghost use Rattle.slab.specs.Slab.{get};
ghost use Rattle.serve_clients.specs.Client.{ClientState, HasLast, fresh};
ghost use Rattle.serve_clients.specs.Clients.{OthersStay};
ghost use Rattle.serve_hub.specs.Parts.{serials_in};
ghost use Rattle.station_sources.specs.Counting.{counted};
ghost use Rattle.station.specs.Beginning.{BeginsBeside, run_in};
ghost use Rattle.serve_sources.specs.Asking.{is_source as asks_as_source};
ghost use Rattle.station.specs.Keeping.{OthersAirStays};
ghost use Rattle.station.specs.Offering.{IsSourced};
ghost use Rattle.station.specs.Spare.{IsAnsweredInSpare, IsAskedInSpare, is_spare};
ghost use Rattle.station.specs.declared.station.Unaccepted.{Unaccepted as UnacceptedOf};
ghost use Rattle.station.specs.Clocks.{KeepsClocks};
ghost use Rattle.serve_sources.specs.declared.answers.TheConstants.{FULL as FULL_TEXT};

use crate::station::{Station, Unaccepted};
use disk_model::Disk;
use serve_clients::{Client, Stage};
use serve_sources::{Asks, FULL, OwnResource};
use station_hub::{ask, notice};
use station_sources::{Feeder, counted};

impl<D: Disk + Drop> Station<D> {
    /// Whether this connection has a spare place.
    pub(crate) fn is_spare(&self, key: usize) -> bool
        ensures { result ≡ is_spare key self.now.spare.items }
    {
        self.spare.iter().any(|other| key == *other)
    }

    /// There may be so many connections from now on. Those that are there stay.
    pub fn allow(&mut self, most: usize)
        ensures { self.new ≡ record self.old { options = record self.old.options { most = most } } }
    {
        self.options.most = most;
    }

    /// A connection was made, and gets a spare place.
    pub(crate) fn take_spare(&mut self, now: u64) -> Result<usize, Unaccepted>
        ensures none { IfOk result (λ key. get self.old.clients.slots key ≡ None) }
        ensures some { IfOk result (λ key. get self.new.clients.slots key ≡ Some (fresh now)) }
        ensures spare { IfOk result (λ key. self.new.spare.items ≡ self.old.spare.items ++ key ∷ []) }
        ensures others { IfOk result (λ key. OthersStay key self.old.clients self.new.clients) }
        ensures full { result ≢ Err Unaccepted.Full }
        ensures err { IfErr result (λ fault. (key : ℕ) → get self.new.clients.slots key ≡ get self.old.clients.slots key) }
        ensures counts { self.new.counts ≡ self.old.counts }
        ensures live { self.new.live ≡ self.old.live }
        ensures air { self.new.air ≡ self.old.air }
        ensures clocks { KeepsClocks self.old self.new }
    {
        match self.spare.reserve(1) {
            Ok(()) => {}
            Err(_) => return Err(Unaccepted::Memory),
        }
        let client = Client::new(self.alloc, now, self.visit());
        match self.clients.slots.insert(client) {
            Ok(key) => {
                self.spare.push_reserved(key);
                Ok(key)
            }
            Err(_) => Err(Unaccepted::Memory),
        }
    }

    /// Bytes of a connection have come that has a spare place and hasn't said yet what it asks for.
    pub(crate) fn ask_in_spare(&mut self, key: usize, bytes: &[u8], now: u64)
        ensures asks { (client : ClientState) → get self.old.clients.slots key ≡ Some client
            → (after : ClientState) × (get self.new.clients.slots key ≡ Some after)
            × IsAskedInSpare self.old.options.password bytes.now client after }
        ensures live { self.new.live ≡ self.old.live }
        ensures air { OthersAirStays (Feeder.Peer key) self.old.air self.new.air }
        ensures sourced { (client : ClientState) → get self.old.clients.slots key ≡ Some client
            → asks_as_source (client.head ++ bytes.now) ≡ true → self.old.options.password ≢ None
            → (after : ClientState) × (get self.new.clients.slots key ≡ Some after) × IsSourced key bytes.now now self.old.options.password
            self.old.options.skeletons (serials_in self.old.live.hub.file) self.old.air self.new.air client after }
        ensures begins { self.old.air ≡ None → BeginsBeside (serials_in self.old.live.hub.file) self.old.options.skeletons (run_in self.new.air) }
        ensures others { OthersStay key self.old.clients self.new.clients }
        ensures clocks { KeepsClocks self.old self.new }
    {
        let Some(client) = self.clients.slots.get_mut(key) else {
            return;
        };
        notice(client, bytes);
        match ask(client, bytes) {
            Asks::More => {}
            Asks::Source if self.options.password.is_some() => {
                client.stage = Stage::Offering;
                self.offer(key, &[], now);
            }
            Asks::Own { resource, head } => self.answer_in_spare(key, resource, head, now),
            Asks::Source => self.decline(key),
            Asks::File => self.decline(key),
        }
    }

    /// The station tells its numbers, and nothing else.
    fn answer_in_spare(&mut self, key: usize, resource: OwnResource, head: bool, now: u64)
        ensures answers { (client : ClientState) → get self.old.clients.slots key ≡ Some client → (after : ClientState)
            × (get self.new.clients.slots key ≡ Some after) × IsAnsweredInSpare resource head client after }
        ensures live { self.new.live ≡ self.old.live }
        ensures air { self.new.air ≡ self.old.air }
        ensures others { OthersStay key self.old.clients self.new.clients }
        ensures clocks { KeepsClocks self.old self.new }
    {
        match resource {
            OwnResource::Status => self.tell_numbers(key, head, now),
            OwnResource::Live => self.decline(key),
            OwnResource::Player => self.decline(key),
        }
    }

    /// A connection is told that there are too many, and counted.
    fn decline(&mut self, key: usize)
        ensures told { (client : ClientState) → get self.old.clients.slots key ≡ Some client → (after : ClientState)
            × (get self.new.clients.slots key ≡ Some after) × HasLast FULL_TEXT.now client after }
        ensures counts { self.new.counts ≡ record self.old.counts { connections_refused = counted self.old.counts.connections_refused 1 } }
        ensures live { self.new.live ≡ self.old.live }
        ensures air { self.new.air ≡ self.old.air }
        ensures others { OthersStay key self.old.clients self.new.clients }
        ensures clocks { KeepsClocks self.old self.new }
    {
        self.counts.connections_refused = counted(self.counts.connections_refused, 1);
        if let Some(client) = self.clients.slots.get_mut(key) {
            client.tell_last(FULL);
        }
    }
}
