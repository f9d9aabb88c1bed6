//! What a station says of itself: its numbers.
ghost use Rattle.std.specs.Prelude.{◌≡◌, None, Some, is_some, length};
ghost use Rattle.slab.specs.Slab.{get};
ghost use Rattle.serve_clients.specs.Client.{ClientState};
ghost use Rattle.serve_clients.specs.Clients.{OthersStay};
ghost use Rattle.serve_sources.specs.declared.own.OwnResource.TheVariants.{Status as StatusOf};
ghost use Rattle.station_sources.specs.Counting.{counted};
ghost use Rattle.station.specs.Asked.{IsAnswered};
ghost use Rattle.serve_hub.specs.Parts.{links_in};
ghost use Rattle.serve_hub.specs.Showing.{Shows};
ghost use Rattle.serve_machine.specs.Hub.{HubState};
ghost use Rattle.station_hub.specs.Telling.{in_seconds};
ghost use Rattle.serve_clients.specs.Kinds.{both, kinds_in};
ghost use Rattle.station.specs.Telling.{AreKinds, IsCounted, mends_of, on_air_for};
ghost use Rattle.station.specs.Clocks.{KeepsClocks};

use crate::station::Station;
use disk_model::Disk;
use serve_clients::Kinds;
use serve_texts::{Mends, Numbers};
use station_hub::in_seconds;
use station_sources::{MendCounts, counted};

fn mends_of(counts: MendCounts) -> Mends
    ensures { result ≡ mends_of counts }
{
    Mends {
        junk: counts.junk,
        gaps: counts.gap,
        restarts: counts.restart,
        strangers: counts.stranger,
        repeated: counts.repeated,
        unfinished: counts.unfinished,
        too_long: counts.too_long,
        misshapen: counts.misshapen,
        full: counts.full,
    }
}

impl<D: Disk + Drop> Station<D> {
    /// How the station fares.
    fn numbers(&self, now: u64) -> Numbers
        ensures committed { (machine : HubState) → Shows D.Disk self.now.live.hub machine → result.committed_bytes ≡ length machine.committed }
        ensures links { result.links ≡ links_in self.now.live.hub.file }
        ensures counts { IsCounted self.now.counts result }
        ensures on_air { (result.on_air ≡ is_some self.now.air) × (result.on_air_seconds ≡ on_air_for self.now.air self.now.on_air_since now) }
        ensures uptime { result.uptime_seconds ≡ in_seconds now }
        ensures kinds { AreKinds (both (kinds_in self.now.clients.slots) self.now.elsewhere) result }
    {
        let kinds = self.clients.kinds().and(self.elsewhere);
        let on_air = self.air.is_some();
        Numbers {
            committed_bytes: self.live.hub().end(),
            links: self.live.hub().links(),
            packets: self.counts.packets,
            commits: self.counts.commits,
            commit_milliseconds: self.counts.commit_microseconds / 1000,
            reopenings: self.counts.reopenings,
            listeners: kinds.listeners,
            sessions: kinds.sessions,
            sources: kinds.sources,
            others: kinds.others,
            connections_refused: self.counts.connections_refused,
            sources_accepted: self.counts.sources,
            sources_refused: self.counts.sources_refused,
            sent_bytes: self.counts.sent,
            mends: mends_of(self.counts.mends),
            uptime_seconds: in_seconds(now),
            on_air,
            on_air_seconds: if on_air {
                in_seconds(now.saturating_sub(self.on_air_since))
            } else {
                0
            },
        }
    }

    /// The connection is answered with the station's numbers.
    pub(crate) fn tell_numbers(&mut self, key: usize, head: bool, now: u64)
        ensures told { (client : ClientState) → get self.old.clients.slots key ≡ Some client → (after : ClientState)
            × (get self.new.clients.slots key ≡ Some after) × IsAnswered StatusOf head client after }
        ensures none { get self.old.clients.slots key ≡ None → self.new ≡ self.old }
        ensures others { OthersStay key self.old.clients self.new.clients }
        ensures live { self.new.live ≡ self.old.live }
        ensures air { self.new.air ≡ self.old.air }
        ensures clocks { KeepsClocks self.old self.new }
    {
        let numbers = self.numbers(now);
        if let Some(client) = self.clients.slots.get_mut(key) {
            client.tell_status(&numbers, head);
        }
    }

    /// How many connections there are of each kind.
    pub fn kinds(&self) -> Kinds
        ensures { result ≡ kinds_in self.now.clients.slots }
    {
        self.clients.kinds()
    }

    /// So many connections have left for another station, or for a file: they are told among this station's.
    pub fn tell_elsewhere(&mut self, kinds: Kinds)
        ensures { self.new ≡ record self.old { elsewhere = kinds } }
    {
        self.elsewhere = kinds;
    }

    /// So many bytes were written to connections that had left for another station, or for a file.
    pub fn sent_beside(&mut self, count: u64)
        ensures { self.new ≡ record self.old { counts = record self.old.counts { sent = counted self.old.counts.sent count } } }
    {
        self.counts.sent = counted(self.counts.sent, count);
    }

    /// The last step that has committed more took so many microseconds.
    pub fn spent(&mut self, microseconds: u64)
        ensures counts { self.new.counts ≡ record self.old.counts { commit_microseconds = counted self.old.counts.commit_microseconds microseconds } }
        ensures live { self.new.live ≡ self.old.live }
        ensures clients { self.new.clients ≡ self.old.clients }
        ensures air { self.new.air ≡ self.old.air }
        ensures clocks { KeepsClocks self.old self.new }
    {
        let spent = self.counts.commit_microseconds;
        self.counts.commit_microseconds = counted(spent, microseconds);
    }
}
