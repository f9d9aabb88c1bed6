//! A station, by what happens to it.
ghost use Rattle.std.specs.Prelude.{◌≡◌, ◌≢◌, ◌↔◌, ◌≤◌, ◌<◌, ◌-◌, ◌⊎◌, ℕ, List, [], ◌∷◌, ◌++◌, None, Some, Result, Err, IfOk, IfErr, OnOk, false, is_some, length, min, take, true};
ghost use Rattle.slab.specs.Slab.{get, slab_len};
ghost use Rattle.serve_machine.specs.Calls.{Steps};
ghost use Rattle.serve_machine.specs.Hub.{Receive};
ghost use Rattle.serve_machine.specs.declared.answers.Progress.{Progress as ProgressOf};
ghost use Rattle.serve_machine.specs.declared.fault.HubFault.{HubFault as HubFaultOf};
ghost use Rattle.serve_hub.specs.Images.{IfFile, Reads};
ghost use Rattle.serve_hub.specs.Showing.{Shows};
ghost use Rattle.serve_clients.specs.Client.{ClientState, HasLast, HasWritten, fresh, given, moved_if, with_line, with_stage};
ghost use Rattle.serve_clients.specs.Line.{moved_on};
ghost use Rattle.station_hub.specs.Asking.{stage_after};
ghost use Rattle.serve_clients.specs.declared.client.Stage.TheVariants.{Asking as AskingOf, Feeding as FeedingOf, Offering as OfferingOf, Reading as ReadingOf, Waiting as WaitingOf};
ghost use Rattle.station_sources.specs.Air.{HoldsMore, IsFedBy, IsShort, feeder_in};
ghost use Rattle.station_sources.specs.declared.air.OnAir.{OnAir as OnAirOf};
ghost use Rattle.station_sources.specs.Counting.{counted};
ghost use Rattle.station_hub.specs.Giving.{Gives};
ghost use Rattle.serve_hub.specs.Parts.{serials_in};
ghost use Rattle.station_hub.specs.Live.{BeginsOver, StaysLive};
ghost use Rattle.station_sources.specs.Beginning.{HasBegun};
ghost use Rattle.station.specs.Beginning.{BeginsBeside, options_for, run_in};
ghost use Rattle.station.specs.Keeping.{IsEndedBy, IsFedMore, IsLostBy, OthersAirStays};
ghost use Rattle.serve_hub.specs.Listening.{KeepsMachine};
ghost use Rattle.serve_sources.specs.Answers.{refusal};
ghost use Rattle.serve_sources.specs.declared.refused.Refused.TheVariants.{OnTheAir};
ghost use Rattle.serve_clients.specs.Patience.{is_refused};
ghost use Rattle.station.specs.Asked.{EndsSession, HasCause, IsAnswered, IsAsked, Joins};
ghost use Rattle.station.specs.Spare.{IsAskedIn, is_another, is_spare};
ghost use Rattle.std.specs.List.{filter};
ghost use Rattle.station.specs.Clocks.{KeepsClocks, clocks_of, ended_with_input};
ghost use Rattle.station.specs.Ending.{is_over};
ghost use Rattle.serve_sources.specs.Asking.{is_source as asks_as_source};
ghost use Rattle.station.specs.Offering.{IsOffered, IsSourced};
ghost use Rattle.station.specs.Passing.{GoesOnAsSource, IsLike, OffersOn, expects_nothing, is_source, session_in};
ghost use Rattle.station.specs.Opening.{IsBegun, IsIdle};
ghost use Rattle.station.specs.Turning.{IsTurnedAway, half_closed};
ghost use Rattle.serve_clients.specs.Clients.{OthersStay};

use crate::Memory;
use disk_model::Disk;
use import_changes::Skeletons;
use serve_clients::{Client, Clients, Kinds, Stage, Trouble, is_refused};
use serve_hub::Hub;
use serve_sources::{Asks, FULL, OwnResource, Password, Refused};
use serve_texts::Visit;
use station_hub::{LiveHub, Waking, ask, notice};
use station_sources::{Counts, Feeder, OnAir, counted};
use std::alloc::Global;

/// How many connections too many are told so at once.
const TURNED_AWAY: usize = 64;

/// How many of these are asked first what they want: a source gets the air, and the station's numbers are told.
pub(crate) const SPARE: usize = 4;

/// Why a connection isn't taken.
#[derive(Clone, Copy, Debug, PartialEq, Eq)]
pub enum Unaccepted {
    /// There are as many connections as may be, and as many that are told so; or the station comes to its end.
    Full,
    /// Memory was refused.
    Memory,
}

/// The spare place of this connection is free, if it had one.
pub(crate) fn leave(spare: &mut Vec<usize>, key: usize)
    ensures { spare.new.items ≡ filter (is_another key) spare.old.items }
{
    spare.retain(|other| *other != key);
}

/// How a station is run.
#[derive(Drop)]
pub struct Options {
    /// The greatest number of connections.
    pub most: usize,
    /// What becomes of Skeletons.
    pub skeletons: Skeletons,
    /// What connections have to know that send a stream; none if no connection may.
    pub password: Option<Password>,
    /// The station comes to its end once the input has ended.
    pub ends_with_input: bool,
    /// What connections have sent and got is remembered for a log.
    pub log: bool,
}

/// A file that is recorded and served. Times are milliseconds of a clock of the caller's that never goes back.
#[derive(Drop)]
pub struct Station<D: Disk> {
    pub(crate) alloc: Global,
    pub(crate) live: LiveHub<D>,
    pub(crate) clients: Clients,
    pub(crate) options: Options,
    pub(crate) air: Option<OnAir>,
    // since when a command waits for its commit
    pub(crate) waiting_since: u64,
    // how many bytes were committed when the file was opened again
    pub(crate) reopened: Option<u64>,
    pub(crate) counts: Counts,
    // the connections that have left for another station, or for a file
    pub(crate) elsewhere: Kinds,
    // since when the source has the air
    pub(crate) on_air_since: u64,
    // when everybody was looked at, how many steps had committed more by then, and how many since the time before
    pub(crate) looked: u64,
    pub(crate) commits: u64,
    pub(crate) commits_a_second: u64,
    // since when it comes to its end
    pub(crate) ending: Option<u64>,
    // what those who hear what is recorded were woken for
    pub(crate) waking: Waking,
    // the keys of the connections that have a spare place
    pub(crate) spare: Vec<usize>,
}

impl<D: Disk + Drop> Station<D> {
    /// A station over a hub, which has room for a session for each connection. It makes the room for all connections.
    pub fn new(alloc: Global, hub: Hub<D>, options: Options) -> Result<Station<D>, Memory>
        ensures live { IfOk result (λ station. BeginsOver hub station.live) }
        ensures begun { IfOk result (λ station. IsBegun options station) }
    {
        let clients = Clients::new(alloc, options.most.saturating_add(TURNED_AWAY))?;
        let live = LiveHub::new(alloc, hub)?;
        Ok(Station::begun(alloc, live, clients, options))
    }

    /// Nobody has the air, and nothing was done yet.
    pub(crate) fn begun(
        alloc: Global,
        live: LiveHub<D>,
        clients: Clients,
        options: Options,
    ) -> Station<D>
        ensures live { result.live ≡ live }
        ensures clients { result.clients ≡ clients }
        ensures begun { IsIdle options result }
    {
        Station {
            alloc,
            live,
            clients,
            options,
            air: None,
            waiting_since: 0,
            reopened: None,
            counts: Counts::none(),
            elsewhere: Kinds::none(),
            on_air_since: 0,
            looked: 0,
            commits: 0,
            commits_a_second: 0,
            ending: None,
            waking: Waking::at(0, 0),
            spare: Vec::new(alloc),
        }
    }

    /// The hub.
    pub fn hub(&self) -> &Hub<D> {
        self.live.hub()
    }

    /// Who sends the stream that is recorded, if there is one.
    pub fn feeder(&self) -> Option<Feeder>
        ensures { result ≡ feeder_in self.now.air }
    {
        match &self.air {
            Some(air) => Some(air.feeder()),
            None => None,
        }
    }

    /// What it has done so far.
    pub fn counts(&self) -> Counts {
        self.counts
    }

    /// Returns the hub. The connections are gone, and what waits isn't committed.
    pub fn into_hub(self) -> Hub<D>
        ensures { result ≡ self.live.hub }
    {
        self.live.into_hub()
    }

    /// How many connections there are.
    pub fn connections(&self) -> usize
        ensures { result ≡ slab_len self.now.clients.slots }
    {
        self.clients.slots.len()
    }

    /// A connection was made. It gets the key that is returned. If there are as many as may be it gets a spare place, of
    /// which there are `SPARE`: it may be a source, or ask for the station's numbers. Without one it is told that there
    /// are too many, and gets nothing more. No more than `TURNED_AWAY` beyond those that may be are taken, and none while
    /// the station comes to its end.
    pub fn accepted(&mut self, now: u64) -> Result<usize, Unaccepted>
        ensures full { (result ≡ Err Unaccepted.Full) ↔ ((64 ≤ slab_len self.old.clients.slots - self.old.options.most) ⊎ (self.old.ending ≢ None)) }
        ensures refused { result ≡ Err Unaccepted.Full
            → self.new.counts ≡ record self.old.counts { connections_refused = counted self.old.counts.connections_refused 1 } }
        ensures none { IfOk result (λ key. get self.old.clients.slots key ≡ None) }
        ensures some { slab_len self.old.clients.slots < self.old.options.most → IfOk result (λ key. get self.new.clients.slots key ≡ Some (fresh now)) }
        ensures uncounted { slab_len self.old.clients.slots < self.old.options.most → IfOk result (λ key. self.new.counts ≡ self.old.counts) }
        // It is asked first what it wants then, or is turned away.
        ensures too_many { self.old.options.most ≤ slab_len self.old.clients.slots → IfOk result (λ key.
            (get self.new.clients.slots key ≡ Some (fresh now))
            ⊎ ((client : ClientState) × (get self.new.clients.slots key ≡ Some client) × IsTurnedAway now client)) }
        ensures spare { self.old.options.most ≤ slab_len self.old.clients.slots → length self.old.spare.items < 4
            → IfOk result (λ key. (get self.new.clients.slots key ≡ Some (fresh now)) × (self.new.spare.items ≡ self.old.spare.items ++ key ∷ [])
            × (self.new.counts ≡ self.old.counts)) }
        ensures ordinary { slab_len self.old.clients.slots < self.old.options.most → self.new.spare ≡ self.old.spare }
        ensures turned_away { self.old.options.most ≤ slab_len self.old.clients.slots → 4 ≤ length self.old.spare.items
            → IfOk result (λ key. (client : ClientState)
            × (get self.new.clients.slots key ≡ Some client) × IsTurnedAway now client
            × (self.new.counts ≡ record self.old.counts { connections_refused = counted self.old.counts.connections_refused 1 })) }
        ensures others { IfOk result (λ key. OthersStay key self.old.clients self.new.clients) }
        ensures err { IfErr result (λ fault. (key : ℕ) → get self.new.clients.slots key ≡ get self.old.clients.slots key) }
        ensures live { self.new.live ≡ self.old.live }
        ensures air { self.new.air ≡ self.old.air }
        ensures clocks { KeepsClocks self.old self.new }
    {
        let count = self.clients.slots.len();
        if count.saturating_sub(self.options.most) >= TURNED_AWAY || self.ending.is_some() {
            self.counts.connections_refused = counted(self.counts.connections_refused, 1);
            return Err(Unaccepted::Full);
        }
        if count >= self.options.most && self.spare.len() < SPARE {
            return self.take_spare(now);
        }
        let mut client = Client::new(self.alloc, now, self.visit());
        if count >= self.options.most {
            self.counts.connections_refused = counted(self.counts.connections_refused, 1);
            client.tell_last(FULL);
        }
        match self.clients.slots.insert(client) {
            Ok(key) => Ok(key),
            Err(_) => Err(Unaccepted::Memory),
        }
    }

    /// What is to be remembered of a new connection.
    pub(crate) fn visit(&self) -> Option<Visit> {
        if self.options.log {
            Some(Visit::new(self.alloc))
        } else {
            None
        }
    }

    /// This connection was closed: its session ends, or its stream. It returns what is to be told of it in the log.
    pub fn closed(&mut self, key: usize) -> Option<Visit>
        ensures gone { get self.new.clients.slots key ≡ None }
        ensures others { OthersStay key self.old.clients self.new.clients }
        ensures file { self.new.live.hub.file ≡ self.old.live.hub.file }
        ensures recorded { StaysLive D.Disk self.old.live self.new.live }
        // If it sent the stream that is recorded, no further byte of that comes.
        ensures air { get self.old.clients.slots key ≢ None → IsLostBy (Feeder.Peer key) self.old.air self.new.air }
        ensures none { get self.old.clients.slots key ≡ None → self.new.air ≡ self.old.air }
        ensures session { EndsSession D.Disk (session_in (get self.old.clients.slots key)) self.old.live.hub self.new.live.hub }
        ensures spare { get self.old.clients.slots key ≢ None → self.new.spare.items ≡ filter (is_another key) self.old.spare.items }
        ensures clocks { KeepsClocks self.old self.new }
    {
        let client = self.clients.slots.try_remove(key)?;
        if let Some(id) = client.session {
            self.live.close(id);
        }
        self.lose_feeder(key);
        client.visit
    }

    /// Whether bytes of this source are taken now.
    pub(crate) fn is_hungry(&self, feeder: Feeder) -> bool
        ensures yes { result ≡ true → IsFedBy feeder self.now.air }
        ensures no { result ≡ false → ¬ (IsFedBy feeder self.now.air) }
    {
        match &self.air {
            Some(air) => air.feeder().is(feeder) && air.is_hungry(),
            None => false,
        }
    }

    /// This connection has sent bytes.
    pub fn received(&mut self, key: usize, bytes: &[u8], now: u64)
        ensures reads { (client : ClientState) (id : ℕ) → get self.old.clients.slots key ≡ Some client → client.stage ≡ ReadingOf → client.session ≡ Some id
            → (progress : Result ProgressOf HubFaultOf)
            × Steps (Shows D.Disk) self.old.live.hub self.new.live.hub (λ machine. Receive id bytes.now progress)
            × (get self.new.clients.slots key ≡ Some (with_stage (stage_after progress) (with_line (moved_on client.line) client))) }
        // What its head asks for, with these bytes, and whether its place is a spare one, say what becomes of it.
        ensures asks { (client : ClientState) → get self.old.clients.slots key ≡ Some client → client.stage ≡ AskingOf
            → (after : ClientState) × (get self.new.clients.slots key ≡ Some after)
            × IsAskedIn D.Disk (is_spare key self.old.spare.items) self.old.options.password self.old.live.places bytes.now self.old.live.hub self.new.live.hub client after }
        ensures offers { (client : ClientState) → get self.old.clients.slots key ≡ Some client → is_source client.stage ≡ true → (after : ClientState)
            × (get self.new.clients.slots key ≡ Some after) × GoesOnAsSource client after × (self.new.live.hub ≡ self.old.live.hub) }
        // What the head of a source says becomes of it. One that waits stays as it is.
        ensures offered { (client : ClientState) → get self.old.clients.slots key ≡ Some client → client.stage ≡ OfferingOf
            → (after : ClientState) × (get self.new.clients.slots key ≡ Some after) × IsOffered key bytes.now now self.old.options.password
            self.old.options.skeletons (serials_in self.old.live.hub.file) self.old.air self.new.air (with_line (moved_on client.line) client) after }
        ensures waits { (client : ClientState) → get self.old.clients.slots key ≡ Some client → client.stage ≡ WaitingOf
            → (get self.new.clients.slots key ≡ Some (with_line (moved_on client.line) client)) × (self.new.air ≡ self.old.air) }
        ensures ignores { (client : ClientState) → get self.old.clients.slots key ≡ Some client → expects_nothing client.stage ≡ true
            → (after : ClientState) × (get self.new.clients.slots key ≡ Some after) × IsLike client after × (self.new.live.hub ≡ self.old.live.hub) }
        ensures unread { (client : ClientState) → get self.old.clients.slots key ≡ Some client → client.stage ≡ ReadingOf → client.session ≡ None
            → (after : ClientState) × (get self.new.clients.slots key ≡ Some after) × IsLike client after × (self.new.live.hub ≡ self.old.live.hub) }
        ensures none { get self.old.clients.slots key ≡ None → self.new ≡ self.old }
        // The file is only read, if at all.
        ensures disk { (self.new.live.hub.file ≡ self.old.live.hub.file) ⊎ IfFile (Reads D.Disk) self.old.live.hub.file self.new.live.hub.file }
        ensures recorded { StaysLive D.Disk self.old.live self.new.live }
        // Bytes of the source that has the air are kept, or that there is no room for them is noted. Those of another
        // connection leave it as it is.
        ensures feeds { (client : ClientState) → get self.old.clients.slots key ≡ Some client → client.stage ≡ FeedingOf
            → IsFedMore (Feeder.Peer key) bytes.now self.old.air self.new.air × (self.new.live ≡ self.old.live) }
        ensures heard { (client : ClientState) → get self.old.clients.slots key ≡ Some client → client.stage ≡ FeedingOf
            → get self.new.clients.slots key ≡ Some (record client { since = now; line = moved_on client.line }) }
        ensures air { OthersAirStays (Feeder.Peer key) self.old.air self.new.air }
        // A head that is a source's, with these bytes, says what becomes of it.
        ensures sourced { (client : ClientState) → get self.old.clients.slots key ≡ Some client → client.stage ≡ AskingOf
            → asks_as_source (client.head ++ bytes.now) ≡ true → self.old.options.password ≢ None
            → (after : ClientState) × (get self.new.clients.slots key ≡ Some after) × IsSourced key bytes.now now self.old.options.password
            self.old.options.skeletons (serials_in self.old.live.hub.file) self.old.air self.new.air client after }
        ensures begins { self.old.air ≡ None → BeginsBeside (serials_in self.old.live.hub.file) self.old.options.skeletons (run_in self.new.air) }
        ensures others { OthersStay key self.old.clients self.new.clients }
        ensures clocks { KeepsClocks self.old self.new }
    {
        let Some(client) = self.clients.slots.get(key) else {
            return;
        };
        match client.stage {
            Stage::Asking => self.ask_any(key, bytes, now),
            Stage::Reading => self.read_on(key, bytes),
            _ => self.take_in(key, bytes, now),
        }
    }

    /// Bytes of a connection have come that hasn't said yet what it asks for.
    fn ask_any(&mut self, key: usize, bytes: &[u8], now: u64)
        ensures asks { (client : ClientState) → get self.old.clients.slots key ≡ Some client
            → (after : ClientState) × (get self.new.clients.slots key ≡ Some after)
            × IsAskedIn D.Disk (is_spare key self.old.spare.items) self.old.options.password self.old.live.places bytes.now self.old.live.hub self.new.live.hub client after }
        ensures disk { (self.new.live.hub.file ≡ self.old.live.hub.file) ⊎ IfFile (Reads D.Disk) self.old.live.hub.file self.new.live.hub.file }
        ensures recorded { StaysLive D.Disk self.old.live self.new.live }
        ensures air { OthersAirStays (Feeder.Peer key) self.old.air self.new.air }
        ensures sourced { (client : ClientState) → get self.old.clients.slots key ≡ Some client
            → asks_as_source (client.head ++ bytes.now) ≡ true → self.old.options.password ≢ None
            → (after : ClientState) × (get self.new.clients.slots key ≡ Some after) × IsSourced key bytes.now now self.old.options.password
            self.old.options.skeletons (serials_in self.old.live.hub.file) self.old.air self.new.air client after }
        ensures begins { self.old.air ≡ None → BeginsBeside (serials_in self.old.live.hub.file) self.old.options.skeletons (run_in self.new.air) }
        ensures others { OthersStay key self.old.clients self.new.clients }
        ensures clocks { KeepsClocks self.old self.new }
    {
        if self.is_spare(key) {
            self.ask_in_spare(key, bytes, now);
        } else {
            self.ask_on(key, bytes, now);
        }
    }

    /// The same of a connection that has a place as others have.
    fn ask_on(&mut self, key: usize, bytes: &[u8], now: u64)
        ensures asks { (client : ClientState) → get self.old.clients.slots key ≡ Some client
            → (after : ClientState) × (get self.new.clients.slots key ≡ Some after)
            × IsAsked D.Disk self.old.options.password self.old.live.places bytes.now self.old.live.hub self.new.live.hub client after }
        ensures disk { (self.new.live.hub.file ≡ self.old.live.hub.file) ⊎ IfFile (Reads D.Disk) self.old.live.hub.file self.new.live.hub.file }
        ensures recorded { StaysLive D.Disk self.old.live self.new.live }
        ensures air { OthersAirStays (Feeder.Peer key) self.old.air self.new.air }
        ensures sourced { (client : ClientState) → get self.old.clients.slots key ≡ Some client
            → asks_as_source (client.head ++ bytes.now) ≡ true → self.old.options.password ≢ None
            → (after : ClientState) × (get self.new.clients.slots key ≡ Some after) × IsSourced key bytes.now now self.old.options.password
            self.old.options.skeletons (serials_in self.old.live.hub.file) self.old.air self.new.air client after }
        ensures begins { self.old.air ≡ None → BeginsBeside (serials_in self.old.live.hub.file) self.old.options.skeletons (run_in self.new.air) }
        ensures others { OthersStay key self.old.clients self.new.clients }
        ensures clocks { KeepsClocks self.old self.new }
    {
        let Some(client) = self.clients.slots.get_mut(key) else {
            return;
        };
        notice(client, bytes);
        match ask(client, bytes) {
            Asks::More => {}
            Asks::Source if self.options.password.is_some() => {
                client.stage = Stage::Offering;
                self.offer(key, &[], now);
            }
            Asks::Own { resource, head } => self.answer(key, resource, head, now),
            Asks::Source => self.live.connect(client),
            Asks::File => self.live.connect(client),
        }
    }

    /// Further bytes of a request have come.
    fn read_on(&mut self, key: usize, bytes: &[u8])
        ensures reads { (client : ClientState) (id : ℕ) → get self.old.clients.slots key ≡ Some client → client.session ≡ Some id
            → (progress : Result ProgressOf HubFaultOf)
            × Steps (Shows D.Disk) self.old.live.hub self.new.live.hub (λ machine. Receive id bytes.now progress)
            × (get self.new.clients.slots key ≡ Some (with_stage (stage_after progress) (with_line (moved_on client.line) client))) }
        ensures unread { (client : ClientState) → get self.old.clients.slots key ≡ Some client → client.session ≡ None
            → (after : ClientState) × (get self.new.clients.slots key ≡ Some after) × IsLike client after × (self.new.live.hub ≡ self.old.live.hub) }
        ensures disk { (self.new.live.hub.file ≡ self.old.live.hub.file) ⊎ IfFile (Reads D.Disk) self.old.live.hub.file self.new.live.hub.file }
        ensures recorded { StaysLive D.Disk self.old.live self.new.live }
        ensures air { self.new.air ≡ self.old.air }
        ensures others { OthersStay key self.old.clients self.new.clients }
        ensures clocks { KeepsClocks self.old self.new }
    {
        if let Some(client) = self.clients.slots.get_mut(key) {
            notice(client, bytes);
            self.live.read_on(client, bytes);
        }
    }

    /// Bytes of a source have come, or of a connection of which none are expected.
    fn take_in(&mut self, key: usize, bytes: &[u8], now: u64)
        ensures offers { (client : ClientState) → get self.old.clients.slots key ≡ Some client → is_source client.stage ≡ true
            → (after : ClientState) × (get self.new.clients.slots key ≡ Some after) × GoesOnAsSource client after }
        // What the head of a source says becomes of it. One that waits stays as it is.
        ensures offered { (client : ClientState) → get self.old.clients.slots key ≡ Some client → client.stage ≡ OfferingOf
            → (after : ClientState) × (get self.new.clients.slots key ≡ Some after) × IsOffered key bytes.now now self.old.options.password
            self.old.options.skeletons (serials_in self.old.live.hub.file) self.old.air self.new.air (with_line (moved_on client.line) client) after }
        ensures waits { (client : ClientState) → get self.old.clients.slots key ≡ Some client → client.stage ≡ WaitingOf
            → (get self.new.clients.slots key ≡ Some (with_line (moved_on client.line) client)) × (self.new.air ≡ self.old.air) }
        ensures ignores { (client : ClientState) → get self.old.clients.slots key ≡ Some client → expects_nothing client.stage ≡ true
            → (after : ClientState) × (get self.new.clients.slots key ≡ Some after) × IsLike client after }
        ensures feeds { (client : ClientState) → get self.old.clients.slots key ≡ Some client → client.stage ≡ FeedingOf
            → IsFedMore (Feeder.Peer key) bytes.now self.old.air self.new.air }
        ensures heard { (client : ClientState) → get self.old.clients.slots key ≡ Some client → client.stage ≡ FeedingOf
            → get self.new.clients.slots key ≡ Some (record client { since = now; line = moved_on client.line }) }
        ensures air { OthersAirStays (Feeder.Peer key) self.old.air self.new.air }
        ensures begins { self.old.air ≡ None → BeginsBeside (serials_in self.old.live.hub.file) self.old.options.skeletons (run_in self.new.air) }
        ensures others { OthersStay key self.old.clients self.new.clients }
        ensures live { self.new.live ≡ self.old.live }
        ensures clocks { KeepsClocks self.old self.new }
    {
        let Some(client) = self.clients.slots.get_mut(key) else {
            return;
        };
        notice(client, bytes);
        match client.stage {
            Stage::Offering => self.offer(key, bytes, now),
            Stage::Feeding => {
                client.since = now;
                self.feed(Feeder::Peer(key), bytes);
            }
            _ => {}
        }
    }

    /// The station answers this connection itself.
    fn answer(&mut self, key: usize, resource: OwnResource, head: bool, now: u64)
        ensures answers { (client : ClientState) → get self.old.clients.slots key ≡ Some client → (after : ClientState)
            × (get self.new.clients.slots key ≡ Some after) × IsAnswered resource head client after
            × Joins D.Disk resource head self.old.live.places self.old.live.hub after
            × HasCause D.Disk resource self.old.live.places self.old.live.hub self.new.live.hub client after }
        ensures machine { KeepsMachine D.Disk self.old.live.hub self.new.live.hub }
        ensures disk { (self.new.live.hub.file ≡ self.old.live.hub.file) ⊎ IfFile (Reads D.Disk) self.old.live.hub.file self.new.live.hub.file }
        ensures recorded { StaysLive D.Disk self.old.live self.new.live }
        ensures air { self.new.air ≡ self.old.air }
        ensures others { OthersStay key self.old.clients self.new.clients }
        ensures clocks { KeepsClocks self.old self.new }
    {
        let Some(client) = self.clients.slots.get_mut(key) else {
            return;
        };
        match resource {
            OwnResource::Live => self.live.listen(client, head),
            OwnResource::Player => client.tell_player(head),
            OwnResource::Status => self.tell_numbers(key, head, now),
        }
    }

    /// This connection will send no more. A listener that says so is gone, and so is whoever hasn't sent its whole head. A
    /// source's stream has come to its end, and a response goes on to be sent.
    pub fn peer_ended(&mut self, key: usize)
        ensures client { (client : ClientState) → get self.old.clients.slots key ≡ Some client
            → get self.new.clients.slots key ≡ Some (half_closed client) }
        ensures none { get self.old.clients.slots key ≡ None → self.new ≡ self.old }
        ensures others { OthersStay key self.old.clients self.new.clients }
        ensures live { self.new.live ≡ self.old.live }
        ensures ends { (client : ClientState) → get self.old.clients.slots key ≡ Some client → client.stage ≡ FeedingOf
            → IsEndedBy (Feeder.Peer key) self.old.air self.new.air }
        ensures stays { (client : ClientState) → get self.old.clients.slots key ≡ Some client → client.stage ≢ FeedingOf
            → self.new.air ≡ self.old.air }
        ensures clocks { KeepsClocks self.old self.new }
    {
        let Some(client) = self.clients.slots.get_mut(key) else {
            return;
        };
        client.stands(client.line.read_failed(Trouble::Blocked));
        match client.stage {
            Stage::Feeding => self.end_air(Feeder::Peer(key)),
            Stage::Asking | Stage::Offering | Stage::Reading | Stage::Hearing | Stage::Closing =>
                client.go_to(Stage::Cut),
            Stage::Waiting | Stage::Sending | Stage::Ending | Stage::Cut => {}
        }
    }

    /// The next bytes for this connection: those that couldn't be written before, or as many as the buffer holds of
    /// its response, or of what it hears. It returns how many these are; 0 if there is nothing to send now. No memory is
    /// taken. Say with `wrote` how many of them were written, before it is called again.
    pub fn next(&mut self, key: usize, buffer: &mut [u8], now: u64) -> usize
        ensures gives { (client : ClientState) → get self.old.clients.slots key ≡ Some client → client.stage ≢ WaitingOf → (after : ClientState)
            × Gives D.Disk self.old.live.hub self.new.live.hub (length buffer.old) client result buffer.new after
            × (get self.new.clients.slots key ≡ Some (given result (is_over self.old.air self.old.ending) now after)) }
        // A source that has waited for a second is refused; one that hasn't waits on. Nothing is pulled for it.
        ensures refuses { (client : ClientState) → get self.old.clients.slots key ≡ Some client → client.stage ≡ WaitingOf → is_refused client now ≡ true
            → (after : ClientState) × HasLast (refusal OnTheAir) client after
            × (get self.new.clients.slots key ≡ Some (given result (is_over self.old.air self.old.ending) now after)) }
        ensures goes_on { (client : ClientState) → get self.old.clients.slots key ≡ Some client → client.stage ≡ WaitingOf → is_refused client now ≡ false
            → get self.new.clients.slots key ≡ Some (given result (is_over self.old.air self.old.ending) now client) }
        ensures silent { (client : ClientState) → get self.old.clients.slots key ≡ Some client → client.stage ≡ WaitingOf → is_refused client now ≡ false
            → client.unsent ≡ [] → result ≡ 0 }
        ensures waits { (client : ClientState) → get self.old.clients.slots key ≡ Some client → client.stage ≡ WaitingOf → (after : ClientState)
            × (get self.new.clients.slots key ≡ Some after) × GoesOnAsSource client after × (self.new.live.hub ≡ self.old.live.hub) }
        ensures none { get self.old.clients.slots key ≡ None → (get self.new.clients.slots key ≡ None) × (self.new.live.hub ≡ self.old.live.hub) }
        ensures disk { (self.new.live.hub.file ≡ self.old.live.hub.file) ⊎ IfFile (Reads D.Disk) self.old.live.hub.file self.new.live.hub.file }
        ensures recorded { StaysLive D.Disk self.old.live self.new.live }
        ensures others { OthersStay key self.old.clients self.new.clients }
        ensures air { self.new.air ≡ self.old.air }
        ensures within { result ≤ length buffer.new }
        ensures clocks { KeepsClocks self.old self.new }
    {
        self.refuse_if_waited(key, now);
        self.give(key, buffer, now)
    }

    /// A source that has waited for the air long enough is refused.
    fn refuse_if_waited(&mut self, key: usize, now: u64)
        ensures same { (client : ClientState) → get self.old.clients.slots key ≡ Some client → client.stage ≢ WaitingOf → self.new ≡ self.old }
        ensures refuses { (client : ClientState) → get self.old.clients.slots key ≡ Some client → is_refused client now ≡ true
            → (after : ClientState) × (get self.new.clients.slots key ≡ Some after) × HasLast (refusal OnTheAir) client after }
        ensures rest { (client : ClientState) → get self.old.clients.slots key ≡ Some client → is_refused client now ≡ false → self.new ≡ self.old }
        ensures none { get self.old.clients.slots key ≡ None → self.new ≡ self.old }
        ensures ending { self.new.ending ≡ self.old.ending }
        ensures offers { OffersOn (get self.old.clients.slots key) (get self.new.clients.slots key) }
        ensures others { OthersStay key self.old.clients self.new.clients }
        ensures live { self.new.live ≡ self.old.live }
        ensures air { self.new.air ≡ self.old.air }
        ensures clocks { KeepsClocks self.old self.new }
    {
        if let Some(client) = self.clients.slots.get(key) {
            if is_refused(client, now) {
                self.refuse(key, Refused::OnTheAir);
            }
        }
    }

    /// The next bytes for this connection.
    fn give(&mut self, key: usize, buffer: &mut [u8], now: u64) -> usize
        ensures none { get self.old.clients.slots key ≡ None → (get self.new.clients.slots key ≡ None) × (self.new.live.hub ≡ self.old.live.hub) }
        ensures gives { (client : ClientState) → get self.old.clients.slots key ≡ Some client → (after : ClientState)
            × Gives D.Disk self.old.live.hub self.new.live.hub (length buffer.old) client result buffer.new after
            × (get self.new.clients.slots key ≡ Some (given result (is_over self.old.air self.old.ending) now after)) }
        ensures disk { (self.new.live.hub.file ≡ self.old.live.hub.file) ⊎ IfFile (Reads D.Disk) self.old.live.hub.file self.new.live.hub.file }
        ensures recorded { StaysLive D.Disk self.old.live self.new.live }
        ensures others { OthersStay key self.old.clients self.new.clients }
        ensures air { self.new.air ≡ self.old.air }
        ensures within { result ≤ length buffer.new }
        ensures clocks { KeepsClocks self.old self.new }
    {
        let over = self.is_over();
        let Some(client) = self.clients.slots.get_mut(key) else {
            return 0;
        };
        let count = self.live.give(client, buffer);
        client.given(count, over, now);
        count
    }

    /// The first `count` of these bytes, which `next` gave for this connection, were written. The others are kept, to be
    /// given again; without memory for them the connection is cut.
    pub fn wrote(&mut self, key: usize, bytes: &[u8], count: usize, now: u64)
        ensures written { (client : ClientState) → get self.old.clients.slots key ≡ Some client → (after : ClientState)
            × HasWritten bytes.now count client after × (get self.new.clients.slots key ≡ Some (moved_if count now after)) }
        ensures counts { (client : ClientState) → get self.old.clients.slots key ≡ Some client
            → self.new.counts ≡ record self.old.counts { sent = counted self.old.counts.sent (min count (length bytes.now)) } }
        ensures none { get self.old.clients.slots key ≡ None → self.new ≡ self.old }
        ensures others { OthersStay key self.old.clients self.new.clients }
        ensures live { self.new.live ≡ self.old.live }
        ensures air { self.new.air ≡ self.old.air }
        ensures clocks { KeepsClocks self.old self.new }
    {
        let Some(client) = self.clients.slots.get_mut(key) else {
            return;
        };
        client.wrote(bytes, count);
        let (sent, _) = bytes.split_at(count.min(bytes.len()));
        client.note_sent(sent);
        client.moved(count, now);
        self.counts.sent = counted(self.counts.sent, sent.len() as u64);
    }

    /// Whether bytes of the caller's input are taken now.
    pub fn wants_input(&self) -> bool
        ensures none { self.now.air ≡ None → result ≡ true }
        ensures yes { self.now.air ≢ None → result ≡ true → IsFedBy Feeder.Input self.now.air }
        ensures no { result ≡ false → ¬ (IsFedBy Feeder.Input self.now.air) }
    {
        self.air.is_none() || self.is_hungry(Feeder::Input)
    }

    /// The input has given bytes. If nobody is on the air, it is from now on.
    pub fn input(&mut self, bytes: &[u8], now: u64) -> Result<(), Memory>
        ensures clients { self.new.clients ≡ self.old.clients }
        ensures live { self.new.live ≡ self.old.live }
        ensures fed { self.old.air ≢ None → IsFedMore Feeder.Input bytes.now self.old.air self.new.air }
        ensures begins { self.old.air ≡ None → OnOk result ((air : OnAirOf)
            × HasBegun Feeder.Input None (options_for self.old.options.skeletons) (serials_in self.old.live.hub.file) air
            × IsFedMore Feeder.Input bytes.now (Some air) self.new.air) }
        ensures clocks { KeepsClocks self.old self.new }
    {
        if self.air.is_none() {
            self.begin_air(Feeder::Input, None, now)?;
        }
        self.feed(Feeder::Input, bytes);
        Ok(())
    }

    /// The input has ended.
    pub fn input_ended(&mut self, now: u64)
        ensures air { IsEndedBy Feeder.Input self.old.air self.new.air }
        ensures clients { self.new.clients ≡ self.old.clients }
        ensures live { self.new.live ≡ self.old.live }
        ensures clocks { clocks_of self.new ≡ record (clocks_of self.old) { ending = ended_with_input self.old.options.ends_with_input self.old.ending now } }
    {
        self.end_air(Feeder::Input);
        if self.options.ends_with_input {
            self.finish(now);
        }
    }

    /// Further bytes of a source. Without memory for them it is given up, once what came before is taken.
    fn feed(&mut self, feeder: Feeder, bytes: &[u8])
        ensures fed { IsFedMore feeder bytes.now self.old.air self.new.air }
        ensures noted { (air : OnAirOf) → self.old.air ≡ Some air → air.feeder ≡ feeder
            → (after : OnAirOf) × (self.new.air ≡ Some after) × (HoldsMore bytes.now air after ⊎ IsShort (length bytes.now) air after) }
        ensures clients { self.new.clients ≡ self.old.clients }
        ensures live { self.new.live ≡ self.old.live }
        ensures options { self.new.options ≡ self.old.options }
        ensures clocks { KeepsClocks self.old self.new }
    {
        if let Some(air) = &mut self.air {
            if air.feeder().is(feeder) {
                air.take(bytes);
            }
        }
    }

    /// No further byte comes of the source, if this connection was its feeder, and its spare place is free, if it had one.
    /// Its key may be another's soon.
    fn lose_feeder(&mut self, key: usize)
        ensures spare { self.new.spare.items ≡ filter (is_another key) self.old.spare.items }
        ensures lost { IsLostBy (Feeder.Peer key) self.old.air self.new.air }
        ensures clients { self.new.clients ≡ self.old.clients }
        ensures live { self.new.live ≡ self.old.live }
        ensures options { self.new.options ≡ self.old.options }
        ensures clocks { KeepsClocks self.old self.new }
    {
        if let Some(air) = &mut self.air {
            if air.feeder() == Feeder::Peer(key) {
                air.lose_feeder();
            }
        }
        leave(&mut self.spare, key);
    }

    /// No further byte comes of the source, if it is this one.
    pub(crate) fn end_air(&mut self, feeder: Feeder)
        ensures ended { IsEndedBy feeder self.old.air self.new.air }
        ensures clients { self.new.clients ≡ self.old.clients }
        ensures live { self.new.live ≡ self.old.live }
        ensures options { self.new.options ≡ self.old.options }
        ensures ending { self.new.ending ≡ self.old.ending }
        ensures clocks { KeepsClocks self.old self.new }
    {
        if let Some(air) = &mut self.air {
            if air.feeder() == feeder {
                air.end();
            }
        }
    }
}
