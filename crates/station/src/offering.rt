//! A source is offered: it is refused, or goes on the air.
ghost use Rattle.std.specs.Prelude.{◌≡◌, ◌≢◌, ◌++◌, ◌⊎◌, ℕ, None, Some, OnErr, OnOk, drop, false, length};
ghost use Rattle.slab.specs.Slab.{get};
ghost use Rattle.httparse.specs.Grammar.{RequestHead};
ghost use Rattle.serve_clients.specs.Client.{ClientState, HasLast};
ghost use Rattle.serve_clients.specs.Clients.{OthersStay};
ghost use Rattle.serve_clients.specs.declared.client.Stage.TheVariants.{Waiting as WaitingOf};
ghost use Rattle.serve_sources.specs.Asking.{HasHead};
ghost use Rattle.serve_sources.specs.Offer.{IsUnread};
ghost use Rattle.serve_sources.specs.declared.password.Password.{Password as PasswordOf};
ghost use Rattle.serve_hub.specs.Parts.{serials_in};
ghost use Rattle.station_sources.specs.Air.{HoldsMore, IsShort, feeder_in};
ghost use Rattle.station_sources.specs.Beginning.{HasBegun};
ghost use Rattle.station_sources.specs.declared.air.OnAir.{OnAir as OnAirOf};
ghost use Rattle.station.specs.Beginning.{BeginsBeside, options_for, run_in};
ghost use Rattle.station_sources.specs.Counting.{counted};
ghost use Rattle.station_sources.specs.declared.air.Feeder.TheVariants.{Peer};
ghost use Rattle.serve_sources.specs.Answers.{refusal};
ghost use Rattle.station.specs.Clocks.{KeepsClocks};
ghost use Rattle.station.specs.Offering.{ComesOf, Feeds, GetsAir, IsOffered, IsRefusal, IsUnauthorized, Leads};
ghost use Rattle.station.specs.Kept.{AreTried};
ghost use Rattle.station.specs.Passing.{OffersNow, OffersOn};
ghost use Rattle.station.specs.Succeeding.{IsSucceeded, WasOffered, waits};

use crate::Memory;
use crate::station::Station;
use disk_model::Disk;
use import_changes::ChangeOptions;
use serve_clients::{Client, Stage};
use serve_sources::{Body, Offer, Outcome, Password, Refused, sources_are_refused};
use station_sources::{Feeder, OnAir, counted};

/// What comes of a source's head, as far as it has come. A head without the password is refused.
fn offered(head: &[u8], password: &Password) -> Offer
    ensures unauthorized { (request : RequestHead) → HasHead head.now request → IsUnauthorized password.now request → IsRefusal result }
    ensures more { result ≡ Offer.More → IsUnread head.now Offer.More }
    ensures comes { ComesOf password.now head.now result }
{
    // For the proof alone.
    sources_are_refused();
    Offer::of(head, password)
}

/// What came behind the head of a source, which has `used` bytes, is the first of its stream.
fn take_behind(air: &mut Option<OnAir>, head: &[u8], used: usize)
    ensures { (begun : OnAirOf) → air.old ≡ Some begun → (source : OnAirOf) × (air.new ≡ Some source) × (source.feeder ≡ begun.feeder)
        × (HoldsMore (drop used head.now) begun source ⊎ IsShort (length (drop used head.now)) begun source) }
{
    if let Some(air) = air {
        let (_, rest) = head.split_at(used.min(head.len()));
        air.take(rest);
    }
}

/// The source is answered, and sends its stream from now on. If memory for the answer is refused, it is cut.
fn feed_on(client: &mut Client, answer: &[u8], now: u64)
    ensures { Feeds answer.now now client.old client.new }
{
    client.head.clear();
    client.since = now;
    client.stage = match client.tell(answer) {
        Ok(()) => Stage::Feeding,
        Err(_) => Stage::Cut,
    };
}

impl<D: Disk + Drop> Station<D> {
    /// Further bytes of the head of a source's request. If another one has the air, it waits.
    pub(crate) fn offer(&mut self, key: usize, bytes: &[u8], now: u64)
        ensures source { OffersOn (get self.old.clients.slots key) (get self.new.clients.slots key) }
        // Without the password it doesn't get the air.
        ensures unauthorized { (client : ClientState) (request : RequestHead) (password : PasswordOf) → get self.old.clients.slots key ≡ Some client
            → self.old.options.password ≡ Some password → HasHead (client.head ++ bytes.now) request → IsUnauthorized password request
            → self.new.air ≡ self.old.air }
        // What its head says becomes of it: with the password it gets the air if that is free, with what came behind its head,
        // and waits if it isn't.
        ensures leads { (client : ClientState) → get self.old.clients.slots key ≡ Some client → (after : ClientState)
            × (get self.new.clients.slots key ≡ Some after) × IsOffered key bytes.now now self.old.options.password
            self.old.options.skeletons (serials_in self.old.live.hub.file) self.old.air self.new.air client after }
        // It has the air from now on, or who had it before has. If the air was free, it waits no longer, or its head hasn't
        // come whole.
        ensures offered { self.old.air ≡ None → WasOffered (get self.new.clients.slots key) }
        ensures feeder { (feeder_in self.new.air ≡ Some (Peer key)) ⊎ (feeder_in self.new.air ≡ feeder_in self.old.air) }
        ensures keeps { self.old.air ≢ None → self.new.air ≡ self.old.air }
        ensures options { self.new.options ≡ self.old.options }
        ensures clocks { KeepsClocks self.old self.new }
        // If it has the air now, its streams will have serials that are none of the file's.
        ensures begins { self.old.air ≡ None → BeginsBeside (serials_in self.old.live.hub.file) self.old.options.skeletons (run_in self.new.air) }
        ensures others { OthersStay key self.old.clients self.new.clients }
        ensures live { self.new.live ≡ self.old.live }
    {
        let Some(client) = self.clients.slots.get_mut(key) else {
            return;
        };
        if client.hear(bytes).is_err() {
            client.go_to(Stage::Cut);
            return;
        }
        let Some(password) = &self.options.password else {
            // No connection may send a stream.
            client.go_to(Stage::Cut);
            return;
        };
        let offer = offered(client.head.as_slice(), password);
        self.take_up(key, offer, now);
    }

    /// What comes of the head of a source is this.
    fn take_up(&mut self, key: usize, offer: Offer, now: u64)
        ensures leads { (client : ClientState) → get self.old.clients.slots key ≡ Some client → (after : ClientState)
            × (get self.new.clients.slots key ≡ Some after)
            × Leads key now self.old.options.skeletons (serials_in self.old.live.hub.file) offer self.old.air self.new.air client after }
        ensures others { OthersStay key self.old.clients self.new.clients }
        ensures live { self.new.live ≡ self.old.live }
        ensures options { self.new.options ≡ self.old.options }
        ensures clocks { KeepsClocks self.old self.new }
    {
        match offer {
            Offer::More => {}
            Offer::Refused(refused) => self.refuse(key, refused),
            Offer::Nothing { .. } => self.tell_last(key, Outcome::Whole.answer()),
            Offer::Body { used, body, answer } => {
                if self.air.is_some() {
                    self.wait(key, now);
                } else {
                    self.take_the_air(key, used, body, answer, now);
                }
            }
        }
    }

    /// This text is the last that the connection gets.
    fn tell_last(&mut self, key: usize, text: &[u8])
        ensures last { (client : ClientState) → get self.old.clients.slots key ≡ Some client → (after : ClientState)
            × (get self.new.clients.slots key ≡ Some after) × HasLast text.now client after }
        ensures none { get self.old.clients.slots key ≡ None → get self.new.clients.slots key ≡ None }
        ensures others { OthersStay key self.old.clients self.new.clients }
        ensures rest { self.new ≡ record self.old { clients = self.new.clients } }
    {
        if let Some(client) = self.clients.slots.get_mut(key) {
            client.tell_last(text);
        }
    }

    /// Another source has the air: this one waits for it.
    fn wait(&mut self, key: usize, now: u64)
        ensures waits { (client : ClientState) → get self.old.clients.slots key ≡ Some client
            → get self.new.clients.slots key ≡ Some (record client { stage = WaitingOf; since = now }) }
        ensures others { OthersStay key self.old.clients self.new.clients }
        ensures rest { self.new ≡ record self.old { clients = self.new.clients } }
    {
        if let Some(client) = self.clients.slots.get_mut(key) {
            client.stage = Stage::Waiting;
            client.since = now;
        }
    }

    /// A source is refused: it is told so, and counted.
    pub(crate) fn refuse(&mut self, key: usize, refused: Refused)
        ensures counts { self.new.counts ≡ record self.old.counts { sources_refused = counted self.old.counts.sources_refused 1 } }
        ensures last { (client : ClientState) → get self.old.clients.slots key ≡ Some client → (after : ClientState)
            × (get self.new.clients.slots key ≡ Some after) × HasLast (refusal refused) client after }
        ensures none { get self.old.clients.slots key ≡ None → get self.new.clients.slots key ≡ None }
        ensures others { OthersStay key self.old.clients self.new.clients }
        ensures options { self.new.options ≡ self.old.options }
        ensures clocks { KeepsClocks self.old self.new }
        ensures live { self.new.live ≡ self.old.live }
        ensures air { self.new.air ≡ self.old.air }
    {
        self.tell_last(key, refused.answer());
        self.counts.sources_refused = counted(self.counts.sources_refused, 1);
    }

    /// The air is free: it is offered to the sources that wait for it, in turn, until one of them has it.
    pub(crate) fn offer_again(&mut self, now: u64)
        ensures tried { AreTried self.old.options.password now self.old.clients.slots self.new.clients.slots }
        ensures succeeded { self.old.air ≡ None → IsSucceeded self.old.clients.slots self.new.clients.slots self.new.air }
        ensures begins { self.old.air ≡ None → BeginsBeside (serials_in self.old.live.hub.file) self.old.options.skeletons (run_in self.new.air) }
        ensures others { (key : ℕ) → waits (get self.old.clients.slots key) ≡ false → get self.new.clients.slots key ≡ get self.old.clients.slots key }
        ensures live { self.new.live ≡ self.old.live }
        ensures clocks { KeepsClocks self.old self.new }
    {
        for key in 0..self.clients.slots.capacity() {
            if self.air.is_some() {
                return;
            }
            if self.waits(key) {
                self.offer(key, &[], now);
            }
        }
    }

    /// Whether this connection is a source that waits for the air.
    fn waits(&self, key: usize) -> bool
        ensures { result ≡ waits (get self.now.clients.slots key) }
    {
        match self.clients.slots.get(key) {
            Some(client) => client.stage == Stage::Waiting,
            None => false,
        }
    }

    /// The connection's stream is recorded from now on. Its body follows the head, which has `used` bytes. If memory for it
    /// is refused, the connection is cut.
    fn take_the_air(&mut self, key: usize, used: usize, body: Body, answer: &[u8], now: u64)
        requires free { self.old.air ≡ None }
        ensures takes { (client : ClientState) → get self.old.clients.slots key ≡ Some client → (after : ClientState)
            × (get self.new.clients.slots key ≡ Some after)
            × GetsAir key used body answer.now now self.old.options.skeletons (serials_in self.old.live.hub.file) self.new.air client after }
        ensures others { OthersStay key self.old.clients self.new.clients }
        ensures live { self.new.live ≡ self.old.live }
        ensures options { self.new.options ≡ self.old.options }
        ensures clocks { KeepsClocks self.old self.new }
    {
        let begun = self.begin_air(Feeder::Peer(key), Some(body), now);
        let Some(client) = self.clients.slots.get_mut(key) else {
            return;
        };
        if begun.is_err() {
            client.lack_memory();
            return;
        }
        take_behind(&mut self.air, client.head.as_slice(), used);
        feed_on(client, answer, now);
    }

    /// A source is on the air from now on. Its streams get serials that the file doesn't have.
    pub(crate) fn begin_air(
        &mut self,
        feeder: Feeder,
        body: Option<Body>,
        now: u64,
    ) -> Result<(), Memory>
        ensures clients { self.new.clients ≡ self.old.clients }
        ensures live { self.new.live ≡ self.old.live }
        ensures options { self.new.options ≡ self.old.options }
        ensures clocks { KeepsClocks self.old self.new }
        ensures ok { OnOk result (feeder_in self.new.air ≡ Some feeder) }
        ensures begins { OnOk result ((air : OnAirOf) × (self.new.air ≡ Some air)
            × HasBegun feeder body (options_for self.old.options.skeletons) (serials_in self.old.live.hub.file) air) }
        ensures err { OnErr result (self.new.air ≡ self.old.air) }
        ensures counts { OnOk result (self.new.counts ≡ record self.old.counts { sources = counted self.old.counts.sources 1 }) }
    {
        let options = ChangeOptions {
            renumber: true,
            skeletons: self.options.skeletons,
        };
        let serials = self.live.hub().serials();
        self.air = Some(OnAir::new(self.alloc, feeder, body, options, serials)?);
        self.on_air_since = now;
        self.counts.sources = counted(self.counts.sources, 1);
        Ok(())
    }
}
