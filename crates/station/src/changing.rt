//! A station goes over to another file: who reads the one before leaves for a station that serves it to its end.
ghost use Rattle.std.specs.List.{filter};
ghost use Rattle.std.specs.Prelude.{◌≡◌, ◌≢◌, ◌↔◌, ◌<◌, ◌⊎◌, ◌||◌, [], ℕ, None, Ok, Some, false, true, IfErr, IfOk, IfSome, IsSome, OnErr, OnOk, length};
ghost use Rattle.slab.specs.Slab.{get};
ghost use Rattle.gate_file.specs.Commit.{CommitsTo};
ghost use Rattle.gate_file.specs.Gate.{EachImage};
ghost use Rattle.file_recorder.specs.Recorder.{committed};
ghost use Rattle.serve_machine.specs.Hub.{HubState};
ghost use Rattle.serve_hub.specs.Exchanging.{only_read};
ghost use Rattle.serve_hub.specs.Parts.{is_settled};
ghost use Rattle.serve_hub.specs.Showing.{Shows};
ghost use Rattle.serve_clients.specs.Client.{ClientState};
ghost use Rattle.serve_clients.specs.Clients.{HasTurn, OthersStay};
ghost use Rattle.serve_clients.specs.declared.clients.Clients.{Clients as ClientsOf};
ghost use Rattle.serve_clients.specs.Line.{new_line};
ghost use Rattle.import_record.specs.Running.{nothing};
ghost use Rattle.import_record.specs.declared.answering.Answered.{Answered as AnsweredOf};
ghost use Rattle.serve_hub.specs.Running.{IsIn, Progress, RepliesIn};
ghost use Rattle.feed_records.specs.declared.item.Record.{Record as RecordOf};
ghost use Rattle.serve_live.specs.Listening.{ListenerState};
ghost use Rattle.station.specs.Spare.{is_another, is_spare};
ghost use Rattle.station.specs.Changing.{BeginsAgain, HearsAnew, HearsOn, HoldsBack, ReadsFile, anew, arrived, come};
ghost use Rattle.station_hub.specs.Giving.{has_got_all};
ghost use Rattle.serve_live.specs.Boundaries.{place_to_join};
ghost use Rattle.station_hub.specs.Live.{RecordsLive};
ghost use Rattle.station_sources.specs.Pending.{HasCome};
ghost use Rattle.station_sources.specs.declared.air.OnAir.{OnAir as OnAirOf};

use crate::Memory;
use crate::station::{Options, Station, leave};
use disk_model::Disk;
use feed_replies::Reply;
use feed_runner::Runner;
use file_recorder::Recorder;
use import_changes::Skeletons;
use import_record::{Answered, RecordFault, run_all};
use serve_clients::{Client, Clients, Line, Stage};
use serve_live::{JoinPlace, Listener, StreamState};
use slab::Slab;
use station_hub::{LiveHub, Waking, notice};
use station_sources::OnAir;
use std::alloc::Global;
use std::io;

/// A connection that comes from another station: nothing is known of its socket, and nothing was asked for it yet.
fn arrive(client: &mut Client)
    ensures { client.new ≡ record client.old { idle = false; line = new_line } }
{
    client.idle = false;
    client.stands(Line::new());
}

/// Keeps bytes of a head behind what has come before. If memory for them is refused, the connection is cut.
fn hold_back(client: &mut Client, bytes: &[u8])
    ensures { HoldsBack bytes.now client.old client.new }
{
    notice(client, bytes);
    if client.hear(bytes).is_err() {
        client.go_to(Stage::Cut);
    }
}

/// Gives a connection a key that is free.
fn insert(slots: &mut Slab<Client>, client: Client) -> Result<usize, Memory>
    ensures none { IfOk result (λ key. get slots.old key ≡ None) }
    ensures some { IfOk result (λ key. get slots.new key ≡ Some client) }
    ensures others { IfOk result (λ key. (other : ℕ) → other ≢ key → get slots.new other ≡ get slots.old other) }
    ensures err { OnErr result ((key : ℕ) → get slots.new key ≡ get slots.old key) }
{
    match slots.insert(client) {
        Ok(key) => Ok(key),
        Err(_) => Err(Memory),
    }
}

/// Another file is heard from its first byte on: there is more for those who hear what is recorded.
fn anew(waking: Waking) -> Waking
    ensures { result ≡ anew waking }
{
    Waking {
        heard: 0,
        unheard: true,
        ..waking
    }
}

/// Something of the source is lost, if so.
fn note_loss(air: &mut OnAir, is_lost: bool)
    ensures { air.new ≡ record air.old { lost = is_lost || air.old.lost } }
{
    if is_lost {
        air.lose();
    }
}

/// Whether a connection hears what is recorded.
fn hears(stage: Stage) -> bool
    ensures { (result ≡ true) ↔ (stage ≡ Stage.Hearing) }
{
    match stage {
        Stage::Hearing => true,
        _ => false,
    }
}

/// A connection hears what this listener does.
fn hear_by(client: &mut Client, listener: Listener)
    ensures { client.new ≡ record client.old { listener = Some listener } }
{
    client.listener = Some(listener);
}

/// A connection goes on with what it hears in another file, as [`Listener::go_on`] has it. One that hears nothing stays as
/// it is.
fn go_on(
    alloc: Global,
    client: &mut Client,
    begun: u64,
    streams: &[StreamState],
    next: &[StreamState],
) -> Result<(), Memory>
    ensures on { OnOk result ((heard : ListenerState) → client.old.listener ≡ Some heard
        → HearsOn begun streams.now next.now heard client.old client.new) }
    ensures none { client.old.listener ≡ None → (result ≡ Ok tt) × (client.new ≡ client.old) }
    ensures same { OnErr result (client.new ≡ client.old) }
{
    let Some(heard) = &client.listener else {
        return Ok(());
    };
    let listener = heard.go_on(alloc, begun, streams, next)?;
    hear_by(client, listener);
    Ok(())
}

impl<D: Disk + Drop> Station<D> {
    /// A station that serves a file to those who enter it, and takes no source and no further connection. It makes the room
    /// for this many. After `Memory` the hub is given back.
    pub fn over(
        alloc: Global,
        live: LiveHub<D>,
        most: usize,
    ) -> Result<Station<D>, (Memory, LiveHub<D>)>
        ensures live { IfOk result (λ station. station.live ≡ live) }
        ensures nobody { IfOk result (λ station. (station.air ≡ None) × ((key : ℕ) → get station.clients.slots key ≡ None)) }
        ensures back { IfErr result (λ e. e.1 ≡ live) }
    {
        let options = Options {
            most,
            skeletons: Skeletons::Kept,
            password: None,
            ends_with_input: false,
            log: false,
        };
        match Clients::new(alloc, most) {
            Ok(clients) => Ok(Station::begun(alloc, live, clients, options)),
            Err(memory) => Err((memory, live)),
        }
    }

    /// Every connection has a key that is less.
    pub fn keys(&self) -> usize
        ensures below { (key : ℕ) → get self.now.clients.slots key ≢ None → key < result }
        ensures count { result ≡ self.now.clients.slots.capacity }
    {
        self.clients.slots.capacity()
    }

    /// From now on the file is read by this recorder, as [`LiveHub::read_by`] has it: nothing more is recorded into it.
    pub fn read_by(&mut self, recorder: Recorder<D>) -> Result<Recorder<D>, D>
        ensures before { IfOk result (λ before. self.old.live.hub.file ≡ Some before) }
        ensures lost { IfErr result (λ disk. self.old.live.hub.file ≡ None) }
        ensures rest { self.new ≡ record self.old { live = self.new.live } }
        ensures shown { (machine : HubState) → Shows D.Disk self.old.live.hub machine → is_settled self.old.live.hub.file ≡ true
            → recorder.file.failed ≡ true → D.is_honest recorder.file.disk
            → committed D.state recorder ≡ machine.committed
            → EachImage (D.state recorder.file.disk) (CommitsTo machine.committed)
            → Shows D.Disk self.new.live.hub (only_read recorder machine) }
    {
        self.live.read_by(recorder)
    }

    /// Another file is recorded and served from now on. The hub of the one before is returned. Let who reads it leave first.
    pub fn change(&mut self, live: LiveHub<D>) -> LiveHub<D>
        ensures before { result ≡ self.old.live }
        ensures now { self.new.live ≡ live }
        ensures clients { self.new.clients ≡ self.old.clients }
        ensures air { self.new.air ≡ self.old.air }
        ensures anew { self.new.reopened ≡ None }
        ensures woken { self.new.waking ≡ anew self.old.waking }
        ensures rest { self.new ≡ record self.old { live = live; reopened = None; waking = self.new.waking } }
    {
        let before = std::mem::replace(&mut self.live, live);
        self.reopened = None;
        self.waking = anew(self.waking);
        before
    }

    /// Where the link that is open in the file is joined, if its beginning is known.
    pub fn place(&self) -> Option<JoinPlace>
        ensures { result ≡ place_to_join self.now.live.places.boundaries }
    {
        self.live.place()
    }

    /// Since when the station comes to its end, if it does.
    pub fn ending(&self) -> Option<u64>
        ensures { result ≡ self.now.ending }
    {
        self.ending
    }

    /// Whether something has come of the source that isn't recorded yet.
    pub fn has_come(&self) -> bool
        ensures none { self.now.air ≡ None → result ≡ false }
        ensures some { (air : OnAirOf) → self.now.air ≡ Some air → (result ≡ true) ↔ HasCome air }
    {
        match &self.air {
            Some(air) => air.has_come(),
            None => false,
        }
    }

    /// Keeps what waits. It answers as the file does.
    pub fn keep(&mut self) -> Reply
        ensures replied { RepliesIn self.old.live.hub.file RecordOf.Flush result self.new.live.hub.file }
        ensures rest { self.new ≡ record self.old { live = self.new.live } }
        ensures records { RecordsLive D.Disk self.old.live self.new.live }
    {
        self.live.run_flush()
    }

    /// After the file was changed: the link that the source has open begins again in it, under serials that are none of
    /// these, and that is kept with what waits. It returns what was answered. If something of the source is lost, that is
    /// noted. After a fault not all of the link may be begun.
    pub fn begin_again(&mut self, serials: &[u32], is_lost: bool) -> Result<Answered, RecordFault>
        ensures begins { (air : OnAirOf) (answered : AnsweredOf) (before : Progress D) → self.old.air ≡ Some air
            → IsIn D.Disk before self.old.live.hub → result ≡ Ok answered
            → BeginsAgain D.Disk serials.now is_lost answered air self.new.air self.new.live before }
        ensures clients { self.new.clients ≡ self.old.clients }
        ensures records { RecordsLive D.Disk self.old.live self.new.live }
        ensures none { self.old.air ≡ None → (result ≡ Ok nothing) × (self.new ≡ self.old) }
        ensures faults { IfErr result (λ fault. (fault ≡ RecordFault.Memory) ⊎ (fault ≡ RecordFault.Write)) }
        ensures rest { self.new ≡ record self.old { live = self.new.live; air = self.new.air } }
    {
        let Some(air) = &mut self.air else {
            return Ok(Answered::nothing());
        };
        note_loss(air, is_lost);
        let ran = match air.resume(&[], serials) {
            Ok(commands) => run_all(&mut self.live, commands.as_slice(), &mut io::sink()),
            Err(_) => return Err(RecordFault::Memory),
        };
        self.live.run_flush();
        match ran {
            Ok(answered) => Ok(answered),
            Err(_) => Err(RecordFault::Write),
        }
    }

    /// Whether this connection reads the file: it has a session there, whatever it waits for, or hears what is recorded.
    pub fn reads_file(&self, key: usize) -> bool
        ensures { (result ≡ true) ↔ ReadsFile (get self.now.clients.slots key) }
    {
        match self.clients.slots.get(key) {
            Some(client) => client.session.is_some() || hears(client.stage),
            None => false,
        }
    }

    /// What has come of the head of this connection, if it hasn't said yet what it asks for. None if it has a spare place.
    pub fn asking(&self, key: usize) -> Option<&[u8]>
        ensures asks { IfSome result (λ head. (client : ClientState) × (get self.now.clients.slots key ≡ Some client)
            × (client.stage ≡ Stage.Asking) × (head.now ≡ client.head) × (is_spare key self.now.spare.items ≡ false)) }
        ensures each { (client : ClientState) → get self.now.clients.slots key ≡ Some client → client.stage ≡ Stage.Asking
            → is_spare key self.now.spare.items ≡ false → IsSome result }
    {
        if self.is_spare(key) {
            return None;
        }
        let client = self.clients.slots.get(key)?;
        match client.stage {
            Stage::Asking => Some(client.head.as_slice()),
            _ => None,
        }
    }

    /// Bytes of the head of this connection have come, and it isn't known yet by whom it is answered: they are kept behind
    /// what has come before. If memory for them is refused, the connection is cut.
    pub fn hold(&mut self, key: usize, bytes: &[u8])
        ensures held { (client : ClientState) → get self.old.clients.slots key ≡ Some client → (after : ClientState)
            × (get self.new.clients.slots key ≡ Some after) × HoldsBack bytes.now client after }
        ensures none { get self.old.clients.slots key ≡ None → self.new ≡ self.old }
        ensures others { OthersStay key self.old.clients self.new.clients }
        ensures rest { self.new ≡ record self.old { clients = self.new.clients } }
    {
        if let Some(client) = self.clients.slots.get_mut(key) {
            hold_back(client, bytes);
        }
    }

    /// Whether this connection hears what is recorded, and has got all of it.
    pub fn has_heard_all(&self, key: usize) -> bool
        ensures some { (machine : HubState) (client : ClientState) → Shows D.Disk self.now.live.hub machine
            → get self.now.clients.slots key ≡ Some client → result ≡ has_got_all (length machine.committed) client }
        ensures none { get self.now.clients.slots key ≡ None → result ≡ false }
    {
        match self.clients.slots.get(key) {
            Some(client) => self.live.has_got_all(client),
            None => false,
        }
    }

    /// This connection leaves, for another station over the file that it reads. Its session stays.
    pub fn leave(&mut self, key: usize) -> Option<Client>
        ensures left { result ≡ get self.old.clients.slots key }
        ensures gone { get self.new.clients.slots key ≡ None }
        ensures others { OthersStay key self.old.clients self.new.clients }
        ensures none { get self.old.clients.slots key ≡ None → self.new ≡ self.old }
        ensures spare { result ≢ None → self.new.spare.items ≡ filter (is_another key) self.old.spare.items }
        ensures live { self.new.live ≡ self.old.live }
        ensures air { self.new.air ≡ self.old.air }
        ensures rest { self.new ≡ record self.old { clients = self.new.clients; spare = self.new.spare } }
    {
        let client = self.clients.slots.try_remove(key)?;
        leave(&mut self.spare, key);
        Some(client)
    }

    /// A connection comes from another station. It gets the key that is returned, and a turn. After `Memory` it is gone.
    pub fn enter(&mut self, client: Client) -> Result<usize, Memory>
        ensures none { IfOk result (λ key. get self.old.clients.slots key ≡ None) }
        ensures some { IfOk result (λ key. (clients : ClientsOf) × (get clients.slots key ≡ Some (come client))
            × HasTurn key (arrived client) clients self.new.clients) }
        ensures others { IfOk result (λ key. OthersStay key self.old.clients self.new.clients) }
        ensures err { OnErr result ((key : ℕ) → get self.new.clients.slots key ≡ get self.old.clients.slots key) }
        ensures live { self.new.live ≡ self.old.live }
        ensures air { self.new.air ≡ self.old.air }
        ensures rest { self.new ≡ record self.old { clients = self.new.clients } }
    {
        let mut client = client;
        arrive(&mut client);
        let key = insert(&mut self.clients.slots, client)?;
        self.wake(key, true, true);
        Ok(key)
    }

    /// This connection goes on with what it hears in another file, in which the link goes on that it has heard so far: let it
    /// leave for that next. `streams` are those that are open at the end of this file, and `next` those that go on with
    /// them, in order, as [`Listener::go_on`] has it. After `Memory` it is as it was.
    pub fn hear_on(
        &mut self,
        key: usize,
        begun: u64,
        streams: &[StreamState],
        next: &[StreamState],
    ) -> Result<(), Memory>
        ensures on { OnOk result ((client : ClientState) (heard : ListenerState) → get self.old.clients.slots key ≡ Some client
            → client.listener ≡ Some heard → (after : ClientState) × (get self.new.clients.slots key ≡ Some after)
            × HearsOn begun streams.now next.now heard client after) }
        ensures none { get self.old.clients.slots key ≡ None → (result ≡ Ok tt) × (self.new ≡ self.old) }
        ensures same { OnErr result ((other : ℕ) → get self.new.clients.slots other ≡ get self.old.clients.slots other) }
        ensures others { OthersStay key self.old.clients self.new.clients }
        ensures rest { self.new ≡ record self.old { clients = self.new.clients } }
    {
        match self.clients.slots.get_mut(key) {
            Some(client) => go_on(self.alloc, client, begun, streams, next),
            None => Ok(()),
        }
    }

    /// This connection hears the file from its first page on, as it is.
    pub fn hear_anew(&mut self, key: usize)
        ensures hears { (client : ClientState) → get self.old.clients.slots key ≡ Some client → (after : ClientState)
            × (get self.new.clients.slots key ≡ Some after) × HearsAnew client after }
        ensures none { get self.old.clients.slots key ≡ None → self.new ≡ self.old }
        ensures others { OthersStay key self.old.clients self.new.clients }
        ensures live { self.new.live ≡ self.old.live }
        ensures air { self.new.air ≡ self.old.air }
        ensures rest { self.new ≡ record self.old { clients = self.new.clients } }
    {
        if let Some(client) = self.clients.slots.get_mut(key) {
            hear_by(client, Listener::wait(self.alloc, 0));
        }
    }
}
