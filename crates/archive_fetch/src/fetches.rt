//! Connections that get a file, or a text.
ghost use Rattle.std.specs.Prelude.{◌≡◌, ◌≢◌, ◌++◌, ◌∷◌, ◌≤◌, [], ℕ, None, Some, false, true, length, take, IfOk, IfSome, IsOk, IsSome, OnErr};
ghost use Rattle.slab.specs.Slab.{HasRoomFor, SameValues, get, slab_len};
ghost use Rattle.serve_clients.specs.Client.{ClientState, HasWritten, after_of, given, moved_if, with_line, with_stage};
ghost use Rattle.serve_clients.specs.Clients.{AllStay, AreLookedAt, HasTurn, OthersStay, goes_again, told_by, turned_by, unread_by, unwritten_by};
ghost use Rattle.serve_clients.specs.Kinds.{kinds_in};
ghost use Rattle.serve_clients.specs.Line.{moved_on, taken_off};
ghost use Rattle.serve_clients.specs.declared.client.Stage.TheVariants.{Cut as CutOf, Ending as EndingOf, Hearing as HearingOf, Sending as SendingOf};
ghost use Rattle.archive_fetch.specs.Bodies.{BodyState, HasPulled};
ghost use Rattle.serve_live.specs.Listening.{has_heard_all};
ghost use Rattle.archive_fetch.specs.Hearing.{Ends, Grows, HeardState, Hears, MeetsNext};
ghost use Rattle.archive_fetch.specs.Fetching.{IsSupplied, is_read, without_peer};
ghost use Rattle.archive_fetch.specs.declared.fetches.Content.TheVariants.{File as FileOf, Given as GivenOf, Heard as HeardOf};

use crate::bodies::Body;
use crate::heads::Memory;
use crate::hearing::Heard;
use crate::meetings::Meeting;
use disk_model::Disk;
use serve_clients::{After, Client, Clients, Kinds, Line, Stage, Trouble};
use serve_texts::Visit;
use slab::Slab;
use std::alloc::Global;

/// What follows the head of an answer.
#[derive(Drop)]
pub enum Content<D: Disk> {
    /// Bytes of a file.
    File(Body<D>),
    /// What is heard of files from a time on.
    Heard(Heard<D>),
    /// What is given with `supply`, up to its end.
    Given,
}

/// Connections that get an answer, each under its key, and what is left of the files that they get. The session of a
/// connection is the key of its content.
#[derive(Drop)]
pub struct Fetches<D: Disk> {
    clients: Clients,
    contents: Slab<Content<D>>,
}

/// Gives the first of the bytes that couldn't be written before, and returns how many.
fn give_again(client: &Client, buffer: &mut [u8]) -> usize
    ensures bytes { take result buffer.new ≡ take (length buffer.old) client.now.unsent }
    ensures within { result ≤ length buffer.new }
{
    let unsent = client.unsent();
    let count = unsent.len().min(buffer.len());
    buffer[..count].copy_from_slice(&unsent[..count]);
    count
}

/// Gives the next bytes of the file. With the last of them the answer is at its end; after a fault of the file the
/// connection is cut.
fn pull<D: Disk>(client: &mut Client, body: &mut Body<D>, buffer: &mut [u8]) -> usize
    ensures pulled { HasPulled D.Disk (length buffer.old) client.old body.old result buffer.new client.new body.new }
    ensures within { result ≤ length buffer.new }
{
    match body.pull(buffer) {
        Ok(count) => {
            if body.left() == 0 {
                client.go_to(Stage::Ending);
            }
            count
        }
        Err(_) => {
            client.go_to(Stage::Cut);
            0
        }
    }
}

/// Gives the next bytes that are heard. After a fault of the file the connection is cut.
fn hear<D: Disk>(client: &mut Client, heard: &mut Heard<D>, buffer: &mut [u8]) -> usize
    ensures hears { Hears D.Disk (length buffer.old) client.old heard.old result buffer.new client.new heard.new }
    ensures within { result ≤ length buffer.new }
{
    match heard.pull(buffer) {
        Ok(count) => count,
        Err(_) => {
            client.go_to(Stage::Cut);
            0
        }
    }
}

/// More of the file that is heard may be committed: up to this place. After a fault of the file the connection is cut.
fn grow<D: Disk>(client: &mut Client, heard: &mut Heard<D>, committed: u64)
    ensures { Grows D.Disk committed client.old heard.old client.new heard.new }
{
    match heard.grows(committed) {
        Ok(()) => {}
        Err(_) => client.go_to(Stage::Cut),
    }
}

/// The file that is heard has ended. If its end can't be found the connection is cut.
fn end_file<D: Disk>(client: &mut Client, heard: &mut Heard<D>)
    ensures { Ends D.Disk client.old heard.old client.new heard.new }
{
    match heard.has_ended() {
        Ok(()) => {}
        Err(_) => client.go_to(Stage::Cut),
    }
}

/// What a connection gets, of which more may be committed if it is a file that is heard.
fn grown<D: Disk>(client: &mut Client, content: Content<D>, committed: u64) -> Content<D>
    ensures grows { (heard : HeardState D) → content ≡ HeardOf heard → (rest : HeardState D)
        × Grows D.Disk committed client.old heard client.new rest × (result ≡ HeardOf rest) }
    ensures other { ((heard : HeardState D) → content ≢ HeardOf heard) → (client.new ≡ client.old) × (result ≡ content) }
{
    match content {
        Content::Heard(heard) => {
            let mut heard = heard;
            grow(client, &mut heard, committed);
            Content::Heard(heard)
        }
        content => content,
    }
}

/// What a connection gets, which has ended if it is a file that is heard.
fn ended<D: Disk>(client: &mut Client, content: Content<D>) -> Content<D>
    ensures ends { (heard : HeardState D) → content ≡ HeardOf heard → (rest : HeardState D)
        × Ends D.Disk client.old heard client.new rest × (result ≡ HeardOf rest) }
    ensures other { ((heard : HeardState D) → content ≢ HeardOf heard) → (client.new ≡ client.old) × (result ≡ content) }
{
    match content {
        Content::Heard(heard) => {
            let mut heard = heard;
            end_file(client, &mut heard);
            Content::Heard(heard)
        }
        content => content,
    }
}

/// Gives the next bytes of what a connection gets, and what is left of that.
fn give_of<D: Disk>(
    client: &mut Client,
    content: Content<D>,
    buffer: &mut [u8],
) -> (usize, Content<D>)
    ensures pulls { (body : BodyState D) → client.old.stage ≡ SendingOf → content ≡ FileOf body
        → (rest : BodyState D) × HasPulled D.Disk (length buffer.old) client.old body result.0 buffer.new client.new rest
        × (result.1 ≡ FileOf rest) }
    ensures hears { (heard : HeardState D) → client.old.stage ≡ HearingOf → content ≡ HeardOf heard
        → (rest : HeardState D) × Hears D.Disk (length buffer.old) client.old heard result.0 buffer.new client.new rest
        × (result.1 ≡ HeardOf rest) }
    ensures within { result.0 ≤ length buffer.new }
{
    match (client.stage, content) {
        (Stage::Sending, Content::File(body)) => {
            let mut body = body;
            let count = pull(client, &mut body, buffer);
            (count, Content::File(body))
        }
        (Stage::Hearing, Content::Heard(heard)) => {
            let mut heard = heard;
            let count = hear(client, &mut heard, buffer);
            (count, Content::Heard(heard))
        }
        (_, content) => (0, content),
    }
}

/// Gives the next bytes to be written: those that couldn't be written before, or the next ones of what follows the head.
fn give<D: Disk + Drop>(
    client: &mut Client,
    contents: &mut Slab<Content<D>>,
    buffer: &mut [u8],
) -> usize
    ensures again { client.old.unsent ≢ [] → (client.new ≡ client.old) × (take result buffer.new ≡ take (length buffer.old) client.old.unsent) }
    ensures pulls { (id : ℕ) (body : BodyState D) → client.old.unsent ≡ [] → client.old.stage ≡ SendingOf → client.old.session ≡ Some id
        → get contents.old id ≡ Some (FileOf body)
        → (rest : BodyState D) × HasPulled D.Disk (length buffer.old) client.old body result buffer.new client.new rest
        × (get contents.new id ≡ Some (FileOf rest)) }
    ensures hears { (id : ℕ) (heard : HeardState D) → client.old.unsent ≡ [] → client.old.stage ≡ HearingOf → client.old.session ≡ Some id
        → get contents.old id ≡ Some (HeardOf heard)
        → (rest : HeardState D) × Hears D.Disk (length buffer.old) client.old heard result buffer.new client.new rest
        × (get contents.new id ≡ Some (HeardOf rest)) }
    ensures others { (other : ℕ) → client.old.session ≢ Some other → get contents.new other ≡ get contents.old other }
    ensures within { result ≤ length buffer.new }
{
    if !client.unsent().is_empty() {
        return give_again(client, buffer);
    }
    let Some(id) = client.session else {
        return 0;
    };
    let Some(content) = contents.get_mut(id as usize) else {
        return 0;
    };
    let taken = std::mem::replace(content, Content::Given);
    let (count, left) = give_of(client, taken, buffer);
    *content = left;
    count
}

/// These bytes are the next ones for a connection. If memory for them is refused, it is cut.
fn supply_to(client: &mut Client, bytes: &[u8])
    ensures { IsSupplied bytes.now client.old client.new }
{
    if client.tell(bytes).is_err() {
        client.go_to(Stage::Cut);
    }
}

/// A connection will send no more: it is cut if its answer has no end, or if it has got it all.
fn end_peer(client: &mut Client)
    ensures { client.new ≡ without_peer client.old }
{
    client.stands(client.line.read_failed(Trouble::Blocked));
    match client.stage {
        Stage::Closing | Stage::Hearing => client.go_to(Stage::Cut),
        _ => {}
    }
}

/// The stage of a connection that gets this.
fn stage_of<D: Disk>(content: &Content<D>) -> Stage
    ensures file { (body : BodyState D) → content.now ≡ FileOf body → result ≡ SendingOf }
    ensures heard { (heard : HeardState D) → content.now ≡ HeardOf heard → result ≡ HearingOf }
    ensures given { content.now ≡ GivenOf → result ≡ SendingOf }
{
    match content {
        Content::File(_) => Stage::Sending,
        Content::Heard(_) => Stage::Hearing,
        Content::Given => Stage::Sending,
    }
}

/// Keeps a value under a key that is free.
fn keep<T: Drop>(slots: &mut Slab<T>, value: T) -> Result<usize, Memory>
    ensures none { IfOk result (λ key. get slots.old key ≡ None) }
    ensures some { IfOk result (λ key. get slots.new key ≡ Some value) }
    ensures others { IfOk result (λ key. (other : ℕ) → other ≢ key → get slots.new other ≡ get slots.old other) }
    ensures err { OnErr result ((key : ℕ) → get slots.new key ≡ get slots.old key) }
    ensures succeeds { HasRoomFor slots.old 1 → IsOk result }
{
    match slots.insert(value) {
        Ok(key) => Ok(key),
        Err(_) => Err(Memory),
    }
}

impl<D: Disk + Drop> Fetches<D> {
    /// No connection.
    pub fn new(alloc: Global) -> Result<Fetches<D>, Memory>
        ensures none { IfOk result (λ fetches. (key : ℕ) → get fetches.clients.slots key ≡ None) }
        ensures contents { IfOk result (λ fetches. (id : ℕ) → get fetches.contents id ≡ None) }
    {
        Ok(Fetches {
            clients: Clients::new(alloc, 0)?,
            contents: Slab::new(alloc),
        })
    }

    /// How many connections there are.
    pub fn connections(&self) -> usize
        ensures { result ≡ slab_len self.now.clients.slots }
    {
        self.clients.slots.len()
    }

    /// How many connections there are of each kind.
    pub fn kinds(&self) -> Kinds
        ensures { result ≡ kinds_in self.now.clients.slots }
    {
        self.clients.kinds()
    }

    /// A connection comes that gets this text, and then what follows it, if something does. It gets the key that is
    /// returned, and a turn. After `Memory` it is gone.
    pub fn enter(
        &mut self,
        client: Client,
        text: &[u8],
        content: Option<Content<D>>,
        now: u64,
    ) -> Result<usize, Memory>
        ensures none { IfOk result (λ key. get self.old.clients.slots key ≡ None) }
        ensures others { IfOk result (λ key. OthersStay key self.old.clients self.new.clients) }
        ensures text { IfOk result (λ key. (after : ClientState) × (get self.new.clients.slots key ≡ Some after) × (after.unsent ≡ client.unsent ++ text.now)
            × (after.since ≡ now)) }
        ensures file { (body : BodyState D) → content ≡ Some (FileOf body) → IfOk result (λ key. (after : ClientState) × (id : ℕ)
            × (get self.new.clients.slots key ≡ Some after) × (after.stage ≡ SendingOf) × (after.session ≡ Some id)
            × (get self.new.contents id ≡ Some (FileOf body))) }
        ensures heard { (heard : HeardState D) → content ≡ Some (HeardOf heard) → IfOk result (λ key. (after : ClientState) × (id : ℕ)
            × (get self.new.clients.slots key ≡ Some after) × (after.stage ≡ HearingOf) × (after.session ≡ Some id)
            × (get self.new.contents id ≡ Some (HeardOf heard))) }
        ensures given { content ≡ Some GivenOf → IfOk result (λ key. (after : ClientState) × (id : ℕ)
            × (get self.new.clients.slots key ≡ Some after) × (after.stage ≡ SendingOf) × (after.session ≡ Some id)
            × (get self.new.contents id ≡ Some GivenOf)) }
        ensures kept { IfOk result (λ key. (id : ℕ) → IsSome (get self.old.contents id) → get self.new.contents id ≡ get self.old.contents id) }
        ensures ends { content ≡ None → IfOk result (λ key. (after : ClientState) × (get self.new.clients.slots key ≡ Some after)
            × (after.stage ≡ EndingOf) × (self.new.contents ≡ self.old.contents)) }
        ensures err { OnErr result ((key : ℕ) → (get self.new.clients.slots key ≡ get self.old.clients.slots key)
            × (get self.new.contents key ≡ get self.old.contents key)) }
    {
        let mut client = client;
        client.stands(Line::new());
        client.since = now;
        client.tell(text)?;
        match content {
            Some(content) => {
                let stage = stage_of(&content);
                let id = keep(&mut self.contents, content)?;
                client.connected(id as u64, stage);
            }
            None => {
                client.head.clear();
                client.session = None;
                client.go_to(Stage::Ending);
            }
        }
        self.put(client)
    }

    /// A connection gets a key that is free, and a turn. Without memory for it its content is let go.
    fn put(&mut self, client: Client) -> Result<usize, Memory>
        ensures none { IfOk result (λ key. get self.old.clients.slots key ≡ None) }
        ensures some { IfOk result (λ key. (after : ClientState) × (get self.new.clients.slots key ≡ Some after) × (after.unsent ≡ client.unsent)
            × (after.stage ≡ client.stage) × (after.session ≡ client.session) × (after.since ≡ client.since)) }
        ensures others { IfOk result (λ key. OthersStay key self.old.clients self.new.clients) }
        ensures contents { IfOk result (λ key. self.new.contents ≡ self.old.contents) }
        ensures gone { OnErr result ((id : ℕ) → client.session ≡ Some id → get self.new.contents id ≡ None) }
        ensures kept { OnErr result ((other : ℕ) → client.session ≢ Some other → get self.new.contents other ≡ get self.old.contents other) }
        ensures err { OnErr result ((key : ℕ) → get self.new.clients.slots key ≡ get self.old.clients.slots key) }
        ensures succeeds { HasRoomFor self.old.clients.slots 1 → IsOk result }
    {
        let session = client.session;
        match keep(&mut self.clients.slots, client) {
            Ok(key) => {
                self.clients.wake(key, true, true);
                Ok(key)
            }
            Err(memory) => {
                self.let_go(session);
                Err(memory)
            }
        }
    }

    /// The content of this session is let go.
    fn let_go(&mut self, session: Option<u64>)
        ensures gone { (id : ℕ) → session ≡ Some id → get self.new.contents id ≡ None }
        ensures contents { (other : ℕ) → session ≢ Some other → get self.new.contents other ≡ get self.old.contents other }
        ensures clients { self.new.clients ≡ self.old.clients }
    {
        if let Some(id) = session {
            let _ = self.contents.try_remove(id as usize);
        }
    }

    /// The system has told that this connection may have bytes, or room for some. It gets a turn.
    pub fn wake(&mut self, key: usize, readable: bool, writable: bool)
        ensures turn { (client : ClientState) → get self.old.clients.slots key ≡ Some client
            → HasTurn key (told_by readable writable client) self.old.clients self.new.clients }
        ensures none { get self.old.clients.slots key ≡ None → self.new ≡ self.old }
        ensures others { OthersStay key self.old.clients self.new.clients }
        ensures contents { self.new.contents ≡ self.old.contents }
    {
        self.clients.wake(key, readable, writable);
    }

    /// How many connections have a turn.
    pub fn turns(&self) -> usize
        ensures { result ≡ self.now.clients.turns.len }
    {
        self.clients.turns()
    }

    /// The connection whose turn it is. It may have been closed since it got the turn.
    pub fn next_turn(&mut self) -> Option<usize>
        ensures none { result ≡ None → (self.old.clients.turns.items ≡ []) × AllStay self.old.clients self.new.clients }
        ensures turn { IfSome result (λ key. self.old.clients.turns.items ≡ key ∷ self.new.clients.turns.items) }
        ensures begins { IfSome result (λ key. (client : ClientState) → get self.old.clients.slots key ≡ Some client
            → get self.new.clients.slots key ≡ Some (with_line (taken_off client.line) client)) }
        ensures others { IfSome result (λ key. OthersStay key self.old.clients self.new.clients) }
        ensures contents { self.new.contents ≡ self.old.contents }
    {
        self.clients.next_turn()
    }

    /// Whether bytes of this connection are to be read: they are passed over.
    pub fn reads(&self, key: usize) -> bool
        ensures some { (client : ClientState) → get self.now.clients.slots key ≡ Some client
            → result ≡ is_read client }
        ensures none { get self.now.clients.slots key ≡ None → result ≡ false }
    {
        match self.clients.slots.get(key) {
            Some(client) => client.line.readable && client.stage != Stage::Cut,
            None => false,
        }
    }

    /// Whether it may have room for bytes.
    pub fn writes(&self, key: usize) -> bool
        ensures some { (client : ClientState) → get self.now.clients.slots key ≡ Some client → result ≡ client.line.writable }
        ensures none { get self.now.clients.slots key ≡ None → result ≡ false }
    {
        self.clients.writes(key)
    }

    /// Bytes of this connection were read, and are passed over.
    pub fn passed(&mut self, key: usize)
        ensures passed { (client : ClientState) → get self.old.clients.slots key ≡ Some client
            → get self.new.clients.slots key ≡ Some (with_line (moved_on client.line) client) }
        ensures none { get self.old.clients.slots key ≡ None → self.new ≡ self.old }
        ensures others { OthersStay key self.old.clients self.new.clients }
        ensures contents { self.new.contents ≡ self.old.contents }
    {
        if let Some(client) = self.clients.slots.get_mut(key) {
            let line = client.line.moves();
            client.stands(line);
        }
    }

    /// This connection will send no more. It gets its answer, unless that has no end.
    pub fn peer_ended(&mut self, key: usize)
        ensures ended { (client : ClientState) → get self.old.clients.slots key ≡ Some client
            → get self.new.clients.slots key ≡ Some (without_peer client) }
        ensures none { get self.old.clients.slots key ≡ None → self.new ≡ self.old }
        ensures others { OthersStay key self.old.clients self.new.clients }
        ensures contents { self.new.contents ≡ self.old.contents }
    {
        if let Some(client) = self.clients.slots.get_mut(key) {
            end_peer(client);
        }
    }

    /// Nothing could be read.
    pub fn read_failed(&mut self, key: usize, trouble: Trouble)
        ensures failed { (client : ClientState) → get self.old.clients.slots key ≡ Some client
            → get self.new.clients.slots key ≡ Some (unread_by trouble client) }
        ensures none { get self.old.clients.slots key ≡ None → self.new ≡ self.old }
        ensures others { OthersStay key self.old.clients self.new.clients }
        ensures contents { self.new.contents ≡ self.old.contents }
    {
        self.clients.read_failed(key, trouble);
    }

    /// The number of the file that this connection hears, if it does.
    pub fn file_heard(&self, key: usize) -> Option<u64>
        ensures heard { (client : ClientState) (id : ℕ) (heard : HeardState D) → get self.now.clients.slots key ≡ Some client
            → client.stage ≡ HearingOf → client.session ≡ Some id → get self.now.contents id ≡ Some (HeardOf heard) → result ≡ Some heard.file }
        ensures only { IfSome result (λ file. (client : ClientState) × (id : ℕ) × (heard : HeardState D) × (get self.now.clients.slots key ≡ Some client)
            × (client.stage ≡ HearingOf) × (client.session ≡ Some id) × (get self.now.contents id ≡ Some (HeardOf heard)) × (heard.file ≡ file)) }
    {
        let client = self.clients.slots.get(key)?;
        let id = client.session?;
        match (client.stage, self.contents.get(id as usize)) {
            (Stage::Hearing, Some(Content::Heard(heard))) => Some(heard.file()),
            _ => None,
        }
    }

    /// The file that this connection hears may have grown: its committed bytes end there. After a fault of the file the
    /// connection is cut.
    pub fn grows(&mut self, key: usize, committed: u64)
        ensures grows { (client : ClientState) (id : ℕ) (heard : HeardState D) → get self.old.clients.slots key ≡ Some client
            → client.session ≡ Some id → get self.old.contents id ≡ Some (HeardOf heard)
            → (after : ClientState) × (rest : HeardState D) × Grows D.Disk committed client heard after rest
            × (get self.new.clients.slots key ≡ Some after) × (get self.new.contents id ≡ Some (HeardOf rest)) }
        ensures contents { (client : ClientState) (other : ℕ) → get self.old.clients.slots key ≡ Some client → client.session ≢ Some other
            → get self.new.contents other ≡ get self.old.contents other }
        // What isn't heard stays as it is, and so does who gets it.
        ensures unheard { (client : ClientState) → get self.old.clients.slots key ≡ Some client
            → ((id : ℕ) (heard : HeardState D) → client.session ≡ Some id → get self.old.contents id ≢ Some (HeardOf heard))
            → (get self.new.clients.slots key ≡ Some client) × SameValues self.old.contents self.new.contents }
        ensures none { get self.old.clients.slots key ≡ None → self.new ≡ self.old }
        ensures others { OthersStay key self.old.clients self.new.clients }
    {
        let Some(client) = self.clients.slots.get_mut(key) else {
            return;
        };
        let Some(id) = client.session else {
            return;
        };
        if let Some(content) = self.contents.get_mut(id as usize) {
            let taken = std::mem::replace(content, Content::Given);
            *content = grown(client, taken, committed);
        }
    }

    /// The file that this connection hears has ended. If its end can't be found the connection is cut.
    pub fn file_ended(&mut self, key: usize)
        ensures ends { (client : ClientState) (id : ℕ) (heard : HeardState D) → get self.old.clients.slots key ≡ Some client
            → client.session ≡ Some id → get self.old.contents id ≡ Some (HeardOf heard)
            → (after : ClientState) × (rest : HeardState D) × Ends D.Disk client heard after rest
            × (get self.new.clients.slots key ≡ Some after) × (get self.new.contents id ≡ Some (HeardOf rest)) }
        ensures contents { (client : ClientState) (other : ℕ) → get self.old.clients.slots key ≡ Some client → client.session ≢ Some other
            → get self.new.contents other ≡ get self.old.contents other }
        // What isn't heard stays as it is, and so does who gets it.
        ensures unheard { (client : ClientState) → get self.old.clients.slots key ≡ Some client
            → ((id : ℕ) (heard : HeardState D) → client.session ≡ Some id → get self.old.contents id ≢ Some (HeardOf heard))
            → (get self.new.clients.slots key ≡ Some client) × SameValues self.old.contents self.new.contents }
        ensures none { get self.old.clients.slots key ≡ None → self.new ≡ self.old }
        ensures others { OthersStay key self.old.clients self.new.clients }
    {
        let Some(client) = self.clients.slots.get_mut(key) else {
            return;
        };
        let Some(id) = client.session else {
            return;
        };
        if let Some(content) = self.contents.get_mut(id as usize) {
            let taken = std::mem::replace(content, Content::Given);
            *content = ended(client, taken);
        }
    }

    /// The file that this connection hears has ended, and meets the next one: it is heard up to there. After a fault of the
    /// file the connection is cut.
    pub fn file_meets(&mut self, key: usize, meeting: &Meeting)
        ensures meets { (client : ClientState) (id : ℕ) (heard : HeardState D) → get self.old.clients.slots key ≡ Some client
            → client.session ≡ Some id → get self.old.contents id ≡ Some (HeardOf heard)
            → (after : ClientState) × (rest : HeardState D) × MeetsNext D.Disk meeting.now client heard after rest
            × (get self.new.clients.slots key ≡ Some after) × (get self.new.contents id ≡ Some (HeardOf rest)) }
        ensures contents { (client : ClientState) (other : ℕ) → get self.old.clients.slots key ≡ Some client → client.session ≢ Some other
            → get self.new.contents other ≡ get self.old.contents other }
        ensures none { get self.old.clients.slots key ≡ None → self.new ≡ self.old }
        ensures others { OthersStay key self.old.clients self.new.clients }
    {
        self.grows(key, meeting.end);
    }

    /// What this connection hears of a file, if it does.
    pub fn heard(&self, key: usize) -> Option<&Heard<D>>
        ensures only { IfSome result (λ heard. (client : ClientState) × (id : ℕ) × (get self.now.clients.slots key ≡ Some client)
            × (client.session ≡ Some id) × (get self.now.contents id ≡ Some (HeardOf heard.now))) }
        ensures each { (client : ClientState) (id : ℕ) (heard : HeardState D) → get self.now.clients.slots key ≡ Some client
            → client.session ≡ Some id → get self.now.contents id ≡ Some (HeardOf heard) → IsSome result }
    {
        let client = self.clients.slots.get(key)?;
        let id = client.session?;
        match self.contents.get(id as usize) {
            Some(Content::Heard(heard)) => Some(heard),
            _ => None,
        }
    }

    /// Whether this connection hears a file, and has got all that is committed of it.
    pub fn has_heard_all(&self, key: usize) -> bool
        ensures heard { (client : ClientState) (id : ℕ) (heard : HeardState D) → get self.now.clients.slots key ≡ Some client
            → client.stage ≡ HearingOf → client.session ≡ Some id → get self.now.contents id ≡ Some (HeardOf heard) → client.unsent ≡ []
            → result ≡ has_heard_all heard.source.end heard.listener }
        ensures only { result ≡ true → (client : ClientState) × (id : ℕ) × (heard : HeardState D) × (get self.now.clients.slots key ≡ Some client)
            × (client.unsent ≡ []) × (client.stage ≡ HearingOf) × (client.session ≡ Some id) × (get self.now.contents id ≡ Some (HeardOf heard)) }
    {
        let Some(client) = self.clients.slots.get(key) else {
            return false;
        };
        let Some(id) = client.session else {
            return false;
        };
        match (client.stage, self.contents.get(id as usize)) {
            (Stage::Hearing, Some(Content::Heard(heard))) => client.unsent().is_empty()
                && heard.has_heard_all(),
            _ => false,
        }
    }

    /// This connection hears another file from now on.
    pub fn goes_on(&mut self, key: usize, next: Heard<D>)
        ensures hears { (client : ClientState) (id : ℕ) → get self.old.clients.slots key ≡ Some client → client.session ≡ Some id
            → IsSome (get self.old.contents id) → get self.new.contents id ≡ Some (HeardOf next) }
        ensures contents { (client : ClientState) (other : ℕ) → get self.old.clients.slots key ≡ Some client → client.session ≢ Some other
            → get self.new.contents other ≡ get self.old.contents other }
        ensures none { get self.old.clients.slots key ≡ None → self.new ≡ self.old }
        ensures clients { self.new.clients ≡ self.old.clients }
    {
        let Some(client) = self.clients.slots.get(key) else {
            return;
        };
        let Some(id) = client.session else {
            return;
        };
        if let Some(content) = self.contents.get_mut(id as usize) {
            *content = Content::Heard(next);
        }
    }

    /// What this connection gets has come to its end.
    pub fn ends(&mut self, key: usize)
        ensures ends { (client : ClientState) → get self.old.clients.slots key ≡ Some client
            → get self.new.clients.slots key ≡ Some (with_stage EndingOf client) }
        ensures none { get self.old.clients.slots key ≡ None → self.new ≡ self.old }
        ensures others { OthersStay key self.old.clients self.new.clients }
        ensures contents { self.new.contents ≡ self.old.contents }
    {
        if let Some(client) = self.clients.slots.get_mut(key) {
            client.go_to(Stage::Ending);
        }
    }

    /// What this connection gets can't be given to its end: it is cut.
    pub fn cut(&mut self, key: usize)
        ensures cut { (client : ClientState) → get self.old.clients.slots key ≡ Some client
            → get self.new.clients.slots key ≡ Some (with_stage CutOf client) }
        ensures none { get self.old.clients.slots key ≡ None → self.new ≡ self.old }
        ensures others { OthersStay key self.old.clients self.new.clients }
        ensures contents { self.new.contents ≡ self.old.contents }
    {
        if let Some(client) = self.clients.slots.get_mut(key) {
            client.go_to(Stage::Cut);
        }
    }

    /// Whether this connection gets what is given with `supply`, and has nothing left of it.
    pub fn needs(&self, key: usize) -> bool
        ensures needs { result ≡ true → (client : ClientState) × (id : ℕ) × (get self.now.clients.slots key ≡ Some client) × (client.unsent ≡ [])
            × (client.stage ≡ SendingOf) × (client.session ≡ Some id) × (get self.now.contents id ≡ Some GivenOf) }
        ensures each { (client : ClientState) (id : ℕ) → get self.now.clients.slots key ≡ Some client → client.unsent ≡ []
            → client.stage ≡ SendingOf → client.session ≡ Some id → get self.now.contents id ≡ Some GivenOf → result ≡ true }
    {
        let Some(client) = self.clients.slots.get(key) else {
            return false;
        };
        let Some(id) = client.session else {
            return false;
        };
        match (client.stage, self.contents.get(id as usize)) {
            (Stage::Sending, Some(Content::Given)) => client.unsent().is_empty(),
            _ => false,
        }
    }

    /// These bytes are the next ones for this connection. If memory for them is refused, it is cut.
    pub fn supply(&mut self, key: usize, bytes: &[u8])
        ensures told { (client : ClientState) → get self.old.clients.slots key ≡ Some client → (after : ClientState)
            × (get self.new.clients.slots key ≡ Some after) × IsSupplied bytes.now client after }
        ensures none { get self.old.clients.slots key ≡ None → self.new ≡ self.old }
        ensures others { OthersStay key self.old.clients self.new.clients }
        ensures contents { self.new.contents ≡ self.old.contents }
    {
        if let Some(client) = self.clients.slots.get_mut(key) {
            supply_to(client, bytes);
        }
    }

    /// The next bytes for this connection: those that couldn't be written before, or as many as the buffer holds of its
    /// file. It returns how many these are; 0 if there is nothing to send now. Say with `wrote` how many of them were
    /// written, before it is called again.
    pub fn next(&mut self, key: usize, buffer: &mut [u8], now: u64) -> usize
        ensures again { (client : ClientState) → get self.old.clients.slots key ≡ Some client → client.unsent ≢ []
            → (take result buffer.new ≡ take (length buffer.old) client.unsent)
            × (get self.new.clients.slots key ≡ Some (given result false now client)) }
        ensures pulls { (client : ClientState) (id : ℕ) (body : BodyState D) → get self.old.clients.slots key ≡ Some client → client.unsent ≡ []
            → client.stage ≡ SendingOf → client.session ≡ Some id → get self.old.contents id ≡ Some (FileOf body)
            → (after : ClientState) × (rest : BodyState D) × HasPulled D.Disk (length buffer.old) client body result buffer.new after rest
            × (get self.new.clients.slots key ≡ Some (given result false now after)) × (get self.new.contents id ≡ Some (FileOf rest)) }
        ensures hears { (client : ClientState) (id : ℕ) (heard : HeardState D) → get self.old.clients.slots key ≡ Some client → client.unsent ≡ []
            → client.stage ≡ HearingOf → client.session ≡ Some id → get self.old.contents id ≡ Some (HeardOf heard)
            → (after : ClientState) × (rest : HeardState D) × Hears D.Disk (length buffer.old) client heard result buffer.new after rest
            × (get self.new.clients.slots key ≡ Some (given result false now after)) × (get self.new.contents id ≡ Some (HeardOf rest)) }
        ensures contents { (client : ClientState) (other : ℕ) → get self.old.clients.slots key ≡ Some client → client.session ≢ Some other
            → get self.new.contents other ≡ get self.old.contents other }
        ensures none { get self.old.clients.slots key ≡ None → result ≡ 0 }
        ensures others { OthersStay key self.old.clients self.new.clients }
        ensures within { result ≤ length buffer.new }
    {
        let Some(client) = self.clients.slots.get_mut(key) else {
            return 0;
        };
        let count = give(client, &mut self.contents, buffer);
        client.given(count, false, now);
        count
    }

    /// The first `count` of these bytes, which `next` gave for this connection, were written. The others are kept, to be
    /// given again; without memory for them the connection is cut.
    pub fn wrote(&mut self, key: usize, bytes: &[u8], count: usize, now: u64)
        ensures written { (client : ClientState) → get self.old.clients.slots key ≡ Some client → (after : ClientState)
            × HasWritten bytes.now count client after × (get self.new.clients.slots key ≡ Some (moved_if count now after)) }
        ensures none { get self.old.clients.slots key ≡ None → self.new ≡ self.old }
        ensures others { OthersStay key self.old.clients self.new.clients }
        ensures contents { self.new.contents ≡ self.old.contents }
    {
        let Some(client) = self.clients.slots.get_mut(key) else {
            return;
        };
        client.wrote(bytes, count);
        let (sent, _) = bytes.split_at(count.min(bytes.len()));
        client.note_sent(sent);
        client.moved(count, now);
    }

    /// None of the bytes that `next` gave could be written. They are kept, as after `wrote`.
    pub fn write_failed(&mut self, key: usize, bytes: &[u8], trouble: Trouble)
        ensures failed { (client : ClientState) → get self.old.clients.slots key ≡ Some client
            → (kept : ClientState) × HasWritten bytes.now 0 client kept × (get self.new.clients.slots key ≡ Some (unwritten_by trouble kept)) }
        ensures none { get self.old.clients.slots key ≡ None → self.new ≡ self.old }
        ensures others { OthersStay key self.old.clients self.new.clients }
        ensures contents { self.new.contents ≡ self.old.contents }
    {
        self.clients.write_failed(key, bytes, trouble);
    }

    /// The turn is over, and this becomes of the connection. It gets another one if bytes went over it, or may at once.
    pub fn turned(&mut self, key: usize, now: u64) -> After
        ensures after { (client : ClientState) → get self.old.clients.slots key ≡ Some client → result ≡ after_of client }
        ensures again { (client : ClientState) → get self.old.clients.slots key ≡ Some client
            → goes_again (is_read client) false client ≡ true → HasTurn key (turned_by false now client) self.old.clients self.new.clients }
        ensures rests { (client : ClientState) → get self.old.clients.slots key ≡ Some client
            → goes_again (is_read client) false client ≡ false
            → (get self.new.clients.slots key ≡ Some client) × (self.new.clients.turns ≡ self.old.clients.turns) }
        ensures none { get self.old.clients.slots key ≡ None → (result ≡ After.Closes) × (self.new ≡ self.old) }
        ensures others { OthersStay key self.old.clients self.new.clients }
        ensures contents { self.new.contents ≡ self.old.contents }
    {
        let reads = self.reads(key);
        self.clients.turned(key, reads, false, now)
    }

    /// The connection is closed: its content is let go. It returns what is to be logged of it.
    pub fn closed(&mut self, key: usize) -> Option<Visit>
        ensures gone { get self.new.clients.slots key ≡ None }
        ensures file { (client : ClientState) (id : ℕ) → get self.old.clients.slots key ≡ Some client → client.session ≡ Some id
            → get self.new.contents id ≡ None }
        ensures contents { (client : ClientState) (other : ℕ) → get self.old.clients.slots key ≡ Some client → client.session ≢ Some other
            → get self.new.contents other ≡ get self.old.contents other }
        ensures none { get self.old.clients.slots key ≡ None → self.new ≡ self.old }
        ensures others { OthersStay key self.old.clients self.new.clients }
    {
        let client = self.clients.slots.try_remove(key)?;
        self.let_go(client.session);
        client.visit
    }

    /// Everybody has a turn, and who was silent for too long is cut.
    pub fn look(&mut self, now: u64)
        ensures looks { AreLookedAt now self.old.clients self.new.clients }
        ensures contents { self.new.contents ≡ self.old.contents }
    {
        self.clients.look(now);
    }
}
