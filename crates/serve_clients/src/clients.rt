//! The connections, each under its key, and whose turn it is.
ghost use Rattle.std.specs.Prelude.{◌≡◌, ◌≢◌, ◌≤◌, ◌+◌, ◌∷◌, [], ℕ, None, Some, false, true, IfOk, IfErr, IfSome, length};
ghost use Rattle.slab.specs.Slab.{get, slab_len};
ghost use Rattle.serve_clients.specs.Client.{ClientState, HasWritten, after_of, is_hearing, with_line};
ghost use Rattle.serve_clients.specs.Clients.{AllStay, AreLookedAt, AreWoken, HasRoom, HasTurn, OthersStay, goes_again, rested, told_by, turned_by, unread_by, unwritten_by};
ghost use Rattle.serve_clients.specs.Line.{taken_off};
ghost use Rattle.serve_clients.specs.Patience.{looked_at};

use crate::Memory;
use crate::client::{After, Client, Stage};
use crate::line::Trouble;
use crate::patience::is_overdue;
use slab::Slab;
use std::alloc::Global;
use std::collections::VecDeque;

/// Connections, each under its key, and those that have something to do.
#[derive(Drop)]
pub struct Clients {
    pub slots: Slab<Client>,
    // the keys of those whose turn comes, the next one first
    turns: VecDeque<usize>,
}

/// Takes the first one off the queue.
fn take_first(turns: &mut VecDeque<usize>) -> Option<usize>
    ensures none { result ≡ None → turns.old.items ≡ [] }
    ensures some { IfSome result (λ key. turns.old.items ≡ key ∷ turns.new.items) }
{
    turns.pop_front()
}

impl Clients {
    /// No connection. It makes the room for `most` of them, and for two turns of each: a connection that was closed may
    /// have left one.
    pub fn new(alloc: Global, most: usize) -> Result<Clients, Memory>
        ensures none { IfOk result (λ clients. (key : ℕ) → get clients.slots key ≡ None) }
        ensures turns { IfOk result (λ clients. clients.turns.items ≡ []) }
        ensures room { IfOk result (λ clients. HasRoom clients) }
    {
        let slots = Slab::with_capacity(alloc, most)?;
        let turns = VecDeque::with_capacity(alloc, slots.capacity().saturating_mul(2))?;
        Ok(Clients { slots, turns })
    }

    /// The system has told that this connection may have bytes, or room for some. It gets a turn.
    pub fn wake(&mut self, key: usize, readable: bool, writable: bool)
        ensures turn { (client : ClientState) → get self.old.slots key ≡ Some client → HasTurn key (told_by readable writable client) self.old self.new }
        ensures none { get self.old.slots key ≡ None → self.new ≡ self.old }
        ensures others { OthersStay key self.old self.new }
    {
        if let Some(client) = self.slots.get_mut(key) {
            let line = client.line.told(readable, writable);
            client.stands(line);
        }
        self.give_turn(key);
    }

    /// This connection gets a turn, if it doesn't wait for one.
    fn give_turn(&mut self, key: usize)
        ensures turn { (client : ClientState) → get self.old.slots key ≡ Some client → HasTurn key client self.old self.new }
        ensures none { get self.old.slots key ≡ None → self.new ≡ self.old }
        ensures others { OthersStay key self.old self.new }
        ensures room { self.old.turns.cap ≤ self.new.turns.cap }
        ensures len { self.new.turns.len ≤ self.old.turns.len + 1 }
    {
        let Some(client) = self.slots.get_mut(key) else {
            return;
        };
        let line = client.line;
        if line.queued {
            return;
        }
        if self.turns.push_back(key).is_ok() {
            client.stands(line.queued(true));
        }
    }

    /// How many turns wait.
    pub fn turns(&self) -> usize
        ensures { result ≡ self.now.turns.len }
    {
        self.turns.len()
    }

    /// The connection whose turn it is. It may have been closed since it got the turn.
    pub fn next_turn(&mut self) -> Option<usize>
        ensures none { result ≡ None → (self.old.turns.items ≡ []) × AllStay self.old self.new }
        ensures turn { IfSome result (λ key. self.old.turns.items ≡ key ∷ self.new.turns.items) }
        ensures begins { IfSome result (λ key. (client : ClientState) → get self.old.slots key ≡ Some client
            → get self.new.slots key ≡ Some (with_line (taken_off client.line) client)) }
        ensures gone { IfSome result (λ key. get self.old.slots key ≡ None → get self.new.slots key ≡ None) }
        ensures others { IfSome result (λ key. OthersStay key self.old self.new) }
    {
        match take_first(&mut self.turns) {
            Some(key) => {
                self.begin_turn(key);
                Some(key)
            }
            None => None,
        }
    }

    /// The turn of this connection has come.
    fn begin_turn(&mut self, key: usize)
        ensures begins { (client : ClientState) → get self.old.slots key ≡ Some client
            → get self.new.slots key ≡ Some (with_line (taken_off client.line) client) }
        ensures none { get self.old.slots key ≡ None → self.new ≡ self.old }
        ensures others { OthersStay key self.old self.new }
        ensures turns { self.new.turns ≡ self.old.turns }
    {
        if let Some(client) = self.slots.get_mut(key) {
            let line = client.line.begins_turn();
            client.stands(line);
        }
    }

    /// Whether this connection may have room for bytes.
    pub fn writes(&self, key: usize) -> bool
        ensures some { (client : ClientState) → get self.now.slots key ≡ Some client → result ≡ client.line.writable }
        ensures none { get self.now.slots key ≡ None → result ≡ false }
    {
        match self.slots.get(key) {
            Some(client) => client.line.writable,
            None => false,
        }
    }

    /// Nothing could be read. A broken connection is cut.
    pub fn read_failed(&mut self, key: usize, trouble: Trouble)
        ensures failed { (client : ClientState) → get self.old.slots key ≡ Some client
            → get self.new.slots key ≡ Some (unread_by trouble client) }
        ensures none { get self.old.slots key ≡ None → self.new ≡ self.old }
        ensures others { OthersStay key self.old self.new }
        ensures turns { self.new.turns ≡ self.old.turns }
    {
        if let Some(client) = self.slots.get_mut(key) {
            let line = client.line.read_failed(trouble);
            client.stands(line);
            if trouble == Trouble::Broken {
                client.go_to(Stage::Cut);
            }
        }
    }

    /// None of these bytes could be written. They are kept, as after `Client::wrote`. A broken connection is cut.
    pub fn write_failed(&mut self, key: usize, bytes: &[u8], trouble: Trouble)
        ensures failed { (client : ClientState) → get self.old.slots key ≡ Some client
            → (kept : ClientState) × HasWritten bytes.now 0 client kept × (get self.new.slots key ≡ Some (unwritten_by trouble kept)) }
        ensures none { get self.old.slots key ≡ None → self.new ≡ self.old }
        ensures others { OthersStay key self.old self.new }
        ensures turns { self.new.turns ≡ self.old.turns }
    {
        if let Some(client) = self.slots.get_mut(key) {
            client.write_failed(bytes, trouble);
        }
    }

    /// The turn is over, and this becomes of the connection. It gets another one if bytes went over it, unless it rests,
    /// since it has heard all that there is; or if bytes may go over it at once: if it has bytes that are read.
    pub fn turned(&mut self, key: usize, reads: bool, rests: bool, now: u64) -> After
        ensures after { (client : ClientState) → get self.old.slots key ≡ Some client → result ≡ after_of client }
        ensures again { (client : ClientState) → get self.old.slots key ≡ Some client → goes_again reads rests client ≡ true
            → HasTurn key (turned_by rests now client) self.old self.new }
        ensures rests { (client : ClientState) → get self.old.slots key ≡ Some client → goes_again reads rests client ≡ false
            → (get self.new.slots key ≡ Some (rested rests client)) × (self.new.turns ≡ self.old.turns) }
        ensures none { get self.old.slots key ≡ None → (result ≡ After.Closes) × (self.new ≡ self.old) }
        ensures others { OthersStay key self.old self.new }
    {
        let Some(client) = self.slots.get_mut(key) else {
            return After::Closes;
        };
        let after = client.after();
        let again = client.goes_again(reads, rests);
        client.rest_if(rests);
        if after == After::Shuts {
            client.go_to(Stage::Closing);
            client.since = now;
        }
        if again {
            self.give_turn(key);
        }
        after
    }

    /// This connection is cut if the patience with it is over.
    fn look_at(&mut self, key: usize, now: u64)
        ensures cut { (client : ClientState) → get self.old.slots key ≡ Some client → get self.new.slots key ≡ Some (looked_at client now) }
        ensures none { get self.old.slots key ≡ None → self.new ≡ self.old }
        ensures others { OthersStay key self.old self.new }
        ensures turns { self.new.turns ≡ self.old.turns }
    {
        if let Some(client) = self.slots.get_mut(key) {
            if is_overdue(client, now) {
                client.go_to(Stage::Cut);
            }
        }
    }

    /// Whether this connection hears what is recorded.
    pub fn hears(&self, key: usize) -> bool
        ensures some { (client : ClientState) → get self.now.slots key ≡ Some client → result ≡ is_hearing client.stage }
        ensures none { get self.now.slots key ≡ None → result ≡ false }
    {
        match self.slots.get(key) {
            Some(client) => client.stage == Stage::Hearing,
            None => false,
        }
    }

    /// Whoever hears what is recorded gets a turn.
    pub fn wake_hearing(&mut self)
        ensures woken { AreWoken self.old self.new }
    {
        for key in 0..self.slots.capacity() {
            self.wake_if_hearing(key);
        }
    }

    /// This connection gets a turn if it hears what is recorded.
    fn wake_if_hearing(&mut self, key: usize)
        ensures hearing { (client : ClientState) → get self.old.slots key ≡ Some client → is_hearing client.stage ≡ true
            → HasTurn key client self.old self.new }
        ensures other { (client : ClientState) → get self.old.slots key ≡ Some client → is_hearing client.stage ≡ false
            → self.new ≡ self.old }
        ensures none { get self.old.slots key ≡ None → self.new ≡ self.old }
        ensures others { OthersStay key self.old self.new }
        ensures room { self.old.turns.cap ≤ self.new.turns.cap }
        ensures len { self.new.turns.len ≤ self.old.turns.len + 1 }
    {
        if self.hears(key) {
            self.give_turn(key);
        }
    }

    /// Everybody gets a turn, and who was silent for too long is cut.
    pub fn look(&mut self, now: u64)
        ensures looks { AreLookedAt now self.old self.new }
    {
        for key in 0..self.slots.capacity() {
            self.look_at(key, now);
            self.give_turn(key);
        }
    }
}
