//! The station whose file is recorded, and those that serve files that have ended to whoever reads them still.
ghost use Rattle.std.specs.Borrow.{sem};
ghost use Rattle.std.specs.Prelude.{◌≡◌, ◌≢◌, ◌↔◌, ◌+◌, ◌-◌, ◌^◌, ◌<◌, ◌≤◌, ◌∷◌, ◌++◌, ◌⊎◌, ◌||◌, ◌==◌, ◌&&◌, [], ℕ, Err, IfOk, IfSome, IsSome, List, None, Ok, OnErr, OnOk, Option, Some, drop, false, length, min, nat_le, option_map, slice_get, slice_set, true, vec_capacity, vec_len};
ghost use Rattle.slab.specs.Slab.{get, slab_len};
ghost use Rattle.serve_clients.specs.Client.{ClientState, fresh};
ghost use Rattle.serve_clients.specs.Clients.{AreLookedAt, OthersStay};
ghost use Rattle.serve_clients.specs.Kinds.{sum};
ghost use Rattle.serve_hub.specs.Showing.{Shows};
ghost use Rattle.serve_live.specs.Listening.{ListenerState};
ghost use Rattle.serve_machine.specs.Hub.{HubState};
ghost use Rattle.station.specs.Changing.{HearsOn, ReadsFile};
ghost use Rattle.station_hub.specs.Giving.{has_got_all};
ghost use Rattle.station_files.specs.Lending.{LendsNewest};
ghost use Rattle.station_files.specs.Moving.{AreDropped, AreSent, EntersBehind, EntersIf, EntersNext, HasEntered, HasLeft, HasNotEntered, HearsBy, DropsIf, HasChanged, IsLeft, IsMet, LetsGo, MovesOn, ReadersLeave, SendsIf};
ghost use Rattle.station_files.specs.Places.{HasRoom, IsNext, TakesTurn, WaitsFor, has_had_a_minute, has_heard_all, is_finished, kinds_at, place_of as place_in, readers_in, station_at, turns_in, turns_with};
ghost use Rattle.station_files.specs.Seat.{token_of};
ghost use Rattle.station.specs.declared.station.Station.{Station as StationOf};
ghost use Rattle.station_files.specs.declared.seats.Move.{Move as MoveOf};
ghost use Rattle.station_files.specs.declared.seats.Past.{Past as PastOf};
ghost use Rattle.station_files.specs.declared.seats.Seat.{Seat as SeatOf};
ghost use Rattle.station_files.specs.declared.seats.Stations.{Stations as StationsOf};

use disk_model::Disk;
use link_chain::StreamState;
use serve_clients::Kinds;
use station::{Client, Memory, Station, Unaccepted};
use station_hub::LiveHub;
use std::alloc::Global;

/// The place of a connection: which station it has, and its key there.
#[derive(Clone, Copy, Debug, PartialEq, Eq)]
pub struct Seat {
    /// The number of the station: 0 is the one whose file is recorded. A station that serves a file that has ended has a
    /// number that no other one has had.
    pub station: u64,
    pub key: usize,
}

/// How many keys of a station a token tells apart, and how many stations.
const KEYS: usize = 1 << 32;

const STATIONS: u64 = 1 << 31;

/// For how many milliseconds those who read files that have ended are waited for at the end.
const MOST_ENDING: u64 = 60_000;

/// The number of a station that no file has: who fetches files has a seat there.
const FETCHES: u64 = STATIONS - 1;

impl Seat {
    /// The seat of a connection that fetches a file.
    pub fn of_fetch(key: usize) -> Seat
        ensures { (result.station ≡ 2 ^ 31 - 1) × (result.key ≡ key) }
    {
        Seat {
            station: FETCHES,
            key,
        }
    }

    /// Whether it is a seat of those who fetch files.
    pub fn is_fetch(self) -> bool
        ensures { (result ≡ true) ↔ (self.station ≡ 2 ^ 31 - 1) }
    {
        self.station == FETCHES
    }

    /// A number that tells the seat, and is less than 2^63.
    pub fn token(self) -> usize
        ensures told { result ≡ token_of self }
        ensures below { result < 2 ^ 63 }
    {
        (self.station % STATIONS) as usize * KEYS + self.key % KEYS
    }

    /// The seat that this number tells.
    pub fn of_token(token: usize) -> Seat
        ensures each { (seat : SeatOf) → seat.station < 2 ^ 31 → seat.key < 2 ^ 32 → token ≡ token_of seat → result ≡ seat }
    {
        Seat {
            station: (token / KEYS) as u64,
            key: token % KEYS,
        }
    }
}

/// A connection got another seat.
#[derive(Clone, Copy, Debug, PartialEq, Eq)]
pub struct Move {
    pub from: Seat,
    /// None if there was no memory: the connection is to be closed.
    pub to: Option<Seat>,
}

/// What is recorded after a file is left.
#[derive(Clone, Copy, Debug, PartialEq, Eq)]
pub enum Next {
    /// Another file: who has heard all of the one before hears it from its first page on.
    Another,
    /// Another file, in which the open link goes on: who has heard all of the one before hears on in it.
    GoesOn,
    /// The same file, opened again: who has heard all that it had goes on where that ends.
    Same,
}

/// Where the link that is open at the end of a file goes on in the next one.
#[derive(Drop)]
pub struct Meeting {
    /// The streams that are open at the end of the file.
    pub open: Vec<StreamState>,
    /// Those that go on with them in the next one, in order, as the pages leave them with which the link begins there.
    pub begun: Vec<StreamState>,
    /// Where these pages end.
    pub begun_end: u64,
}

/// A station over a file that has ended, or that was left.
#[derive(Drop)]
struct Past<D: Disk> {
    number: u64,
    station: Station<D>,
    next: Next,
    // where it goes on, if it does
    meeting: Option<Meeting>,
}

impl<D: Disk + Drop> Past<D> {
    /// A connection that hears this file hears on in the next one, if the open link goes on there.
    fn hear_on(&mut self, key: usize) -> Result<(), Memory>
        ensures on { OnOk result (IfSome self.old.meeting (λ meeting. (client : ClientState) (heard : ListenerState)
            → get self.old.station.clients.slots key ≡ Some client → client.listener ≡ Some heard → (after : ClientState)
            × (get self.new.station.clients.slots key ≡ Some after)
            × HearsOn meeting.begun_end meeting.open.items meeting.begun.items heard client after)) }
        ensures none { self.old.meeting ≡ None → (result ≡ Ok tt) × (self.new ≡ self.old) }
        ensures same { OnErr result ((other : ℕ) → get self.new.station.clients.slots other ≡ get self.old.station.clients.slots other) }
        ensures others { OthersStay key self.old.station.clients self.new.station.clients }
        ensures clients { self.new.station ≡ record self.old.station { clients = self.new.station.clients } }
        ensures rest { self.new ≡ record self.old { station = self.new.station } }
    {
        match &self.meeting {
            Some(meeting) => self.station.hear_on(
                key,
                meeting.begun_end,
                meeting.open.as_slice(),
                meeting.begun.as_slice(),
            ),
            None => Ok(()),
        }
    }
}

impl<D: Disk + Drop> Past<D> {
    /// The connection whose turn it is, if one has something to do.
    fn next_turn(&mut self) -> Option<Seat>
        ensures { IsNext result self.old self.new }
    {
        let Some(key) = self.station.next_turn() else {
            return None;
        };
        Some(Seat {
            station: self.number,
            key,
        })
    }

    /// A connection leaves, if it has heard all of the file. It returns what follows. The connection is gone if there was no
    /// memory for it to hear on.
    fn let_go(&mut self, key: usize) -> Option<(Option<Client>, Next)>
        ensures { LetsGo D.Disk key result self.old self.new }
    {
        if !self.station.has_heard_all(key) {
            return None;
        }
        let heard = self.hear_on(key);
        let client = self.station.leave(key)?;
        match heard {
            Ok(()) => Some((Some(client), self.next)),
            Err(_) => Some((None, self.next)),
        }
    }
}

/// The station whose file is recorded, and stations over files that have ended, in the order of their files.
#[derive(Drop)]
pub struct Stations<D: Disk> {
    alloc: Global,
    newest: Station<D>,
    past: Vec<Past<D>>,
    // the number of the one that was made last
    last: u64,
    moves: Vec<Move>,
}

/// Where the station with this number stands.
fn place_of<D: Disk>(past: &[Past<D>], number: u64) -> Option<usize>
    ensures { result ≡ place_in number past.now }
{
    for at in 0..past.len() {
        if past[at].number == number {
            return Some(at);
        }
    }
    None
}

/// A connection enters a station under a new key. Without memory for it it is gone.
fn enter<D: Disk + Drop>(station: &mut Station<D>, number: u64, client: Client) -> Option<Seat>
    ensures entered { IfSome result (λ seat. (seat.station ≡ number) × HasEntered client seat.key station.old station.new) }
    ensures none { result ≡ None → HasNotEntered station.old station.new }
{
    match station.enter(client) {
        Ok(key) => Some(Seat {
            station: number,
            key,
        }),
        Err(_) => None,
    }
}

/// A connection that has heard all of a file enters the station over the next one.
fn enter_next<D: Disk + Drop>(
    station: &mut Station<D>,
    number: u64,
    client: Client,
    next: Next,
) -> Option<Seat>
    ensures entered { IfSome result (λ seat. (seat.station ≡ number) × EntersNext next client seat.key station.old station.new) }
    ensures none { result ≡ None → HasNotEntered station.old station.new }
{
    let seat = enter(station, number, client)?;
    hear_next(station, seat.key, next);
    Some(seat)
}

/// A connection hears what follows the file that it has heard.
fn hear_next<D: Disk + Drop>(station: &mut Station<D>, key: usize, next: Next)
    ensures { get station.old.clients.slots key ≢ None → HearsBy next key station.old station.new }
{
    match next {
        Next::Another => station.hear_anew(key),
        Next::GoesOn | Next::Same => {}
    }
}

/// Takes a connection out that reads the file, if it does.
fn take_reader<D: Disk + Drop>(station: &mut Station<D>, key: usize) -> Option<Client>
    ensures taken { IfSome result (λ client. ReadsFile (Some client) × HasLeft client key station.old station.new) }
    ensures none { result ≡ None → station.new ≡ station.old }
    ensures each { ReadsFile (get station.old.clients.slots key) → IsSome result }
{
    if station.reads_file(key) {
        station.leave(key)
    } else {
        None
    }
}

/// How many of these stations, from the first on, have no connection.
fn unread<D: Disk + Drop>(past: &[Past<D>]) -> usize
    ensures none { (at : ℕ) (one : PastOf D) → at < result → slice_get past.now at ≡ Some one → slab_len one.station.clients.slots ≡ 0 }
    ensures next { (one : PastOf D) → slice_get past.now result ≡ Some one → slab_len one.station.clients.slots ≢ 0 }
    ensures within { result ≤ length past.now }
{
    for at in 0..past.len() {
        if past[at].station.connections() > 0 {
            return at;
        }
    }
    past.len()
}

/// How many connections have a turn at these stations, beside so many.
fn turns_with<D: Disk + Drop>(turns: usize, past: &[Past<D>]) -> usize
    ensures { result ≡ turns_with turns past.now }
{
    let mut sum = turns;
    for one in past {
        sum = sum.saturating_add(one.station.turns());
    }
    sum
}

/// How many connections these stations have.
fn readers_in<D: Disk + Drop>(past: &[Past<D>]) -> usize
    ensures { result ≡ readers_in past.now }
{
    let mut sum: usize = 0;
    for one in past {
        sum = sum.saturating_add(one.station.connections());
    }
    sum
}

/// How many connections of each kind these stations have.
fn kinds_in<D: Disk + Drop>(past: &[Past<D>]) -> Kinds
    ensures { result ≡ kinds_at past.now }
{
    let mut kinds = Kinds::none();
    for one in past {
        kinds = kinds.and(one.station.kinds());
    }
    kinds
}

impl<D: Disk + Drop> Stations<D> {
    /// One station.
    pub fn new(alloc: Global, newest: Station<D>) -> Stations<D>
        ensures newest { result.newest ≡ newest }
        ensures past { (result.past.items ≡ []) × (result.last ≡ 0) }
        ensures moves { result.moves.items ≡ [] }
    {
        Stations {
            alloc,
            newest,
            past: Vec::new(alloc),
            last: 0,
            moves: Vec::new(alloc),
        }
    }

    /// The station whose file is recorded.
    pub fn newest(&self) -> &Station<D>
        ensures { result.now ≡ self.now.newest }
    {
        &self.newest
    }

    /// The same, to be changed.
    pub fn newest_mut(&mut self) -> &mut Station<D>
        ensures value { result.now ≡ self.old.newest }
        ensures* writes_back { sem 𝓛 (LendsNewest D.row D.Disk self.entry result) }
    {
        &mut self.newest
    }

    /// The station whose file is recorded. The others are gone.
    pub fn into_newest(self) -> Station<D>
        ensures { result ≡ self.newest }
    {
        let Stations { newest, .. } = self;
        newest
    }

    /// The station of a seat, if it is there.
    pub fn at(&mut self, seat: Seat) -> Option<&mut Station<D>> {
        if seat.station == 0 {
            return Some(&mut self.newest);
        }
        let at = place_of(self.past.as_slice(), seat.station)?;
        let past = self.past.get_mut(at)?;
        Some(&mut past.station)
    }

    /// The system has told that this connection may have bytes, or room for some. It gets a turn.
    pub fn wake(&mut self, seat: Seat, readable: bool, writable: bool) {
        if let Some(station) = self.at(seat) {
            station.wake(seat.key, readable, writable);
        }
    }

    /// How many connections have a turn.
    pub fn turns(&self) -> usize
        ensures { result ≡ turns_in self.now }
    {
        turns_with(self.newest.turns(), self.past.as_slice())
    }

    /// How many stations there are: the newest, and those over files that have ended.
    pub fn count(&self) -> usize
        ensures { result ≡ min (length self.now.past.items + 1) (2 ^ 64 - 1) }
    {
        self.past.len().saturating_add(1)
    }

    /// How many connections have a turn at one of the stations: the newest is at 0, and those over files that have ended
    /// follow, the oldest first.
    pub fn turns_at(&self, at: usize) -> usize
        ensures newest { at ≡ 0 → result ≡ self.now.newest.clients.turns.len }
        ensures past { (one : PastOf D) → at ≢ 0 → slice_get self.now.past.items (at - 1) ≡ Some one → result ≡ one.station.clients.turns.len }
        ensures none { at ≢ 0 → slice_get self.now.past.items (at - 1) ≡ None → result ≡ 0 }
    {
        if at == 0 {
            return self.newest.turns();
        }
        match self.past.get(at.saturating_sub(1)) {
            Some(past) => past.station.turns(),
            None => 0,
        }
    }

    /// The connection whose turn it is at one of them, if one has something to do there.
    pub fn next_turn_at(&mut self, at: usize) -> Option<Seat>
        ensures newest { at ≡ 0 → (self.new ≡ record self.old { newest = self.new.newest })
            × IfSome result (λ seat. (seat.station ≡ 0) × TakesTurn seat.key self.old.newest self.new.newest) }
        ensures past { (one : PastOf D) → at ≢ 0 → slice_get self.old.past.items (at - 1) ≡ Some one → (after : PastOf D) × IsNext result one after
            × (self.new.past.items ≡ slice_set self.old.past.items (at - 1) after) }
        ensures idle { at ≡ 0 → result ≡ None → self.old.newest.clients.turns.items ≡ [] }
        ensures none { at ≢ 0 → slice_get self.old.past.items (at - 1) ≡ None → (result ≡ None) × (self.new ≡ self.old) }
    {
        if at == 0 {
            let key = self.newest.next_turn()?;
            return Some(Seat { station: 0, key });
        }
        self.past.get_mut(at.saturating_sub(1))?.next_turn()
    }

    /// A connection was made: the newest takes it, as [`Station::accepted`] has it. There may be so many in all: those who
    /// read files that have ended count as the others do, and so do so many that are elsewhere.
    pub fn accepted(&mut self, most: usize, elsewhere: usize, now: u64) -> Result<usize, Unaccepted>
        ensures full { (result ≡ Err Unaccepted.Full)
            ↔ ((64 ≤ slab_len self.old.newest.clients.slots - (most - sum (readers_in self.old.past.items) elsewhere)) ⊎ (self.old.newest.ending ≢ None)) }
        ensures some { slab_len self.old.newest.clients.slots < most - sum (readers_in self.old.past.items) elsewhere
            → IfOk result (λ key. get self.new.newest.clients.slots key ≡ Some (fresh now)) }
        ensures none { IfOk result (λ key. get self.old.newest.clients.slots key ≡ None) }
        ensures others { IfOk result (λ key. OthersStay key self.old.newest.clients self.new.newest.clients) }
        ensures live { self.new.newest.live ≡ self.old.newest.live }
        ensures rest { self.new ≡ record self.old { newest = self.new.newest } }
    {
        let others = self.readers().saturating_add(elsewhere);
        self.newest.allow(most.saturating_sub(others));
        self.newest.accepted(now)
    }

    /// How many milliseconds may be waited, if nothing comes, until there is something to do.
    pub fn until_next(&self, now: u64) -> u64
        ensures turn { turns_in self.now ≢ 0 → result ≡ 0 }
        ensures none { turns_in self.now ≡ 0 → WaitsFor D.Disk now result self.now.newest }
    {
        if self.turns() > 0 {
            return 0;
        }
        self.newest.until_next(now)
    }

    /// Once a second everybody has a turn, and who was silent for too long is cut. It returns whether the second is over.
    pub fn look(&mut self, now: u64) -> bool
        ensures early { now - self.old.newest.looked < 1000 → result ≡ false }
        ensures late { 1000 ≤ now - self.old.newest.looked → (result ≡ true) × AreLookedAt now self.old.newest.clients self.new.newest.clients }
    {
        self.look_at_past(now);
        self.newest.look(now)
    }

    /// The same for those who read files that have ended.
    fn look_at_past(&mut self, now: u64)
        ensures rest { self.new ≡ record self.old { past = self.new.past } }
    {
        for at in 0..self.past.len() {
            if let Some(past) = self.past.get_mut(at) {
                past.station.look(now);
            }
        }
    }

    /// How many connections there are at stations over files that have ended.
    pub fn readers(&self) -> usize
        ensures { result ≡ readers_in self.now.past.items }
    {
        readers_in(self.past.as_slice())
    }

    /// How many connections there are of each kind at stations over files that have ended.
    pub fn kinds(&self) -> Kinds
        ensures { result ≡ kinds_at self.now.past.items }
    {
        kinds_in(self.past.as_slice())
    }

    /// Whether the newest has come to its end, and nobody reads a file that has ended, or those who do have had a minute.
    pub fn is_finished(&self, now: u64) -> bool
        ensures { result ≡ (is_finished now self.now.newest
            && (readers_in self.now.past.items == 0 || has_had_a_minute self.now.newest.ending now)) }
    {
        self.newest.is_finished(now) && (self.readers() == 0 || self.has_waited(now))
    }

    /// Whether those who read files that have ended have had a minute since the newest comes to its end.
    pub fn has_waited(&self, now: u64) -> bool
        ensures { result ≡ has_had_a_minute self.now.newest.ending now }
    {
        match self.newest.ending() {
            Some(since) => MOST_ENDING <= now.saturating_sub(since),
            None => false,
        }
    }

    /// Whether a connection reads the file that is recorded.
    fn is_read(&self) -> bool
        ensures yes { result ≡ true → (key : ℕ) × ReadsFile (get self.now.newest.clients.slots key) }
        ensures no { result ≡ false → (key : ℕ) → ¬ (ReadsFile (get self.now.newest.clients.slots key)) }
    {
        for key in 0..self.newest.keys() {
            if self.newest.reads_file(key) {
                return true;
            }
        }
        false
    }

    /// Makes the room that a change of the file needs.
    pub fn prepare(&mut self) -> Result<(), Memory>
        ensures room { OnOk result (HasRoom self.new) }
        ensures moves { self.new.moves.items ≡ self.old.moves.items }
        ensures past { self.new.past.items ≡ self.old.past.items }
        ensures rest { self.new ≡ record self.old { past = self.new.past; moves = self.new.moves } }
    {
        self.past.reserve(1)?;
        self.moves.reserve(self.newest.keys())
    }

    /// The file that was recorded is left, and `live` has the next one, or the same, opened again: it is recorded and served
    /// from now on. Who reads the one before goes on to, at a station of its own. It has one also if nobody reads it, while an
    /// older one is read: who hears that comes to this one next.
    pub fn change(&mut self, live: LiveHub<D>, next: Next)
        ensures { HasChanged live next self.old self.new }
    {
        let is_alone = self.is_alone();
        let before = self.newest.change(live);
        if is_alone {
            return;
        }
        self.leave_file(before, next);
    }

    /// Whether nobody reads the file that is recorded, nor one before it.
    fn is_alone(&self) -> bool
        ensures yes { result ≡ true → ((key : ℕ) → ¬ (ReadsFile (get self.now.newest.clients.slots key))) × (self.now.past.items ≡ []) }
        ensures no { result ≡ false → ((key : ℕ) × ReadsFile (get self.now.newest.clients.slots key)) ⊎ (self.now.past.items ≢ []) }
    {
        !self.is_read() && self.past.is_empty()
    }

    /// Who reads the file before goes on to, at a station of its own.
    fn leave_file(&mut self, before: LiveHub<D>, next: Next)
        ensures left { HasRoom self.old → IsLeft before next self.old self.new }
        ensures readers { ReadersLeave self.old.newest self.new.newest }
    {
        let number = self.last.saturating_add(1);
        self.last = number;
        match Station::over(self.alloc, before, self.newest.keys()) {
            Ok(station) => {
                let mut past = Past {
                    number,
                    station,
                    next,
                    meeting: None,
                };
                self.send_readers(&mut past);
                let _ = self.past.push(past);
            }
            Err(_) => self.drop_readers(),
        }
    }

    /// In the file that is recorded now the link goes on that was open at the end of the one before: who hears that hears
    /// on. Call it after `change`, before anybody has a turn.
    pub fn goes_on(&mut self, meeting: Meeting)
        ensures { IsMet meeting self.old self.new }
    {
        if let Some(past) = self.past.last_mut() {
            if past.number == self.last {
                past.next = Next::GoesOn;
                past.meeting = Some(meeting);
            }
        }
    }

    /// Who reads the file before moves to the station over it.
    fn send_readers(&mut self, past: &mut Past<D>)
        ensures sent { vec_len self.old.moves + self.old.newest.clients.slots.capacity ≤ vec_capacity self.old.moves → (sent : List MoveOf)
            × (self.new.moves.items ≡ self.old.moves.items ++ sent)
            × AreSent past.old.number sent self.old.newest self.new.newest past.old.station past.new.station }
        ensures readers { ReadersLeave self.old.newest self.new.newest }
        ensures past { past.new ≡ record past.old { station = past.new.station } }
        ensures rest { self.new ≡ record self.old { newest = self.new.newest; moves = self.new.moves } }
    {
        for key in 0..self.newest.keys() {
            self.send_reader(past, key);
        }
    }

    /// If this connection reads the file before it moves to the station over it.
    fn send_reader(&mut self, past: &mut Past<D>, key: usize)
        ensures sent { SendsIf past.old.number key self.old self.new past.old.station past.new.station }
        ensures others { OthersStay key self.old.newest.clients self.new.newest.clients }
        ensures room { (vec_capacity self.old.moves ≤ vec_capacity self.new.moves) × (vec_len self.new.moves ≤ vec_len self.old.moves + 1) }
        ensures past { past.new ≡ record past.old { station = past.new.station } }
        ensures rest { self.new ≡ record self.old { newest = self.new.newest; moves = self.new.moves } }
    {
        let Some(client) = take_reader(&mut self.newest, key) else {
            return;
        };
        let to = enter(&mut past.station, past.number, client);
        self.note_move(key, to);
    }

    /// Who reads the file before has no seat any more.
    fn drop_readers(&mut self)
        ensures dropped { vec_len self.old.moves + self.old.newest.clients.slots.capacity ≤ vec_capacity self.old.moves → (sent : List MoveOf)
            × (self.new.moves.items ≡ self.old.moves.items ++ sent) × AreDropped sent self.old.newest self.new.newest }
        ensures readers { ReadersLeave self.old.newest self.new.newest }
        ensures rest { self.new ≡ record self.old { newest = self.new.newest; moves = self.new.moves } }
    {
        for key in 0..self.newest.keys() {
            self.drop_reader(key);
        }
    }

    /// If this connection reads the file before it has no seat any more.
    fn drop_reader(&mut self, key: usize)
        ensures dropped { DropsIf key self.old self.new }
        ensures others { OthersStay key self.old.newest.clients self.new.newest.clients }
        ensures room { (vec_capacity self.old.moves ≤ vec_capacity self.new.moves) × (vec_len self.new.moves ≤ vec_len self.old.moves + 1) }
        ensures rest { self.new ≡ record self.old { newest = self.new.newest; moves = self.new.moves } }
    {
        let Some(_client) = take_reader(&mut self.newest, key) else {
            return;
        };
        self.note_move(key, None);
    }

    /// A connection of the newest has another seat, or none. The room for it was made.
    fn note_move(&mut self, key: usize, to: Option<Seat>)
        ensures noted { vec_len self.old.moves < vec_capacity self.old.moves
            → self.new.moves.items ≡ self.old.moves.items ++ record { from = record { station = 0; key = key }; to = to } ∷ [] }
        ensures room { (vec_capacity self.old.moves ≤ vec_capacity self.new.moves) × (vec_len self.new.moves ≤ vec_len self.old.moves + 1) }
        ensures rest { self.new ≡ record self.old { moves = self.new.moves } }
    {
        let from = Seat { station: 0, key };
        let _ = self.moves.push(Move { from, to });
    }

    /// After a turn of this connection: if it has heard all of a file that was left it hears what follows, at another seat.
    pub fn move_on(&mut self, seat: Seat)
        ensures nowhere { place_in seat.station self.old.past.items ≡ None → self.new ≡ self.old }
        ensures moves { (at : ℕ) (past : PastOf D) → place_in seat.station self.old.past.items ≡ Some at
            → slice_get self.old.past.items at ≡ Some past → MovesOn D.Disk at seat past self.old self.new }
    {
        let Some(at) = place_of(self.past.as_slice(), seat.station) else {
            return;
        };
        let Some((client, next)) = self.leave(at, seat.key) else {
            return;
        };
        let to = self.enter_if(at, client, next);
        let _ = self.moves.push(Move { from: seat, to });
    }

    /// A connection that has heard all of a file that was left enters the station over the one that follows, if it isn't gone.
    fn enter_if(&mut self, at: usize, client: Option<Client>, next: Next) -> Option<Seat>
        ensures { EntersIf (min (at + 1) (2 ^ 64 - 1)) next client result self.old self.new }
    {
        match client {
            Some(client) => self.enter_after(at, client, next),
            None => None,
        }
    }

    /// A connection has heard all of a file that was left, and enters the station over the one that follows.
    fn enter_after(&mut self, at: usize, client: Client, next: Next) -> Option<Seat>
        ensures { EntersBehind (slice_get self.old.past.items (min (at + 1) (2 ^ 64 - 1))) (min (at + 1) (2 ^ 64 - 1)) next client result self.old self.new }
    {
        match self.past.get_mut(at.saturating_add(1)) {
            Some(past) => enter_next(&mut past.station, past.number, client, next),
            None => enter_next(&mut self.newest, 0, client, next),
        }
    }

    /// A connection leaves a station over a file that was left, if it has heard all of that. It returns what follows. The
    /// connection is gone if there was no memory for it to hear on.
    fn leave(&mut self, at: usize, key: usize) -> Option<(Option<Client>, Next)>
        ensures nobody { slice_get self.old.past.items at ≡ None → (result ≡ None) × (self.new ≡ self.old) }
        ensures leaves { (past : PastOf D) → slice_get self.old.past.items at ≡ Some past → (after : PastOf D) × LetsGo D.Disk key result past after
            × (self.new.past.items ≡ slice_set self.old.past.items at after) }
        ensures rest { self.new ≡ record self.old { past = self.new.past } }
    {
        self.past.get_mut(at)?.let_go(key)
    }

    /// A file that has ended is closed once nobody reads it or an older one.
    pub fn close_unread(&mut self)
        ensures closed { (count : ℕ) × (self.new.past.items ≡ drop count self.old.past.items)
            × ((at : ℕ) (one : PastOf D) → at < count → slice_get self.old.past.items at ≡ Some one → slab_len one.station.clients.slots ≡ 0) }
        ensures next { (one : PastOf D) (later : List (PastOf D)) → self.new.past.items ≡ one ∷ later → slab_len one.station.clients.slots ≢ 0 }
        ensures rest { self.new ≡ record self.old { past = self.new.past } }
    {
        let count = unread(self.past.as_slice());
        self.past.drain(..count);
    }

    /// The moves since they were taken up last, in their order.
    pub fn moves(&self) -> &[Move]
        ensures { result.now ≡ self.now.moves.items }
    {
        self.moves.as_slice()
    }

    /// The moves were taken up.
    pub fn took_moves(&mut self)
        ensures none { self.new.moves.items ≡ [] }
        ensures rest { self.new ≡ record self.old { moves = self.new.moves } }
    {
        self.moves.clear();
    }
}
