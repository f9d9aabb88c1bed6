//! A connection, and how far it has come.
ghost use Rattle.std.specs.Prelude.{◌≡◌, ◌≢◌, ◌⊎◌, ◌≤◌, ◌++◌, [], Some, drop, IsOk, OnOk, OnErr, vec_capacity, vec_len};
ghost use Rattle.serve_clients.specs.Clients.{goes_again, rested, unwritten_by};
ghost use Rattle.serve_clients.specs.Client.{ClientState, HasLast, HasWritten, LacksHeadRoom, LacksRoom, after_of, cut_for_memory, fresh, given, memory_refused, moved_if, told, with_line, with_more, with_stage};
ghost use Rattle.serve_texts.specs.Player.{player_response};
ghost use Rattle.serve_texts.specs.Status.{status_response};

use crate::Memory;
use crate::grower::Grower;
use crate::line::{Line, Trouble};
use serve_live::Listener;
use serve_texts::{Numbers, Visit, append_player, append_status};
use std::alloc::Global;
use std::marker::Model;

/// How far a connection has come.
#[derive(Clone, Copy, Debug, PartialEq, Eq)]
pub enum Stage {
    /// What has come doesn't say yet what it asks for.
    Asking,
    /// The head of a source's request comes.
    Offering,
    /// A source waits for the air, which another one has.
    Waiting,
    /// A source's stream comes.
    Feeding,
    /// The hub's session reads its request.
    Reading,
    /// The hub's session gives its response.
    Sending,
    /// It hears what is recorded.
    Hearing,
    /// What is kept for it is its last.
    Ending,
    /// It has got its last byte, and was told so. What it still sends is passed over.
    Closing,
    /// It is cut: nothing more is taken or given.
    Cut,
}

/// What becomes of a connection after its turn.
#[derive(Clone, Copy, Debug, PartialEq, Eq)]
pub enum After {
    /// It goes on.
    Goes,
    /// The peer is to be told that no further byte comes.
    Shuts,
    /// It is to be closed.
    Closes,
}

/// A connection. What is kept of its head, and what was given for it and couldn't be written yet, is in its memory.
#[derive(Drop)]
pub struct Client {
    pub stage: Stage,
    // the number of its session in the hub, if it has one
    pub session: Option<u64>,
    // what has come of its head, until it is known what it asks for
    pub head: Vec<u8>,
    // what was to be written, and how much of it was
    rest: Vec<u8>,
    sent: usize,
    // whether memory for it was refused
    grower: Grower,
    pub listener: Option<Listener>,
    // since when it has neither sent nor taken a byte, though it could: milliseconds of the caller's clock
    pub since: u64,
    // nothing was left to be sent when it was last asked
    pub idle: bool,
    pub line: Line,
    // what is remembered for its line in the log, if there is one
    pub visit: Option<Visit>,
}

impl Model for Client {
    ghost use Rattle.std.specs.Prelude.{◌≤◌, drop, length, vec_capacity};
    ghost use Rattle.serve_clients.specs.Client.{ClientState};

    ghost Value = { ClientState };

    ghost view = { λ c. record {
      stage = c.stage;
      session = c.session;
      head = c.head.items;
      unsent = drop c.sent c.rest.items;
      listener = c.listener;
      since = c.since;
      idle = c.idle;
      line = c.line;
      refused = c.grower;
      head_room = vec_capacity c.head;
      room = vec_capacity c.rest;
    } };

    ghost invariant = { λ c. c.sent ≤ length c.rest.items };
}

/// What was written of these bytes is no longer kept. Their memory stays.
fn forget_sent(rest: &mut Vec<u8>, sent: &mut usize)
    requires { sent.old ≤ vec_len rest.old }
    ensures rest { rest.new.items ≡ drop sent.old rest.old.items }
    ensures sent { sent.new ≡ 0 }
    ensures room { vec_capacity rest.new ≡ vec_capacity rest.old }
{
    rest.rotate_left(*sent);
    rest.truncate(rest.len() - *sent);
    *sent = 0;
}

impl Client {
    /// A connection that has said nothing.
    pub fn new(alloc: Global, now: u64, visit: Option<Visit>) -> Client
        ensures { result ≡ fresh now }
    {
        Client {
            stage: Stage::Asking,
            session: None,
            head: Vec::new(alloc),
            rest: Vec::new(alloc),
            sent: 0,
            grower: Grower::new(),
            listener: None,
            since: now,
            idle: true,
            line: Line::new(),
            visit,
        }
    }

    /// Further bytes of its head have come. After `Memory`, which is noted, none of them are kept, and there was no room
    /// for them.
    pub fn hear(&mut self, bytes: &[u8]) -> Result<(), Memory>
        ensures ok { OnOk result (self.new ≡ with_more self.new.head_room bytes.now self.old) }
        ensures err { OnErr result (self.new ≡ memory_refused self.old) }
        ensures full { OnErr result (LacksHeadRoom bytes.now self.old) }
        ensures room { self.old.head_room ≤ self.new.head_room }
        ensures none { bytes.now ≡ [] → IsOk result }
    {
        self.grower.append(&mut self.head, bytes)
    }

    /// This text is the next that is written. After `Memory`, which is noted, nothing of it is, and there was no room for
    /// it.
    pub fn tell(&mut self, text: &[u8]) -> Result<(), Memory>
        ensures ok { OnOk result (self.new ≡ told self.new.room text.now self.old) }
        ensures err { OnErr result (self.new ≡ memory_refused self.old) }
        ensures full { OnErr result (LacksRoom text.now self.old) }
        ensures room { self.old.room ≤ self.new.room }
        ensures none { text.now ≡ [] → IsOk result }
    {
        forget_sent(&mut self.rest, &mut self.sent);
        self.grower.append(&mut self.rest, text)
    }

    /// This text is the last that is written. If memory for it is refused, the connection is cut.
    pub fn tell_last(&mut self, text: &[u8])
        ensures { HasLast text.now self.old self.new }
    {
        match self.tell(text) {
            Ok(()) => self.stage = Stage::Ending,
            Err(_) => self.stage = Stage::Cut,
        }
    }

    /// The player is the last that is written. If memory for it is refused, the connection is cut.
    pub fn tell_player(&mut self, head: bool)
        ensures { HasLast (player_response head) self.old self.new }
    {
        forget_sent(&mut self.rest, &mut self.sent);
        match append_player(&mut self.rest, head) {
            Ok(()) => self.stage = Stage::Ending,
            Err(_) => self.lack_memory(),
        }
    }

    /// These numbers are the last that is written. If memory for them is refused, the connection is cut.
    pub fn tell_status(&mut self, numbers: &Numbers, head: bool)
        ensures { HasLast (status_response numbers.now head) self.old self.new }
    {
        forget_sent(&mut self.rest, &mut self.sent);
        match append_status(&mut self.rest, numbers, head) {
            Ok(()) => self.stage = Stage::Ending,
            Err(_) => self.lack_memory(),
        }
    }

    /// Memory for what it is to get was refused: it is cut.
    pub fn lack_memory(&mut self)
        ensures { self.new ≡ cut_for_memory self.old }
    {
        self.grower.note();
        self.stage = Stage::Cut;
    }

    /// It is in this stage from now on.
    pub fn go_to(&mut self, stage: Stage)
        ensures { self.new ≡ with_stage stage self.old }
    {
        self.stage = stage;
    }

    /// It has this session in the hub, which has taken its head, and is in this stage.
    pub fn connected(&mut self, id: u64, stage: Stage)
        ensures { self.new ≡ record self.old { stage = stage; session = Some id; head = [] } }
    {
        self.session = Some(id);
        self.head.clear();
        self.stage = stage;
    }

    /// What was given for it and isn't written yet.
    pub fn unsent(&self) -> &[u8]
        ensures { result.now ≡ self.now.unsent }
    {
        &self.rest[self.sent..]
    }

    /// The first `count` of the bytes that were given were written: those that couldn't be written before, or these if
    /// there were none. What is left is kept; if there is no room for it and memory is refused, the connection is cut.
    pub fn wrote(&mut self, bytes: &[u8], count: usize)
        ensures again { self.old.unsent ≢ [] → self.new ≡ record self.old { unsent = drop count self.old.unsent } }
        ensures anew { self.old.unsent ≡ [] → (self.new ≡ record self.old { unsent = drop count bytes.now; room = self.new.room })
            ⊎ (LacksRoom (drop count bytes.now) self.old × (self.new ≡ cut_for_memory self.old)) }
        ensures whole { self.old.unsent ≡ [] → drop count bytes.now ≡ [] → self.new ≡ record self.old { room = self.new.room } }
        ensures room { self.old.room ≤ self.new.room }
        ensures written { HasWritten bytes.now count self.old self.new }
    {
        if !self.unsent().is_empty() {
            self.sent = self.sent.saturating_add(count).min(self.rest.len());
            return;
        }
        self.rest.clear();
        self.sent = 0;
        let (_, left) = bytes.split_at(count.min(bytes.len()));
        if self.grower.append(&mut self.rest, left).is_err() {
            self.stage = Stage::Cut;
        }
    }

    /// So many bytes were given to be written. If there were none, it has been given all that there is; a listener has
    /// then heard all if what is recorded comes to its end.
    pub fn given(&mut self, count: usize, ending: bool, now: u64)
        ensures { self.new ≡ given count ending now self.old }
    {
        if count == 0 {
            self.idle = true;
            if self.stage == Stage::Hearing && ending {
                self.stage = Stage::Ending;
            }
        } else if self.idle {
            self.idle = false;
            self.since = now;
        }
    }

    /// So many bytes were written to it.
    pub fn moved(&mut self, count: usize, now: u64)
        ensures { self.new ≡ moved_if count now self.old }
    {
        if count > 0 {
            self.since = now;
            self.line = self.line.moves();
        }
    }

    /// Its socket stands so from now on.
    pub fn stands(&mut self, line: Line)
        ensures { self.new ≡ with_line line self.old }
    {
        self.line = line;
    }

    /// None of these bytes could be written. They are kept, as after `wrote`. A broken connection is cut.
    pub fn write_failed(&mut self, bytes: &[u8], trouble: Trouble)
        ensures { (kept : ClientState) × HasWritten bytes.now 0 self.old kept × (self.new ≡ unwritten_by trouble kept) }
    {
        self.wrote(bytes, 0);
        self.line = self.line.write_failed(trouble);
        if trouble == Trouble::Broken {
            self.stage = Stage::Cut;
        }
    }

    /// What it has sent is remembered for the log.
    pub fn note_heard(&mut self, bytes: &[u8])
        ensures { self.new ≡ self.old }
    {
        if let Some(visit) = &mut self.visit {
            visit.heard(bytes);
        }
    }

    /// What was written to it is remembered for the log.
    pub fn note_sent(&mut self, bytes: &[u8])
        ensures { self.new ≡ self.old }
    {
        if let Some(visit) = &mut self.visit {
            visit.sent(bytes);
        }
    }

    /// Whether another turn follows its turn. If it rests, none does for the bytes that went over it.
    pub(crate) fn goes_again(&self, reads: bool, rests: bool) -> bool
        ensures { result ≡ goes_again reads rests self.now }
    {
        (self.line.moved && !rests) || self.after() == After::Shuts || reads
    }

    /// It waits for more, if it rests.
    pub(crate) fn rest_if(&mut self, rests: bool)
        ensures { self.new ≡ rested rests self.old }
    {
        if rests {
            self.idle = true;
        }
    }

    /// What becomes of it after its turn.
    pub fn after(&self) -> After
        ensures { result ≡ after_of self.now }
    {
        match self.stage {
            Stage::Cut => After::Closes,
            Stage::Ending if self.unsent().is_empty() => After::Shuts,
            _ => After::Goes,
        }
    }
}
