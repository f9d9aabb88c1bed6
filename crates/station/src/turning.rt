//! Whose turn it is.
ghost use Rattle.std.specs.Prelude.{◌≡◌, ◌≢◌, ◌≤◌, ◌<◌, ◌-◌, ◌==◌, ◌∷◌, ◌⊎◌, [], ℕ, None, Some, false, true, not, is_some, length, IfSome};
ghost use Rattle.slab.specs.Slab.{get, slab_len};
ghost use Rattle.serve_hub.specs.Parts.{is_settled};
ghost use Rattle.serve_hub.specs.Showing.{Shows};
ghost use Rattle.serve_machine.specs.Hub.{HubState};
ghost use Rattle.serve_clients.specs.Client.{ClientState, HasWritten, after_of, with_line, with_stage};
ghost use Rattle.serve_clients.specs.Clients.{AllStay, AreLookedAt, AreWoken, HasTurn, OthersStay, rested, told_by, turned_by, unread_by, unwritten_by};
ghost use Rattle.serve_clients.specs.Line.{taken_off};
ghost use Rattle.serve_clients.specs.declared.client.After.TheVariants.{Closes, Shuts};
ghost use Rattle.serve_clients.specs.declared.client.Stage.TheVariants.{Closing as ClosingOf};
ghost use Rattle.station_hub.specs.Patience.{until_due as until_commit};
ghost use Rattle.serve_clients.specs.Kinds.{both, kinds_in};
ghost use Rattle.station_sources.specs.Air.{feeder_in};
ghost use Rattle.station.specs.Clocks.{KeepsClocks, clocks_of, ended_from};
ghost use Rattle.station.specs.Ending.{gathers, has_finished, is_over};
ghost use Rattle.station.specs.Kept.{AreTurned};
ghost use Rattle.station.specs.Passing.{IsLike};
ghost use Rattle.station.specs.Succeeding.{HaveTurns};
ghost use Rattle.station.specs.Turning.{GoesOn, IsRead, waits_for_more};
ghost use Rattle.station.specs.Waiting.{until_look, until_next};
ghost use Rattle.station_hub.specs.Waking.{is_due, listeners_every, until_due, woken_at};

use crate::station::Station;
use disk_model::Disk;
use serve_clients::{After, Stage, Trouble};
use station_hub::{Waking, sooner};
use station_sources::{Feeder, Shown};

/// After how many milliseconds everybody has a turn.
const LOOKS: u64 = 1000;

/// For how many milliseconds connections are waited for at the end.
const MOST_ENDING: u64 = 60_000;

impl<D: Disk + Drop> Station<D> {
    /// The system has told that this connection may have bytes, or room for some. It gets a turn.
    pub fn wake(&mut self, key: usize, readable: bool, writable: bool)
        ensures turn { (client : ClientState) → get self.old.clients.slots key ≡ Some client
            → HasTurn key (told_by readable writable client) self.old.clients self.new.clients }
        ensures none { get self.old.clients.slots key ≡ None → self.new ≡ self.old }
        ensures others { OthersStay key self.old.clients self.new.clients }
        ensures rest { self.new ≡ record self.old { clients = self.new.clients } }
    {
        self.clients.wake(key, readable, writable);
    }

    /// How many connections have a turn.
    pub fn turns(&self) -> usize
        ensures { result ≡ self.now.clients.turns.len }
    {
        self.clients.turns()
    }

    /// The connection whose turn it is, if one has something to do.
    pub fn next_turn(&mut self) -> Option<usize>
        ensures none { result ≡ None → (self.old.clients.turns.items ≡ []) × AllStay self.old.clients self.new.clients }
        ensures turn { IfSome result (λ key. self.old.clients.turns.items ≡ key ∷ self.new.clients.turns.items) }
        ensures begins { IfSome result (λ key. (client : ClientState) → get self.old.clients.slots key ≡ Some client
            → get self.new.clients.slots key ≡ Some (with_line (taken_off client.line) client)) }
        ensures gone { IfSome result (λ key. get self.old.clients.slots key ≡ None → get self.new.clients.slots key ≡ None) }
        ensures others { IfSome result (λ key. OthersStay key self.old.clients self.new.clients) }
        ensures live { self.new.live ≡ self.old.live }
        ensures air { self.new.air ≡ self.old.air }
        ensures clocks { KeepsClocks self.old self.new }
    {
        self.clients.next_turn()
    }

    /// Whether bytes of this connection are to be read in its turn. Only those of a source may have to wait.
    pub fn reads(&self, key: usize) -> bool
        ensures none { get self.now.clients.slots key ≡ None → result ≡ false }
        ensures yes { (client : ClientState) → get self.now.clients.slots key ≡ Some client → result ≡ true → IsRead key client self.now.air }
        ensures no { (client : ClientState) → get self.now.clients.slots key ≡ Some client → result ≡ false → ¬ (IsRead key client self.now.air) }
    {
        let Some(client) = self.clients.slots.get(key) else {
            return false;
        };
        client.line.readable
            && match client.stage {
                Stage::Feeding => self.is_hungry(Feeder::Peer(key)),
                Stage::Waiting | Stage::Cut => false,
                _ => true,
            }
    }

    /// Whether it may have room for bytes.
    pub fn writes(&self, key: usize) -> bool
        ensures some { (client : ClientState) → get self.now.clients.slots key ≡ Some client → result ≡ client.line.writable }
        ensures none { get self.now.clients.slots key ≡ None → result ≡ false }
    {
        self.clients.writes(key)
    }

    /// Nothing could be read.
    pub fn read_failed(&mut self, key: usize, trouble: Trouble)
        ensures failed { (client : ClientState) → get self.old.clients.slots key ≡ Some client
            → get self.new.clients.slots key ≡ Some (unread_by trouble client) }
        ensures none { get self.old.clients.slots key ≡ None → get self.new.clients.slots key ≡ None }
        ensures others { OthersStay key self.old.clients self.new.clients }
        ensures live { self.new.live ≡ self.old.live }
        ensures air { self.new.air ≡ self.old.air }
        ensures clocks { KeepsClocks self.old self.new }
    {
        self.clients.read_failed(key, trouble);
    }

    /// None of the bytes that `next` gave could be written. They are kept, as after `wrote`.
    pub fn write_failed(&mut self, key: usize, bytes: &[u8], trouble: Trouble)
        ensures failed { (client : ClientState) → get self.old.clients.slots key ≡ Some client
            → (kept : ClientState) × HasWritten bytes.now 0 client kept × (get self.new.clients.slots key ≡ Some (unwritten_by trouble kept)) }
        ensures none { get self.old.clients.slots key ≡ None → get self.new.clients.slots key ≡ None }
        ensures others { OthersStay key self.old.clients self.new.clients }
        ensures live { self.new.live ≡ self.old.live }
        ensures air { self.new.air ≡ self.old.air }
        ensures clocks { KeepsClocks self.old self.new }
    {
        self.clients.write_failed(key, bytes, trouble);
    }

    /// The turn is over, and this becomes of the connection. It gets another one if bytes went over it, or may at once:
    /// if bytes of it are to be read. A listener that has got all that is committed waits until it is woken.
    pub fn turned(&mut self, key: usize, now: u64) -> After
        ensures after { (client : ClientState) → get self.old.clients.slots key ≡ Some client → result ≡ after_of client }
        ensures again { (client : ClientState) (machine : HubState) → get self.old.clients.slots key ≡ Some client → Shows D.Disk self.old.live.hub machine
            → GoesOn key (waits_for_more (length machine.committed) (is_over self.old.air self.old.ending) client) client self.old.air
            → HasTurn key (turned_by (waits_for_more (length machine.committed) (is_over self.old.air self.old.ending) client) now client)
            self.old.clients self.new.clients }
        ensures rests { (client : ClientState) (machine : HubState) → get self.old.clients.slots key ≡ Some client → Shows D.Disk self.old.live.hub machine
            → ¬ (GoesOn key (waits_for_more (length machine.committed) (is_over self.old.air self.old.ending) client) client self.old.air)
            → (get self.new.clients.slots key ≡ Some (rested (waits_for_more (length machine.committed) (is_over self.old.air self.old.ending) client) client))
            × (self.new.clients.turns ≡ self.old.clients.turns) }
        ensures none { get self.old.clients.slots key ≡ None → (result ≡ Closes) × (get self.new.clients.slots key ≡ None) }
        // It is as it was, or is told that no more comes.
        ensures stays { (client : ClientState) → get self.old.clients.slots key ≡ Some client → (after : ClientState) × (get self.new.clients.slots key ≡ Some after)
            × (IsLike client after ⊎ ((after_of client ≡ Shuts) × IsLike (with_stage ClosingOf client) after)) }
        // Only then does it begin to be waited for anew.
        ensures since { (client after : ClientState) → get self.old.clients.slots key ≡ Some client → after_of client ≢ Shuts
            → get self.new.clients.slots key ≡ Some after → after.since ≡ client.since }
        ensures others { OthersStay key self.old.clients self.new.clients }
        ensures live { self.new.live ≡ self.old.live }
        ensures air { self.new.air ≡ self.old.air }
        ensures clocks { KeepsClocks self.old self.new }
    {
        let reads = self.reads(key);
        let rests = self.waits_for_more(key);
        self.clients.turned(key, reads, rests, now)
    }

    /// Whether this connection listens, has got all that is committed, and is to get more.
    fn waits_for_more(&self, key: usize) -> bool
        ensures none { get self.now.clients.slots key ≡ None → result ≡ false }
        ensures some { (client : ClientState) (machine : HubState) → get self.now.clients.slots key ≡ Some client → Shows D.Disk self.now.live.hub machine
            → result ≡ waits_for_more (length machine.committed) (is_over self.now.air self.now.ending) client }
    {
        match self.clients.slots.get(key) {
            Some(client) => !self.is_over() && self.live.has_got_all(client),
            None => false,
        }
    }

    /// Whoever hears what is recorded has a turn, if there is more for them and it is time.
    #[tactic(auto, using(crate::proofs::Succeeding::woken, crate::proofs::Kept::woken, crate::specs::KeptLaws::all_turned))]
    pub(crate) fn wake_listeners(&mut self, now: u64)
        ensures due { (machine : HubState) → Shows D.Disk self.old.live.hub machine
            → is_due (gathers self.old.air self.old.ending) self.old.waking now (length machine.committed) ≡ true
            → (self.new.waking ≡ woken_at now (length machine.committed)) × AreWoken self.old.clients self.new.clients }
        ensures waits { (machine : HubState) → Shows D.Disk self.old.live.hub machine
            → is_due (gathers self.old.air self.old.ending) self.old.waking now (length machine.committed) ≡ false → self.new ≡ self.old }
        ensures clocks { KeepsClocks self.old self.new }
        ensures turns { HaveTurns self.old.clients.slots self.new.clients.slots }
        ensures turned { AreTurned self.old.clients.slots self.new.clients.slots }
        ensures live { self.new.live ≡ self.old.live }
        ensures air { self.new.air ≡ self.old.air }
    {
        let end = self.live.hub().end();
        if self.waking.is_due(self.gathers(), now, end) {
            self.waking = Waking::at(now, end);
            self.clients.wake_hearing();
        }
    }

    /// Whether pages are gathered for those who hear them: not at the end of a source, nor of the station.
    fn gathers(&self) -> bool
        ensures { result ≡ gathers self.now.air self.now.ending }
    {
        self.air.is_some() && self.ending.is_none()
    }

    /// Whether what is recorded has come to its end: no source has the air, and none gets it any more.
    pub(crate) fn is_over(&self) -> bool
        ensures { result ≡ is_over self.now.air self.now.ending }
    {
        self.ending.is_some() && self.air.is_none()
    }

    /// Bytes of the source are wanted again.
    pub(crate) fn wake_feeder(&mut self)
        ensures rest { self.new ≡ record self.old { clients = self.new.clients } }
        ensures turn { (key : ℕ) (client : ClientState) → feeder_in self.old.air ≡ Some (Feeder.Peer key) → get self.old.clients.slots key ≡ Some client
            → IsRead key client self.old.air → HasTurn key (told_by false false client) self.old.clients self.new.clients }
        ensures turns { HaveTurns self.old.clients.slots self.new.clients.slots }
        ensures turned { AreTurned self.old.clients.slots self.new.clients.slots }
    {
        if let Some(Feeder::Peer(key)) = self.feeder() {
            if self.reads(key) {
                self.wake(key, false, false);
            }
        }
    }

    /// Once a second everybody has a turn, and who was silent for too long is cut. Those who hear what is recorded are woken
    /// by that for all that is committed. Call it in each round; it returns whether the second is over.
    pub fn look(&mut self, now: u64) -> bool
        ensures early { now - self.old.looked < 1000 → (result ≡ false) × (self.new ≡ self.old) }
        ensures late { 1000 ≤ now - self.old.looked → (result ≡ true) × (self.new.looked ≡ now) × AreLookedAt now self.old.clients self.new.clients }
        ensures commits { 1000 ≤ now - self.old.looked → (self.new.commits ≡ self.old.counts.commits)
            × (self.new.commits_a_second ≡ self.old.counts.commits - self.old.commits) }
        ensures woken { (machine : HubState) → Shows D.Disk self.old.live.hub machine → 1000 ≤ now - self.old.looked
            → self.new.waking ≡ woken_at now (length machine.committed) }
        ensures live { self.new.live ≡ self.old.live }
        ensures air { self.new.air ≡ self.old.air }
        ensures clocks { clocks_of self.new ≡ record (clocks_of self.old) { looked = self.new.looked } }
    {
        if now.saturating_sub(self.looked) < LOOKS {
            return false;
        }
        self.looked = now;
        self.waking = Waking::at(now, self.live.hub().end());
        self.commits_a_second = self.counts.commits.saturating_sub(self.commits);
        self.commits = self.counts.commits;
        self.clients.look(now);
        true
    }

    /// How it does.
    pub fn shown(&self) -> Shown
        ensures recorded { (machine : HubState) → Shows D.Disk self.now.live.hub machine → result.bytes ≡ length machine.committed }
        ensures source { (result.on_air ≡ is_some self.now.air) × (result.packets ≡ self.now.counts.packets) }
        ensures commits { result.commits ≡ self.now.commits_a_second }
        ensures listeners { result.listeners ≡ (both (kinds_in self.now.clients.slots) self.now.elsewhere).listeners }
    {
        Shown {
            on_air: self.air.is_some(),
            listeners: self.clients.kinds().and(self.elsewhere).listeners,
            packets: self.counts.packets,
            bytes: self.live.hub().end(),
            commits: self.commits_a_second,
        }
    }

    /// How many milliseconds may be waited, if nothing comes, until there is something to do.
    pub fn until_next(&self, now: u64) -> u64
        ensures exactly { (machine : HubState) → Shows D.Disk self.now.live.hub machine
            → result ≡ until_next self.now.clients.turns.len (until_commit machine.waiting self.now.waiting_since now)
            (until_due (gathers self.now.air self.now.ending) self.now.waking now (length machine.committed))
            (until_look self.now.looked now) }
        ensures turn { 0 < self.now.clients.turns.len → result ≡ 0 }
        ensures waking { self.now.waking.unheard ≡ true → result ≤ listeners_every - (now - self.now.waking.woken) }
        ensures looks { result ≤ until_look self.now.looked now }
    {
        if self.clients.turns() > 0 {
            return 0;
        }
        let end = self.live.hub().end();
        let waking = self.waking.until_due(self.gathers(), now, end);
        let looks = LOOKS.saturating_sub(now.saturating_sub(self.looked));
        sooner(self.until_due(now), sooner(waking, looks))
    }

    /// The station comes to its end: no connection is taken any more, and who hears what is recorded is closed once it has
    /// heard all.
    pub(crate) fn finish(&mut self, now: u64)
        ensures air { self.new.air ≡ self.old.air }
        ensures ending { self.new.ending ≡ ended_from self.old.ending now }
        ensures options { self.new.options ≡ self.old.options }
        ensures counts { self.new.counts ≡ self.old.counts }
        ensures since { (self.new.waiting_since ≡ self.old.waiting_since) × (self.new.reopened ≡ self.old.reopened) × (self.new.looked ≡ self.old.looked) }
        ensures clients { self.new.clients ≡ self.old.clients }
        ensures live { self.new.live ≡ self.old.live }
    {
        if self.ending.is_none() {
            self.ending = Some(now);
            self.waking = self.waking.with_more();
        }
    }

    /// Whether the station has come to its end: all that came is recorded and kept, and nobody is connected any more, or
    /// those who are have had a minute.
    pub fn is_finished(&self, now: u64) -> bool
        ensures { result ≡ has_finished self.now.ending (is_some self.now.air) (is_settled self.now.live.hub.file)
            (not (slab_len self.now.clients.slots == 0)) now }
    {
        match self.ending {
            Some(since) => {
                self.air.is_none()
                    && self.live.hub().is_settled()
                    && (self.clients.slots.is_empty() || MOST_ENDING <= now.saturating_sub(since))
            }
            None => false,
        }
    }
}
