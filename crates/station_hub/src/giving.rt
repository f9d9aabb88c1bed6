//! What a connection is to be sent.
ghost use Rattle.std.specs.Prelude.{◌≡◌, ◌≢◌, ◌⊎◌, ◌≤◌, ℕ, List, [], None, Some, Result, if◌then◌else◌, length, take};
ghost use Rattle.serve_live.specs.Hearing.{IsHearing};
ghost use Rattle.serve_live.specs.Listening.{ListenerState};
ghost use Rattle.serve_live.specs.Live.{Moment};
ghost use Rattle.serve_machine.specs.Hub.{Given as GivenOf, HubState, Pull};
ghost use Rattle.serve_machine.specs.Calls.{Steps};
ghost use Rattle.serve_machine.specs.declared.fault.HubFault.{HubFault as HubFaultOf};
ghost use Rattle.serve_hub.specs.Images.{IfFile, Reads};
ghost use Rattle.serve_hub.specs.Listening.{KeepsMachine};
ghost use Rattle.serve_hub.specs.Showing.{Shows};
ghost use Rattle.station_hub.specs.Keeping.{KeepsRecorded};
ghost use Rattle.station_hub.specs.Giving.{HasHeard, HasPulled, LosesFile, LosesSession, has_got_all, has_heard_by};
ghost use Rattle.serve_clients.specs.declared.client.Stage.TheVariants.{Cut as CutOf, Ending as EndingOf, Hearing as HearingOf, Sending as SendingOf};

use crate::live_hub::LiveHub;
use disk_model::Disk;
use serve_clients::{Client, Stage};
use serve_hub::Hub;
use serve_live::Listener;
use serve_machine::calls_move_their_session;

/// Gives the first of the bytes that couldn't be written before, and returns how many.
fn give_again(client: &Client, buffer: &mut [u8]) -> usize
    ensures bytes { take result buffer.new ≡ take (length buffer.old) client.now.unsent }
    ensures within { result ≤ length buffer.new }
{
    let unsent = client.unsent();
    let count = unsent.len().min(buffer.len());
    buffer[..count].copy_from_slice(&unsent[..count]);
    count
}

/// Pulls the next bytes of the response of the connection's session.
fn pull<D: Disk + Drop>(hub: &mut Hub<D>, id: u64, client: &mut Client, buffer: &mut [u8]) -> usize
    ensures pulled { (answer : Result GivenOf HubFaultOf)
        × Steps (Shows D.Disk) hub.old hub.new (λ after. Pull id (length buffer.old) answer)
        × HasPulled answer client.old result buffer.new client.new }
    // The connection is cut only if its session is lost.
    ensures cause { (machine : HubState) → Shows D.Disk hub.old machine → client.new.stage ≡ CutOf
        → LosesSession D.Disk id machine hub.old hub.new }
    ensures rest { client.new ≡ record client.old { stage = client.new.stage } }
    ensures disk { (hub.new.file ≡ hub.old.file) ⊎ IfFile (Reads D.Disk) hub.old.file hub.new.file }
    ensures within { result ≤ length buffer.new }
{
    match hub.pull(id, buffer) {
        Ok(pulled) => {
            client.go_to(stage_after(pulled.done));
            pulled.count
        }
        Err(_) => {
            client.go_to(Stage::Cut);
            0
        }
    }
}

/// The stage after a pull, by whether nothing is left.
fn stage_after(done: bool) -> Stage
    ensures { result ≡ (if done then EndingOf else SendingOf) }
{
    if done { Stage::Ending } else { Stage::Sending }
}

/// Pulls the next bytes that a listener hears. After a fault of the file the connection is cut.
fn hear<D: Disk + Drop>(hub: &mut Hub<D>, client: &mut Client, buffer: &mut [u8]) -> usize
    ensures heard { (machine : HubState) (moment : Moment) (given : List ℕ) (listener : ListenerState)
        → Shows D.Disk hub.old machine → client.old.listener ≡ Some listener → (hearing : IsHearing moment machine.committed listener given)
        → HasHeard moment machine.committed given hearing.rest (length buffer.old) client.old result buffer.new client.new }
    ensures lost { (machine : HubState) (moment : Moment) (given : List ℕ) (listener : ListenerState)
        → Shows D.Disk hub.old machine → client.old.listener ≡ Some listener → IsHearing moment machine.committed listener given
        → client.old.stage ≡ HearingOf → client.new.stage ≡ CutOf → LosesFile D.Disk hub.old hub.new }
    ensures machine { KeepsMachine D.Disk hub.old hub.new }
    ensures none { client.old.listener ≡ None → (result ≡ 0) × (hub.new ≡ hub.old) × (client.new ≡ client.old) }
    ensures rest { client.new ≡ record client.old { stage = client.new.stage; listener = client.new.listener } }
    ensures goes_on { (client.new.stage ≡ client.old.stage) ⊎ (client.new.stage ≡ CutOf) }
    ensures disk { (hub.new.file ≡ hub.old.file) ⊎ IfFile (Reads D.Disk) hub.old.file hub.new.file }
    ensures within { result ≤ length buffer.new }
{
    let Some(listener) = &mut client.listener else {
        return 0;
    };
    match hub.hear(listener, buffer) {
        Ok(count) => count,
        Err(_) => {
            client.go_to(Stage::Cut);
            0
        }
    }
}

/// Whether the listener, if there is one, has heard all that is committed, up to `end`.
fn has_heard_by(listener: &Option<Listener>, end: u64) -> bool
    ensures { result ≡ has_heard_by end listener.now }
{
    match listener {
        Some(listener) => listener.has_heard_all(end),
        None => false,
    }
}

impl<D: Disk + Drop> LiveHub<D> {
    /// Whether this connection listens and has got all that there is for it.
    pub fn has_got_all(&self, client: &Client) -> bool
        ensures { (machine : HubState) → Shows D.Disk self.now.hub machine → result ≡ has_got_all (length machine.committed) client.now }
    {
        client.stage == Stage::Hearing
            && client.unsent().is_empty()
            && has_heard_by(&client.listener, self.hub.end())
    }

    /// Gives the next bytes to be written: those that couldn't be written before, or the next ones of its response, or those
    /// that it hears next. It returns how many these are.
    pub fn give(&mut self, client: &mut Client, buffer: &mut [u8]) -> usize
        ensures again { client.old.unsent ≢ [] → (self.new.hub ≡ self.old.hub) × (client.new ≡ client.old)
            × (take result buffer.new ≡ take (length buffer.old) client.old.unsent) }
        ensures pulls { (id : ℕ) → client.old.unsent ≡ [] → client.old.stage ≡ SendingOf → client.old.session ≡ Some id
            → (answer : Result GivenOf HubFaultOf)
            × Steps (Shows D.Disk) self.old.hub self.new.hub (λ after. Pull id (length buffer.old) answer)
            × HasPulled answer client.old result buffer.new client.new }
        // A connection is cut only if its session is lost.
        ensures cause { (id : ℕ) (machine : HubState) → client.old.unsent ≡ [] → client.old.stage ≡ SendingOf
            → client.old.session ≡ Some id → Shows D.Disk self.old.hub machine → client.new.stage ≡ CutOf
            → LosesSession D.Disk id machine self.old.hub self.new.hub }
        ensures hears { (machine : HubState) (moment : Moment) (given : List ℕ) (listener : ListenerState)
            → client.old.unsent ≡ [] → client.old.stage ≡ HearingOf
            → Shows D.Disk self.old.hub machine → client.old.listener ≡ Some listener
            → (hearing : IsHearing moment machine.committed listener given)
            → HasHeard moment machine.committed given hearing.rest (length buffer.old) client.old result buffer.new client.new }
        ensures lost { (machine : HubState) (moment : Moment) (given : List ℕ) (listener : ListenerState)
            → client.old.unsent ≡ [] → client.old.stage ≡ HearingOf
            → Shows D.Disk self.old.hub machine → client.old.listener ≡ Some listener → IsHearing moment machine.committed listener given
            → client.new.stage ≡ CutOf → LosesFile D.Disk self.old.hub self.new.hub }
        ensures keeps { client.old.stage ≡ HearingOf → KeepsMachine D.Disk self.old.hub self.new.hub }
        ensures nothing { client.old.unsent ≡ [] → client.old.stage ≢ SendingOf → client.old.stage ≢ HearingOf
            → (result ≡ 0) × (self.new.hub ≡ self.old.hub) × (client.new ≡ client.old) }
        ensures unconnected { client.old.unsent ≡ [] → client.old.stage ≡ SendingOf → client.old.session ≡ None
            → (result ≡ 0) × (self.new.hub ≡ self.old.hub) × (client.new ≡ client.old) }
        ensures rest { client.new ≡ record client.old { stage = client.new.stage; listener = client.new.listener } }
        ensures goes_on { client.old.stage ≡ HearingOf → (client.new.stage ≡ HearingOf) ⊎ (client.new.stage ≡ CutOf) }
        ensures disk { (self.new.hub.file ≡ self.old.hub.file)
            ⊎ IfFile (Reads D.Disk) self.old.hub.file self.new.hub.file }
        ensures recorded { KeepsRecorded D.Disk self.old.hub self.new.hub }
        ensures within { result ≤ length buffer.new }
        ensures places { self.new.places ≡ self.old.places }
    {
        // For the proof alone.
        calls_move_their_session();
        if !client.unsent().is_empty() {
            return give_again(client, buffer);
        }
        match (client.stage, client.session) {
            (Stage::Sending, Some(id)) => pull(&mut self.hub, id, client, buffer),
            (Stage::Hearing, _) => hear(&mut self.hub, client, buffer),
            _ => 0,
        }
    }
}
