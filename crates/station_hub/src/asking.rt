//! What a connection asks for.
ghost use Rattle.std.specs.Prelude.{◌≡◌, ◌≢◌, ◌⊎◌, ◌++◌, ℕ, None, Some, IfOk, IfErr, Result, true};
ghost use Rattle.serve_live.specs.Boundaries.{place_to_join};
ghost use Rattle.serve_live.specs.Listening.{ListenerState};
ghost use Rattle.serve_clients.specs.declared.client.Stage.TheVariants.{Cut as CutOf, Hearing as HearingOf};
ghost use Rattle.serve_hub.specs.Images.{IfFile, Reads};
ghost use Rattle.serve_hub.specs.Listening.{KeepsMachine};
ghost use Rattle.serve_hub.specs.Showing.{Shows};
ghost use Rattle.serve_machine.specs.Calls.{Steps};
ghost use Rattle.serve_machine.specs.Hub.{HubState, Receive};
ghost use Rattle.serve_machine.specs.declared.answers.Progress.{Progress as ProgressOf};
ghost use Rattle.serve_machine.specs.declared.fault.HubFault.{HubFault as HubFaultOf};
ghost use Rattle.station_hub.specs.Asking.{CannotConnect, CannotHear, CannotReceive, HasAsked, HasNoSession, IsConnected, IsCutFor, Listens, cut_after, stage_after};
ghost use Rattle.station_hub.specs.Keeping.{KeepsRecorded};
ghost use Rattle.station_hub.specs.Marking.{Start};
ghost use Rattle.station_hub.specs.Tracking.{JoinsAt, Tracks};
ghost use Rattle.serve_clients.specs.Client.{LacksHeadRoom, cut_for_memory, with_line, with_more, with_stage};
ghost use Rattle.serve_clients.specs.Line.{moved_on};
ghost use Rattle.serve_sources.specs.Asking.{is_source};
ghost use Rattle.serve_sources.specs.declared.asking.Asks.{Asks as AsksOf};

use crate::laws::listeners_join_committed_links;
use crate::live_hub::LiveHub;
use disk_model::Disk;
use serve_clients::{Client, Stage};
use serve_live::Listener;
use serve_machine::{HubFault, Progress, calls_move_their_session};
use serve_sources::{Asks, LIVE};

/// These bytes have come of the connection: its line moves, and they are remembered for the log.
pub fn notice(client: &mut Client, bytes: &[u8])
    ensures { client.new ≡ with_line (moved_on client.old.line) client.old }
{
    client.stands(client.line.moves());
    client.note_heard(bytes);
}

/// Adds bytes to the head, and says what it asks for. If there is no room for them and memory is refused, the connection
/// is cut.
pub fn ask(client: &mut Client, bytes: &[u8]) -> Asks
    ensures client { (client.new ≡ with_more client.new.head_room bytes.now client.old)
        ⊎ (LacksHeadRoom bytes.now client.old × (client.new ≡ cut_for_memory client.old)) }
    ensures asks { HasAsked result bytes.now client.old client.new }
    // A source is known by its method, unless memory was refused.
    ensures source { is_source (client.old.head ++ bytes.now) ≡ true
        → (result ≡ AsksOf.Source)
        ⊎ ((result ≡ AsksOf.More) × LacksHeadRoom bytes.now client.old × (client.new ≡ cut_for_memory client.old)) }
{
    match client.hear(bytes) {
        Ok(()) => Asks::of(client.head.as_slice()),
        Err(_) => {
            client.stage = Stage::Cut;
            Asks::More
        }
    }
}

impl<D: Disk + Drop> LiveHub<D> {
    /// The hub answers this connection: a session takes what has come of its head. If there is no place for one, the
    /// connection is cut.
    pub fn connect(&mut self, client: &mut Client)
        ensures connects { IsConnected (Shows D.Disk) self.old.hub self.new.hub client.old client.new
            ⊎ HasNoSession self.old.hub self.new.hub client.old client.new }
        // It is cut only for that, or if its session can't take the head.
        ensures cause { (machine : HubState) → Shows D.Disk self.old.hub machine → client.new.stage ≡ CutOf
            → CannotConnect D.Disk client.old.head self.old.hub self.new.hub }
        ensures disk { (self.new.hub.file ≡ self.old.hub.file)
            ⊎ IfFile (Reads D.Disk) self.old.hub.file self.new.hub.file }
        ensures recorded { KeepsRecorded D.Disk self.old.hub self.new.hub }
        ensures places { self.new.places ≡ self.old.places }
    {
        // For the proof alone.
        calls_move_their_session();
        match self.hub.connect() {
            Ok(id) => {
                let progress = self.hub.receive(id, client.head.as_slice());
                client.connected(id, stage_after(progress));
            }
            Err(_) => client.go_to(Stage::Cut),
        }
    }

    /// Further bytes of a request have come. The connection's session takes them, if it has one.
    pub fn read_on(&mut self, client: &mut Client, bytes: &[u8])
        ensures read { (id : ℕ) → client.old.session ≡ Some id → (progress : Result ProgressOf HubFaultOf)
            × Steps (Shows D.Disk) self.old.hub self.new.hub (λ machine. Receive id bytes.now progress)
            × (client.new ≡ with_stage (stage_after progress) client.old) }
        // The connection is cut only if its session can't take them.
        ensures cause { (id : ℕ) (machine : HubState) → client.old.session ≡ Some id → Shows D.Disk self.old.hub machine
            → client.new.stage ≡ CutOf → CannotReceive D.Disk id bytes.now machine self.old.hub self.new.hub }
        ensures unread { client.old.session ≡ None → (self.new.hub ≡ self.old.hub) × (client.new ≡ client.old) }
        ensures disk { (self.new.hub.file ≡ self.old.hub.file)
            ⊎ IfFile (Reads D.Disk) self.old.hub.file self.new.hub.file }
        ensures recorded { KeepsRecorded D.Disk self.old.hub self.new.hub }
        ensures places { self.new.places ≡ self.old.places }
    {
        if let Some(id) = client.session {
            self.read(id, client, bytes);
        }
    }

    /// Further bytes of a session's request.
    fn read(&mut self, id: u64, client: &mut Client, bytes: &[u8])
        ensures read { (progress : Result ProgressOf HubFaultOf)
            × Steps (Shows D.Disk) self.old.hub self.new.hub (λ machine. Receive id bytes.now progress)
            × (client.new ≡ with_stage (stage_after progress) client.old) }
        ensures cause { (machine : HubState) → Shows D.Disk self.old.hub machine → client.new.stage ≡ CutOf
            → CannotReceive D.Disk id bytes.now machine self.old.hub self.new.hub }
        ensures disk { (self.new.hub.file ≡ self.old.hub.file)
            ⊎ IfFile (Reads D.Disk) self.old.hub.file self.new.hub.file }
        ensures recorded { KeepsRecorded D.Disk self.old.hub self.new.hub }
        ensures places { self.new.places ≡ self.old.places }
    {
        // For the proof alone.
        calls_move_their_session();
        let progress = self.hub.receive(id, bytes);
        client.go_to(stage_after(progress));
    }

    /// A listener: it joins what is recorded, or waits until a link begins. If only the head of the answer is asked for, it
    /// gets that. If memory is refused it is cut, and after a fault of the file.
    pub fn listen(&mut self, client: &mut Client, head: bool)
        ensures joins { (start : Start) (machine : HubState) → Shows D.Disk self.old.hub machine → Tracks start machine self.old.places
            → client.new.stage ≡ HearingOf → (listener : ListenerState) × (client.new.listener ≡ Some listener)
            × JoinsAt (place_to_join self.old.places.boundaries) machine.committed listener }
        ensures becomes { Listens head client.old client.new }
        ensures cause { IsCutFor D.Disk self.old.places self.old.hub self.new.hub client.old client.new }
        ensures machine { KeepsMachine D.Disk self.old.hub self.new.hub }
        ensures disk { (self.new.hub.file ≡ self.old.hub.file)
            ⊎ IfFile (Reads D.Disk) self.old.hub.file self.new.hub.file }
        ensures recorded { KeepsRecorded D.Disk self.old.hub self.new.hub }
        ensures places { self.new.places ≡ self.old.places }
    {
        client.head.clear();
        if head {
            client.tell_last(LIVE);
            return;
        }
        match self.join() {
            Ok(listener) => {
                client.listener = Some(listener);
                client.stage = match client.tell(LIVE) {
                    Ok(()) => Stage::Hearing,
                    Err(_) => Stage::Cut,
                };
            }
            Err(fault) => cut_after(client, fault),
        }
    }

    /// A listener that joins where it may.
    fn join(&mut self) -> Result<Listener, HubFault>
        ensures joins { (start : Start) (machine : HubState) → Shows D.Disk self.old.hub machine → Tracks start machine self.old.places
            → IfOk result (λ listener. JoinsAt (place_to_join self.old.places.boundaries) machine.committed listener) }
        ensures cause { IfErr result (λ fault. ((fault ≡ HubFault.Memory) × (place_to_join self.old.places.boundaries ≢ None))
            ⊎ CannotHear D.Disk self.old.places self.old.hub self.new.hub) }
        ensures machine { KeepsMachine D.Disk self.old.hub self.new.hub }
        ensures disk { (self.new.hub.file ≡ self.old.hub.file)
            ⊎ IfFile (Reads D.Disk) self.old.hub.file self.new.hub.file }
        ensures recorded { KeepsRecorded D.Disk self.old.hub self.new.hub }
        ensures places { self.new.places ≡ self.old.places }
    {
        listeners_join_committed_links();
        match self.place() {
            Some(place) => self.hub.join(place),
            None => Ok(self.hub.wait()),
        }
    }
}

/// A connection for which the hub has this fault is cut.
fn cut_after(client: &mut Client, fault: HubFault)
    ensures { client.new ≡ cut_after fault client.old }
{
    match fault {
        HubFault::Memory => client.lack_memory(),
        HubFault::NoSession | HubFault::SessionsFull | HubFault::Source | HubFault::NoFile =>
            client.go_to(Stage::Cut),
    }
}

/// The stage of a connection whose session has taken bytes of its request. After a fault it is cut.
fn stage_after(progress: Result<Progress, HubFault>) -> Stage
    ensures { result ≡ stage_after progress }
{
    match progress {
        Ok(Progress::More) => Stage::Reading,
        Ok(Progress::Ready) => Stage::Sending,
        Err(_) => Stage::Cut,
    }
}
