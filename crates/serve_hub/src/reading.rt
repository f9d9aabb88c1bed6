//! The file of a hub is read through a window. The window has the recorder, and the room for a page, while the call
//! goes on.
ghost use Rattle.std.specs.Prelude.{◌≡◌, ◌≢◌, ◌↔◌, ◌⊎◌, ◌≤◌, ℕ, List, None, Option, Some, Err, IsSome, IfOk, IfSome, length, vec_capacity};
ghost use Rattle.ogg_page.specs.Page.{Page};
ghost use Rattle.link_chain.specs.Links.{AreLinks};
ghost use Rattle.file_recorder.specs.Recorder.{committed};
ghost use Rattle.serve_machine.specs.Calls.{given_in};
ghost use Rattle.serve_machine.specs.Hub.{HubState, Session as SessionOf, phase_of, pull_step, receive_step};
ghost use Rattle.serve_sessions.specs.Indexing.{IsOfFront};
ghost use Rattle.serve_sessions.specs.Serving.{LacksRoomIn};
ghost use Rattle.serve_sessions.specs.Sessions.{AreInOrder, AreSessions, IdsRise, place_in};
ghost use Rattle.serve_hub.specs.declared.opening.Lost.{Lost};
ghost use Rattle.serve_hub.specs.Images.{IfFile, Reads, Fails};
ghost use Rattle.serve_hub.specs.Parts.{fault_of_place, fault_without_file};
ghost use Rattle.serve_hub.specs.Showing.{ShowsPlace};

use disk_model::Disk;
use file_recorder::Recorder;
use link_index::Index;
use ogg_page::{PageBuffer, Window};
use serve_machine::{HubFault, Progress, Pulled};
use serve_sessions::{Session, place_of, pull_in, receive_in};
use std::alloc::Global;

/// A window over the file, if there is one.
pub(crate) fn open_window<D: Disk>(
    file: &mut Option<Recorder<D>>,
    room: &mut Option<PageBuffer>,
) -> Option<Window<Recorder<D>>>
    requires { IsSome room.old }
    ensures source { IfSome result (λ window. file.old ≡ Some window.source) }
    ensures inside { IfSome result (λ window. D.is_honest window.source.file.disk
        → length (committed D.state window.source) ≡ window.source.file.end) }
    ensures none { result ≡ None → (file.old ≡ None) × (file.new ≡ None) × (room.new ≡ room.old) }
{
    match file.take() {
        Some(recorder) => {
            // For the proof alone.
            let _end = recorder.end();
            Some(Window::new(recorder, room.take().unwrap(), 0, 0))
        }
        None => None,
    }
}

/// Gives the file back.
pub(crate) fn close_window<D: Disk + Drop>(
    window: Window<Recorder<D>>,
    file: &mut Option<Recorder<D>>,
    room: &mut Option<PageBuffer>,
)
    ensures file { file.new ≡ Some window.source }
    ensures room { IsSome room.new }
{
    let (recorder, buffer) = window.into_parts();
    *file = Some(recorder);
    *room = Some(buffer);
}

/// Why nothing is done for a session if there is no file.
fn fault_without_file(sessions: &[Session], id: u64) -> HubFault
    requires { IdsRise sessions.now }
    ensures fault { (machine : HubState) (bytes : List ℕ) → AreSessions bytes sessions.now machine.sessions
        → result ≡ fault_without_file (phase_of machine id) }
    ensures memory { result ≢ HubFault.Memory }
    ensures source { result ≢ HubFault.Source }
    ensures place { result ≡ fault_of_place (place_in id sessions.now) }
{
    match place_of(sessions, id) {
        Some(_) => HubFault::NoFile,
        None => HubFault::NoSession,
    }
}

/// Bytes have come to the session with this number, which is served from the file.
pub(crate) fn receive_from<D: Disk + Drop>(
    file: &mut Option<Recorder<D>>,
    room: &mut Option<PageBuffer>,
    index: &mut Index,
    alloc: Global,
    sessions: &mut Vec<Session>,
    id: u64,
    bytes: &[u8],
) -> Result<Progress, HubFault>
    requires room { IsSome room.old }
    requires order { IdsRise sessions.old.items }
    ensures step { (lost : Option (Lost D)) (before : HubState) → ShowsPlace D.Disk file.old lost before
        → IsOfFront before.committed index.old → AreSessions before.committed sessions.old.items before.sessions
        → (left : List SessionOf) × ShowsPlace D.Disk file.new lost (record before { sessions = left })
        × IsOfFront before.committed index.new × AreSessions before.committed sessions.new.items left
        × receive_step (phase_of before id) before.has_file before id bytes.now result (record before { sessions = left }) }
    ensures cause { result ≡ Err HubFault.Source → (lost : Option (Lost D)) (before : HubState)
        → ShowsPlace D.Disk file.old lost before → IsOfFront before.committed index.old
        → (links : List (List Page)) → AreLinks before.committed links → IfFile (Fails D.Disk) file.old file.new }
    ensures memory { result ≡ Err HubFault.Memory → LacksRoomIn id sessions.old.items bytes.now }
    ensures disk { IfFile (Reads D.Disk) file.old file.new }
    ensures order { (next : ℕ) → AreInOrder next sessions.old.items → AreInOrder next sessions.new.items }
    ensures no_session { (result ≡ Err HubFault.NoSession) ↔ (place_in id sessions.old.items ≡ None) }
    ensures no_file { (result ≡ Err HubFault.NoFile) ↔ (IsSome (place_in id sessions.old.items) × (file.old ≡ None)) }
    ensures not_full { result ≢ Err HubFault.SessionsFull }
    ensures same { (result ≡ Err HubFault.NoSession) ⊎ (result ≡ Err HubFault.NoFile)
        → (file.new ≡ file.old) × (index.new ≡ index.old) × (sessions.new.items ≡ sessions.old.items) }
    ensures stays { file.new ≡ None → file.old ≡ None }
    ensures room { IsSome room.new }
    ensures capacity { vec_capacity sessions.new ≡ vec_capacity sessions.old }
{
    match open_window(file, room) {
        Some(mut window) => {
            let answer = receive_in(&mut window, index, alloc, sessions, id, bytes);
            close_window(window, file, room);
            answer
        }
        None => Err(fault_without_file(sessions.as_slice(), id)),
    }
}

/// Pulls from the file for the session with this number.
pub(crate) fn pull_from<D: Disk + Drop>(
    file: &mut Option<Recorder<D>>,
    room: &mut Option<PageBuffer>,
    sessions: &mut Vec<Session>,
    id: u64,
    buffer: &mut [u8],
) -> Result<Pulled, HubFault>
    requires room { IsSome room.old }
    requires order { IdsRise sessions.old.items }
    ensures step { (lost : Option (Lost D)) (before : HubState) → ShowsPlace D.Disk file.old lost before
        → AreSessions before.committed sessions.old.items before.sessions
        → (left : List SessionOf) × ShowsPlace D.Disk file.new lost (record before { sessions = left })
        × AreSessions before.committed sessions.new.items left
        × pull_step (phase_of before id) before.has_file before id (length buffer.old) (given_in buffer.new result) (record before { sessions = left }) }
    ensures cause { result ≡ Err HubFault.Source → (lost : Option (Lost D)) (before : HubState)
        → ShowsPlace D.Disk file.old lost before → AreSessions before.committed sessions.old.items before.sessions
        → IfFile (Fails D.Disk) file.old file.new }
    ensures disk { IfFile (Reads D.Disk) file.old file.new }
    ensures order { (next : ℕ) → AreInOrder next sessions.old.items → AreInOrder next sessions.new.items }
    ensures no_session { (result ≡ Err HubFault.NoSession) ↔ (place_in id sessions.old.items ≡ None) }
    ensures no_file { (result ≡ Err HubFault.NoFile) ↔ (IsSome (place_in id sessions.old.items) × (file.old ≡ None)) }
    ensures not_full { result ≢ Err HubFault.SessionsFull }
    ensures same { (result ≡ Err HubFault.NoSession) ⊎ (result ≡ Err HubFault.NoFile)
        → (file.new ≡ file.old) × (sessions.new.items ≡ sessions.old.items) }
    ensures memory { result ≢ Err HubFault.Memory }
    ensures within { IfOk result (λ pulled. pulled.count ≤ length buffer.old) }
    ensures stays { file.new ≡ None → file.old ≡ None }
    ensures room { IsSome room.new }
    ensures capacity { vec_capacity sessions.new ≡ vec_capacity sessions.old }
{
    match open_window(file, room) {
        Some(mut window) => {
            let answer = pull_in(&mut window, sessions, id, buffer);
            close_window(window, file, room);
            answer
        }
        None => Err(fault_without_file(sessions.as_slice(), id)),
    }
}
