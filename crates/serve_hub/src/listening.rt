//! Listeners hear a file as it is committed.
//!
//! A listener is no session: it is the caller's, and a hub keeps nothing of it. So its calls are no steps of the
//! machine.
ghost use Rattle.std.specs.Prelude.{◌≡◌, ◌≢◌, ◌↔◌, ◌⊎◌, ◌≤◌, ◌<◌, ℕ, List, [], None, Option, Err, IfOk, IfErr, IsSome, OnErr, length, min};
ghost use Rattle.ogg_page.specs.Page.{Page};
ghost use Rattle.link_chain.specs.Links.{AreLinks};
ghost use Rattle.file_recorder.specs.Recorder.{committed};
ghost use Rattle.serve_live.specs.Hearing.{IsHearing};
ghost use Rattle.serve_live.specs.Live.{Moment};
ghost use Rattle.serve_live.specs.Places.{IsPlaceIn};
ghost use Rattle.serve_machine.specs.Hub.{HubState};
ghost use Rattle.serve_sessions.specs.Indexing.{IsOfFront};
ghost use Rattle.serve_hub.specs.declared.opening.Lost.{Lost};
ghost use Rattle.serve_hub.specs.Images.{IfFile, Reads, Fails};
ghost use Rattle.serve_hub.specs.Listening.{HearsMore, KeepsMachine, OnlyReading, waiting_at};
ghost use Rattle.serve_hub.specs.Parts.{OnlyFile};
ghost use Rattle.serve_hub.specs.Showing.{Shows, ShowsPlace};

use crate::hub::Hub;
use crate::opening::end_in;
use crate::reading::{close_window, open_window};
use disk_model::Disk;
use file_recorder::Recorder;
use link_index::Index;
use ogg_page::PageBuffer;
use serve_live::{JoinPlace, Listener, listeners_hear_what_they_should};
use serve_machine::HubFault;
use serve_sessions::join_in;
use std::alloc::Global;

/// A listener that joins the file's last link, if there is a file.
fn join_from<D: Disk + Drop>(
    file: &mut Option<Recorder<D>>,
    room: &mut Option<PageBuffer>,
    index: &mut Index,
    alloc: Global,
    place: JoinPlace,
) -> Result<Listener, HubFault>
    requires { IsSome room.old }
    ensures joins { (lost : Option (Lost D)) (machine : HubState) (links : List (List Page)) (moment : Moment)
        → ShowsPlace D.Disk file.old lost machine → IsOfFront machine.committed index.old
        → AreLinks machine.committed links → IsPlaceIn links moment place
        → IfOk result (λ listener. IsHearing moment machine.committed listener []) }
    ensures shows { (lost : Option (Lost D)) (machine : HubState) → ShowsPlace D.Disk file.old lost machine
        → IsOfFront machine.committed index.old
        → ShowsPlace D.Disk file.new lost machine × IsOfFront machine.committed index.new }
    ensures cause { (lost : Option (Lost D)) (machine : HubState) (links : List (List Page)) (moment : Moment)
        → ShowsPlace D.Disk file.old lost machine → IsOfFront machine.committed index.old
        → AreLinks machine.committed links → IsPlaceIn links moment place → result ≡ Err HubFault.Source
        → IfFile (Fails D.Disk) file.old file.new }
    ensures disk { IfFile (Reads D.Disk) file.old file.new }
    ensures no_file { (result ≡ Err HubFault.NoFile) ↔ (file.old ≡ None) }
    ensures other { (result ≢ Err HubFault.NoSession) × (result ≢ Err HubFault.SessionsFull) }
    ensures same { result ≡ Err HubFault.NoFile → (file.new ≡ file.old) × (index.new ≡ index.old) }
    ensures stays { file.new ≡ None → file.old ≡ None }
    ensures room { IsSome room.new }
{
    match open_window(file, room) {
        Some(mut window) => {
            let answer = join_in(&mut window, index, alloc, place);
            close_window(window, file, room);
            answer
        }
        None => Err(HubFault::NoFile),
    }
}

/// Fills the buffer with what the listener hears next of the committed bytes.
fn hear_in<D: Disk>(
    recorder: &mut Recorder<D>,
    listener: &mut Listener,
    buffer: &mut [u8],
) -> Result<usize, HubFault>
    ensures hears { (moment : Moment) (given : List ℕ) → D.is_honest recorder.old.file.disk
        → (hearing : IsHearing moment (committed D.state recorder.old) listener.old given)
        → IfOk result (λ count. HearsMore moment (committed D.state recorder.old) given hearing.rest (length buffer.old) count buffer.new listener.new) }
    ensures cause { (moment : Moment) (given : List ℕ) → D.is_honest recorder.old.file.disk
        → (hearing : IsHearing moment (committed D.state recorder.old) listener.old given) → result ≡ Err HubFault.Source
        → Fails D.Disk recorder.old recorder.new
        × (0 < min (length hearing.rest) (length buffer.old)) }
    ensures disk { Reads D.Disk recorder.old recorder.new }
    ensures faults { IfErr result (λ fault. fault ≡ HubFault.Source) }
    ensures same { OnErr result (listener.new ≡ listener.old) }
    ensures within { IfOk result (λ count. count ≤ length buffer.old) }
{
    listeners_hear_what_they_should();
    let end = recorder.end();
    match listener.pull(recorder, end, buffer) {
        Ok(count) => Ok(count),
        Err(_) => Err(HubFault::Source),
    }
}

/// The same, if there is a file.
fn hear_from<D: Disk>(
    file: &mut Option<Recorder<D>>,
    listener: &mut Listener,
    buffer: &mut [u8],
) -> Result<usize, HubFault>
    ensures hears { (lost : Option (Lost D)) (machine : HubState) (moment : Moment) (given : List ℕ)
        → ShowsPlace D.Disk file.old lost machine → (hearing : IsHearing moment machine.committed listener.old given)
        → IfOk result (λ count. HearsMore moment machine.committed given hearing.rest (length buffer.old) count buffer.new listener.new) }
    ensures shows { (lost : Option (Lost D)) (machine : HubState) → ShowsPlace D.Disk file.old lost machine
        → ShowsPlace D.Disk file.new lost machine }
    ensures cause { (lost : Option (Lost D)) (machine : HubState) (moment : Moment) (given : List ℕ)
        → ShowsPlace D.Disk file.old lost machine → (hearing : IsHearing moment machine.committed listener.old given)
        → result ≡ Err HubFault.Source → IfFile (Fails D.Disk) file.old file.new
        × (0 < min (length hearing.rest) (length buffer.old)) }
    ensures disk { IfFile (Reads D.Disk) file.old file.new }
    ensures no_file { (result ≡ Err HubFault.NoFile) ↔ (file.old ≡ None) }
    ensures faults { IfErr result (λ fault. (fault ≡ HubFault.NoFile) ⊎ (fault ≡ HubFault.Source)) }
    ensures nothing { result ≡ Err HubFault.NoFile → (file.new ≡ file.old) × (buffer.new ≡ buffer.old) }
    ensures same { OnErr result (listener.new ≡ listener.old) }
    ensures within { IfOk result (λ count. count ≤ length buffer.old) }
    ensures stays { file.new ≡ None → file.old ≡ None }
{
    match file {
        Some(recorder) => hear_in(recorder, listener, buffer),
        None => Err(HubFault::NoFile),
    }
}

impl<D: Disk + Drop> Hub<D> {
    /// A listener that joins the link that is recorded, at a place that `Boundaries` of crate `serve_live` gave: it
    /// hears the pages with which the link began, and then what is committed after the place. The index is brought up
    /// to the end of the committed bytes. Memory is taken for that and for the link's streams.
    ///
    /// `NoFile` says that there is no file; nothing is changed then. After `Memory` or `Source`, a fault of the disk,
    /// the index may have more pages than before, and nothing else is changed.
    pub fn join(&mut self, place: JoinPlace) -> Result<Listener, HubFault>
        ensures machine { KeepsMachine D.Disk self.old self.new }
        ensures joins { (machine : HubState) (links : List (List Page)) (moment : Moment) → Shows D.Disk self.old machine
            → AreLinks machine.committed links → IsPlaceIn links moment place
            → IfOk result (λ listener. IsHearing moment machine.committed listener []) }

        // The file is only read, and a fault of committed links has a cause.
        ensures disk { IfFile (Reads D.Disk) self.old.file self.new.file }
        ensures cause { (machine : HubState) (links : List (List Page)) (moment : Moment) → Shows D.Disk self.old machine
            → AreLinks machine.committed links → IsPlaceIn links moment place → result ≡ Err HubFault.Source
            → IfFile (Fails D.Disk) self.old.file self.new.file }

        // By what the hub keeps, whatever its disk.
        ensures no_file { (result ≡ Err HubFault.NoFile) ↔ (self.old.file ≡ None) }
        ensures other { (result ≢ Err HubFault.NoSession) × (result ≢ Err HubFault.SessionsFull) }
        ensures same { result ≡ Err HubFault.NoFile → self.new ≡ self.old }
        ensures parts { OnlyReading self.old self.new }
    {
        join_from(
            &mut self.file,
            &mut self.room,
            &mut self.index,
            self.alloc,
            place,
        )
    }
}

impl<D: Disk> Hub<D> {
    /// A listener that waits while no link is open: it hears from the next link's first page on. No memory is taken,
    /// and the disk isn't asked.
    pub fn wait(&self) -> Listener
        ensures { (machine : HubState) → Shows D.Disk self.now machine
            → IsHearing (waiting_at machine.committed) machine.committed result [] }
    {
        listeners_hear_what_they_should();
        Listener::wait(self.alloc, end_in(&self.file, &self.lost))
    }

    /// Fills the buffer with the bytes that the listener hears next, up to the end of the committed bytes. It returns
    /// how many these are: as many as the buffer holds, or all that are committed. No memory is taken.
    ///
    /// `NoFile` says that there is no file; nothing is changed then. After `Source`, a fault of the disk, the listener
    /// is as it was, and the buffer may hold anything.
    pub fn hear(&mut self, listener: &mut Listener, buffer: &mut [u8]) -> Result<usize, HubFault>
        ensures machine { KeepsMachine D.Disk self.old self.new }
        ensures hears { (machine : HubState) (moment : Moment) (given : List ℕ) → Shows D.Disk self.old machine
            → (hearing : IsHearing moment machine.committed listener.old given)
            → IfOk result (λ count. HearsMore moment machine.committed given hearing.rest (length buffer.old) count buffer.new listener.new) }

        // The file is only read, and a fault has a cause: a byte was to be given.
        ensures disk { IfFile (Reads D.Disk) self.old.file self.new.file }
        ensures cause { (machine : HubState) (moment : Moment) (given : List ℕ) → Shows D.Disk self.old machine
            → (hearing : IsHearing moment machine.committed listener.old given) → result ≡ Err HubFault.Source
            → IfFile (Fails D.Disk) self.old.file self.new.file
            × (0 < min (length hearing.rest) (length buffer.old)) }

        // By what the hub keeps, whatever its disk.
        ensures no_file { (result ≡ Err HubFault.NoFile) ↔ (self.old.file ≡ None) }
        ensures faults { IfErr result (λ fault. (fault ≡ HubFault.NoFile) ⊎ (fault ≡ HubFault.Source)) }
        ensures nothing { result ≡ Err HubFault.NoFile → (self.new ≡ self.old) × (buffer.new ≡ buffer.old) }
        ensures same { OnErr result (listener.new ≡ listener.old) }
        ensures within { IfOk result (λ count. count ≤ length buffer.old) }
        ensures parts { OnlyFile self.old self.new }
    {
        hear_from(&mut self.file, listener, buffer)
    }
}
