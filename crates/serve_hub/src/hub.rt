//! A recorder, and the sessions of the clients that fetch its file.
ghost use Rattle.std.specs.Prelude.{◌≡◌, ◌≢◌, ◌↔◌, ◌⊎◌, ◌≤◌, ◌<◌, ◌+◌, ◌^◌, [], ℕ, false, List, vec_capacity, None, Some, Err, IsSome, length, IfOk, IfErr};
ghost use Rattle.feed_records.specs.declared.item.Record.{Record as RecordOf};
ghost use Rattle.file_recorder.specs.Recorder.{RecorderState, committed};
ghost use Rattle.file_recorder.specs.Running.{reply_of, reply_of_flush};
ghost use Rattle.serve_machine.specs.Hub.{HubState, IsNew, IsNewFor, Connect, Receive, Pull, Close, Record, Flush, Group, Reopen, most_sessions};
ghost use Rattle.serve_machine.specs.Calls.{Steps, found_by, given_in};
ghost use Rattle.serve_sessions.specs.Serving.{LacksRoomIn};
ghost use Rattle.serve_sessions.specs.Sessions.{place_in};
ghost use Rattle.serve_hub.specs.Parts.{HasNoPlace, OnlyFile, OnlySessions, next_of};
ghost use Rattle.serve_hub.specs.Images.{IfFile, Records, Flushes, Reads, Fails, Reopens, disk_in};
ghost use Rattle.serve_hub.specs.Running.{RepliesIn};

use crate::commanding::{command_file, flush_file, group_file, held_in};
use crate::opening::{Lost, end_in, open_again, take_disk};
use crate::reading::{pull_from, receive_from};
use chain_rules::{Command, Refusal};
use disk_model::Disk;
use feed_replies::Kept;
use file_recorder::{Outcome, Recorder};
use gate_file::OpenFault;
use link_index::Index;
use ogg_page::PageBuffer;
use serve_machine::{HubFault, Progress, Pulled, SeenAsHub};
use serve_sessions::{Session, add_session, drop_session, place_of, sessions_stay};
use std::alloc::{AllocError as Memory, Global};
use std::marker::Model;

/// The greatest number of sessions if no other is asked for.
const MOST_SESSIONS: usize = 64;

/// A recorder, and the sessions of the clients that fetch its file.
#[derive(Drop)]
pub struct Hub<D: Disk> {
    // none after a reopening that failed
    pub(crate) file: Option<Recorder<D>>,
    pub(crate) lost: Option<Lost<D>>,
    pub(crate) index: Index,
    // room for a page; none only while a window has it
    pub(crate) room: Option<PageBuffer>,
    // in the order of their numbers, with room for as many as there may be
    sessions: Vec<Session>,
    // none if all numbers are given
    next: Option<u64>,
    // how many commands will share a commit after a reopening
    most: u32,
    // how many sessions there may be
    most_sessions: usize,
    pub(crate) alloc: Global,
}

impl<D: Disk> Model for Hub<D> {
    ghost use Rattle.std.specs.Prelude.{◌≤◌, IsSome, vec_capacity};
    ghost use Rattle.serve_hub.specs.Parts.{HubParts, IsHub, hub_parts};

    ghost Value = { HubParts D };

    ghost view = { λ h. hub_parts h.file h.lost h.index h.sessions.items h.next h.most h.most_sessions };

    ghost invariant = { λ h. IsHub (hub_parts h.file h.lost h.index h.sessions.items h.next h.most h.most_sessions) × IsSome h.room
        × (h.most_sessions ≤ vec_capacity h.sessions) };
}

/// What holds of all steps of the machine holds of a hub's calls.
impl<D: Disk> SeenAsHub for Hub<D> {
    ghost use Rattle.serve_hub.specs.Showing.{Shows};

    ghost shows = { Shows D.Disk };
}

/// The room for this many sessions, and for a page.
fn rooms(alloc: Global, most: usize) -> Result<(Vec<Session>, PageBuffer), Memory>
    ensures none { IfOk result (λ made. made.0.items ≡ []) }
    ensures all { IfOk result (λ made. most ≤ vec_capacity made.0) }
{
    let room = PageBuffer::new(alloc)?;
    let sessions = Vec::with_capacity(alloc, most)?;
    Ok((sessions, room))
}

/// The number that follows this one, if there is one.
fn next_after(id: u64) -> Option<u64>
    ensures next { next_of result ≡ id + 1 }
    ensures fits { id < 2 ^ 64 }
{
    id.checked_add(1)
}

impl<D: Disk> Hub<D> {
    ghost use Rattle.link_index.specs.Adding.{IsIndexOf};
    ghost use Rattle.serve_hub.specs.Showing.{Shows};

    /// A hub over this recorder, without sessions. It makes the room for all sessions that there may be, and for a
    /// page. After `Memory` the recorder is given back.
    pub fn new(alloc: Global, recorder: Recorder<D>) -> Result<Hub<D>, (Memory, Recorder<D>)>
        ensures owns { IfOk result (λ hub. (hub.file ≡ Some recorder) × (hub.lost ≡ None) × (hub.sessions ≡ [])
            × (hub.next ≡ Some 0) × (hub.most ≡ 1) × IsIndexOf [] hub.index) }
        // If the recorder hasn't failed, the hub is seen as a new machine.
        ensures shown { IfOk result (λ hub. recorder.file.failed ≡ false → D.is_honest recorder.file.disk
            → (machine : HubState) × Shows D.Disk hub machine × IsNew machine) }
        ensures back { IfErr result (λ e. e.1 ≡ recorder) }
        ensures room { IfOk result (λ hub. hub.room ≡ most_sessions) }
    {
        Hub::with_room(alloc, recorder, MOST_SESSIONS)
    }

    /// A hub over this recorder, without sessions, to which up to `most` sessions may be connected at once. It makes
    /// the room for them, and for a page. After `Memory` the recorder is given back.
    pub fn with_room(
        alloc: Global,
        recorder: Recorder<D>,
        most: usize,
    ) -> Result<Hub<D>, (Memory, Recorder<D>)>
        ensures owns { IfOk result (λ hub. (hub.file ≡ Some recorder) × (hub.lost ≡ None) × (hub.sessions ≡ [])
            × (hub.next ≡ Some 0) × (hub.most ≡ 1) × (hub.room ≡ most) × IsIndexOf [] hub.index) }
        // If the recorder hasn't failed, the hub is seen as a new machine with this room.
        ensures shown { IfOk result (λ hub. recorder.file.failed ≡ false → D.is_honest recorder.file.disk
            → (machine : HubState) × Shows D.Disk hub machine × IsNewFor most machine) }
        ensures back { IfErr result (λ e. e.1 ≡ recorder) }
    {
        // For the proof alone.
        let _end = recorder.end();
        match rooms(alloc, most) {
            Ok((sessions, room)) => Ok(Hub {
                file: Some(recorder),
                lost: None,
                index: Index::new(alloc),
                room: Some(room),
                sessions,
                next: Some(0),
                most: 1,
                most_sessions: most,
                alloc,
            }),
            Err(memory) => Err((memory, recorder)),
        }
    }

    /// Begins a session, whose number is the next one, from 0 on. No memory is taken.
    ///
    /// `SessionsFull` says that there are as many sessions as there may be, 64 if no other number was asked for, or
    /// that all numbers of 64 bits are given. Nothing is changed then.
    pub fn connect(&mut self) -> Result<u64, HubFault>
        ensures step { Steps (Shows D.Disk) self.old self.new (λ after. Connect result) }
        ensures room { result ≢ Err HubFault.Memory }

        // By what the hub keeps, whatever its disk.
        ensures full { (result ≡ Err HubFault.SessionsFull) ↔ HasNoPlace self.old }
        ensures refused { IfErr result (λ fault. (fault ≡ HubFault.SessionsFull) × (self.new ≡ self.old)) }
        ensures given { IfOk result (λ id. self.old.next ≡ Some id) }
        ensures parts { OnlySessions self.old self.new }
    {
        let Some(id) = self.next else {
            return Err(HubFault::SessionsFull);
        };
        if self.sessions.len() >= self.most_sessions {
            return Err(HubFault::SessionsFull);
        }
        add_session(&mut self.sessions, id, self.alloc);
        self.next = next_after(id);
        Ok(id)
    }

    /// Ends a session. `NoSession` says that there is none with this number; nothing is changed then.
    pub fn close(&mut self, id: u64) -> Result<(), HubFault>
        ensures step { Steps (Shows D.Disk) self.old self.new (λ after. Close id result) }

        // By what the hub keeps, whatever its disk.
        ensures no_session { (result ≡ Err HubFault.NoSession) ↔ (place_in id self.old.sessions ≡ None) }
        ensures refused { IfErr result (λ fault. (fault ≡ HubFault.NoSession) × (self.new ≡ self.old)) }
        ensures next { self.new.next ≡ self.old.next }
        ensures parts { OnlySessions self.old self.new }
    {
        match place_of(self.sessions.as_slice(), id) {
            Some(_) => {
                drop_session(&mut self.sessions, id);
                Ok(())
            }
            None => Err(HubFault::NoSession),
        }
    }

    /// Records a command, as [`Recorder::command`] does, with its refusals. Without a file it is refused as `Failed`.
    pub fn command(&mut self, command: &Command) -> Result<Outcome, Refusal>
        ensures step { Steps (Shows D.Disk) self.old self.new (λ after. Record command.now result) }
        ensures disk { IfFile (Records D.Disk command.now result)
            self.old.file self.new.file }

        // Whatever the disk: a refusal other than `Disk` changes nothing.
        ensures same { IfErr result (λ refusal. refusal ≢ Refusal.Disk → self.new ≡ self.old) }
        ensures no_file { self.old.file ≡ None → result ≡ Err Refusal.Failed }
        ensures replied { RepliesIn self.old.file (RecordOf.Command command.now) (reply_of result) self.new.file }
        ensures parts { OnlyFile self.old self.new }
    {
        sessions_stay();
        command_file(&mut self.file, command)
    }

    /// Commits the commands that wait, as [`Recorder::flush`] does. Without a file it is refused as `Failed`.
    pub fn flush(&mut self) -> Result<Kept, Refusal>
        ensures step { Steps (Shows D.Disk) self.old self.new (λ after. Flush result) }
        ensures disk { IfFile (Flushes D.Disk result) self.old.file self.new.file }

        // Whatever the disk: a refusal other than `Disk` changes nothing.
        ensures same { IfErr result (λ refusal. refusal ≢ Refusal.Disk → self.new ≡ self.old) }
        ensures no_file { self.old.file ≡ None → result ≡ Err Refusal.Failed }
        ensures replied { RepliesIn self.old.file RecordOf.Flush (reply_of_flush result) self.new.file }
        ensures parts { OnlyFile self.old self.new }
    {
        sessions_stay();
        flush_file(&mut self.file)
    }

    /// From now on `most` commands share a commit, 1 to 1,024, also after a reopening. There must be a file, and
    /// nothing may wait.
    pub fn group(&mut self, most: u32)
        requires some { 1 ≤ most }
        requires few { most ≤ 1024 }
        requires file { IsSome self.old.file }
        requires none { (recorder : RecorderState D) → self.old.file ≡ Some recorder → recorder.held ≡ 0 }
        ensures step { Steps (Shows D.Disk) self.old self.new (λ after. Group most) }
        ensures places { self.new.room ≡ self.old.room }
    {
        sessions_stay();
        group_file(&mut self.file, most);
        self.most = most;
    }

    /// How many commands wait; none without a file.
    pub fn held(&self) -> u64
        ensures { (machine : HubState) → Shows D.Disk self.now machine → result ≡ machine.waiting }
    {
        held_in(&self.file)
    }

    /// The length of the committed bytes. Without a file it is the last length that is known.
    pub fn end(&self) -> u64
        ensures { (machine : HubState) → Shows D.Disk self.now machine → result ≡ length machine.committed }
    {
        end_in(&self.file, &self.lost)
    }
}

impl<D: Disk + Drop> Hub<D> {
    ghost use Rattle.serve_sessions.specs.Sessions.{place_in};
    ghost use Rattle.serve_hub.specs.Parts.{lost_file};
    ghost use Rattle.serve_hub.specs.Showing.{Shows};

    /// Takes further bytes of the session's request. The call that completes its head, or shows that none can come,
    /// fixes the response, over the bytes that are committed then: it answers `Ready`, and each call before it
    /// `More`. What comes later is ignored.
    ///
    /// `NoSession` says that there is no session with this number, and `NoFile` that there is no file; nothing is
    /// changed then, nor after `Memory`. After `Source` the session has ended.
    pub fn receive(&mut self, id: u64, bytes: &[u8]) -> Result<Progress, HubFault>
        ensures step { Steps (Shows D.Disk) self.old self.new (λ after. Receive id bytes.now result) }

        // `Memory` comes if the session's head has no room for the bytes, or once they complete it.
        ensures memory { result ≡ Err HubFault.Memory → LacksRoomIn id self.old.sessions bytes.now }

        // The file is only read, and a fault has a cause.
        ensures disk { IfFile (Reads D.Disk) self.old.file self.new.file }
        ensures cause { result ≡ Err HubFault.Source → (machine : HubState) → Shows D.Disk self.old machine
            → IfFile (Fails D.Disk) self.old.file self.new.file }

        // By what the hub keeps, whatever its disk: `NoSession` comes before `NoFile`.
        ensures no_session { (result ≡ Err HubFault.NoSession) ↔ (place_in id self.old.sessions ≡ None) }
        ensures no_file { (result ≡ Err HubFault.NoFile) ↔ (IsSome (place_in id self.old.sessions) × (self.old.file ≡ None)) }
        ensures not_full { result ≢ Err HubFault.SessionsFull }
        ensures same { (result ≡ Err HubFault.NoSession) ⊎ (result ≡ Err HubFault.NoFile) → self.new ≡ self.old }
        ensures lost { self.new.lost ≡ self.old.lost }
        ensures places { self.new.room ≡ self.old.room }
    {
        receive_from(
            &mut self.file,
            &mut self.room,
            &mut self.index,
            self.alloc,
            &mut self.sessions,
            id,
            bytes,
        )
    }

    /// Fills the buffer with the session's next bytes, as many as it holds, or all that are left: `count` is how many
    /// these are, and `done` says that none is left then. Before the session's head is complete there are no such
    /// bytes. No memory is taken.
    ///
    /// `NoSession` and `NoFile` mean the same as in `receive`. After `Source` the session has ended.
    pub fn pull(&mut self, id: u64, buffer: &mut [u8]) -> Result<Pulled, HubFault>
        ensures step { Steps (Shows D.Disk) self.old self.new
            (λ after. Pull id (length buffer.old) (given_in buffer.new result)) }
        ensures memory { result ≢ Err HubFault.Memory }
        ensures within { IfOk result (λ pulled. pulled.count ≤ length buffer.old) }

        // The file is only read, and a fault has a cause.
        ensures disk { IfFile (Reads D.Disk) self.old.file self.new.file }
        ensures cause { result ≡ Err HubFault.Source → (machine : HubState) → Shows D.Disk self.old machine
            → IfFile (Fails D.Disk) self.old.file self.new.file }

        // By what the hub keeps, whatever its disk: `NoSession` comes before `NoFile`.
        ensures no_session { (result ≡ Err HubFault.NoSession) ↔ (place_in id self.old.sessions ≡ None) }
        ensures no_file { (result ≡ Err HubFault.NoFile) ↔ (IsSome (place_in id self.old.sessions) × (self.old.file ≡ None)) }
        ensures not_full { result ≢ Err HubFault.SessionsFull }
        ensures same { (result ≡ Err HubFault.NoSession) ⊎ (result ≡ Err HubFault.NoFile) → self.new ≡ self.old }
        ensures lost { self.new.lost ≡ self.old.lost }
        ensures places { self.new.room ≡ self.old.room }
    {
        pull_from(
            &mut self.file,
            &mut self.room,
            &mut self.sessions,
            id,
            buffer,
        )
    }

    /// Gives the disk back, and opens it again, as [`Recorder::open`] does, with its faults: of a file that was ours
    /// these are `Memory` and `Disk` alone. The sessions stay, and what waited is lost. After a fault there is no file,
    /// and the disk is kept for another reopening.
    pub fn reopen(&mut self) -> Result<(), OpenFault>
        ensures step { Steps (Shows D.Disk) self.old self.new (λ after. Reopen (found_by result after)) }
        ensures disk { (old new : D) → disk_in self.old.file self.old.lost ≡ Some old → disk_in self.new.file self.new.lost ≡ Some new
            → Reopens D.Disk result self.new.file old new }
        ensures places { self.new.room ≡ self.old.room }
    {
        sessions_stay();
        let Lost { disk, end } = take_disk(&mut self.file, &mut self.lost);
        match open_again(self.alloc, disk, end, self.most) {
            Ok(recorder) => {
                self.file = Some(recorder);
                Ok(())
            }
            Err((fault, disk)) => {
                self.lost = Some(Lost { disk, end });
                Err(fault)
            }
        }
    }

    /// Returns the recorder, or the disk if there is no file. The sessions are ended. No call of the disk is made,
    /// and no memory is taken.
    pub fn into_recorder(self) -> Result<Recorder<D>, D>
        ensures recorder { IfOk result (λ recorder. self.file ≡ Some recorder) }
        ensures committed { IfOk result (λ recorder. (machine : HubState) → Shows D.Disk self machine
            → committed D.state recorder ≡ machine.committed) }
        ensures none { IfErr result (λ disk. (self.file ≡ None) × (end : ℕ) × (self.lost ≡ Some (lost_file disk end))) }
    {
        let Hub { file, lost, .. } = self;
        match file {
            Some(recorder) => Ok(recorder),
            None => Err(lost.unwrap().disk),
        }
    }
}
