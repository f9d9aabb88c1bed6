//! What was recorded from a time on, and what goes on to be recorded.
ghost use Rattle.std.specs.Prelude.{◌≡◌, ◌++◌, ◌≤◌, ◌<◌, ◌^◌, ◌+◌, ◌-◌, [], ℕ, List, None, Some, length, min, IfOk, IsErr, OnErr, OnOk};
ghost use Rattle.ogg_page.specs.Page.{Page};
ghost use Rattle.link_chain.specs.Links.{AreLinks};
ghost use Rattle.serve_live.specs.Following.{GoesOn, names_on};
ghost use Rattle.serve_live.specs.Hearing.{IsHearing};
ghost use Rattle.serve_live.specs.Joined.{IsNew};
ghost use Rattle.serve_live.specs.Listening.{Gives, HasFailed, has_heard_all};
ghost use Rattle.serve_live.specs.Live.{Moment};
ghost use Rattle.archive_cut.specs.Starting.{IsStartJoined};
ghost use Rattle.archive_reading.specs.Prefix.{prefix_bytes};
ghost use Rattle.archive_times.specs.declared.line.Join.{Join as JoinOf};
ghost use Rattle.archive_fetch.specs.Hearing.{HasEnded, HasFailedToEnd, HasGrown, IsReadable, IsSameHeard};

use crate::heads::Memory;
use crate::meetings::Meeting;
use archive_cut::{CutFault, Stand, hear_from};
use archive_reading::{Prefix, end_from};
use disk_model::Disk;
use ogg_page::{PageSource, SourceFault};
use serve_live::Listener;
use std::alloc::Global;
use std::marker::Model;

/// A file that is heard from a place on, as far as it is committed.
#[derive(Drop)]
pub struct Heard<D: Disk> {
    source: Prefix<D>,
    listener: Listener,
    file: u64,
}

impl<D: Disk> Model for Heard<D> {
    ghost use Rattle.archive_fetch.specs.Hearing.{HeardState};

    ghost Value = { HeardState D };

    ghost view = { λ h. record { source = h.source; listener = h.listener; file = h.file } };
}

impl<D: Disk + Drop> Heard<D> {
    /// The file with this number, from where it stood so: what its open link holds from there on follows the link's
    /// beginning, as who listens to what is live hears it. If no link is open there, it is heard as it is. The heads of the
    /// link's pages are read, and memory is taken for its streams.
    pub fn of(
        alloc: Global,
        source: Prefix<D>,
        file: u64,
        stand: Stand,
    ) -> Result<Heard<D>, CutFault>
        ensures joined { (link : JoinOf) (committed more : List ℕ) (links : List (List Page)) (moment : Moment) → stand.join ≡ Some link
            → D.is_honest source.disk → length (prefix_bytes D.state source) ≡ source.end
            → prefix_bytes D.state source ≡ committed ++ more → length committed ≡ stand.offset → AreLinks committed links
            → IsStartJoined links moment stand.offset link → IfOk result (λ heard. IsHearing moment committed heard.listener []) }
        ensures waits { stand.join ≡ None → IfOk result (λ heard. IsNew stand.offset 0 stand.offset [] heard.listener) }
        ensures file { IfOk result (λ heard. heard.file ≡ file) }
    {
        let mut source = source;
        let place = stand.offset;
        match stand.join {
            Some(link) => match hear_from(alloc, &mut source, link, place, place) {
                Ok(listener) => Ok(Heard {
                    source,
                    listener,
                    file,
                }),
                Err(fault) => Err(fault),
            },
            None => Ok(Heard {
                source,
                listener: Listener::wait(alloc, place),
                file,
            }),
        }
    }

    /// The file that follows, from where the two meet on: its pages are heard as those of the link that was heard so far.
    /// The file so far is to be heard up to there, and no further. Memory is taken for the streams.
    pub fn hears_on(
        &self,
        alloc: Global,
        source: Prefix<D>,
        file: u64,
        meeting: &Meeting,
    ) -> Result<Heard<D>, Memory>
        ensures on { IfOk result (λ next. GoesOn meeting.now.begun_end
            (names_on self.now.listener.names meeting.now.ended.items meeting.now.begun.items) next.listener) }
        ensures source { IfOk result (λ next. next.source ≡ source) }
        ensures file { IfOk result (λ next. next.file ≡ file) }
    {
        let ended = meeting.ended.as_slice();
        let begun = meeting.begun.as_slice();
        match self.listener.go_on(alloc, meeting.begun_end, ended, begun) {
            Ok(listener) => Ok(Heard {
                source,
                listener,
                file,
            }),
            Err(memory) => Err(memory),
        }
    }
}

impl<D: Disk> Heard<D> {
    /// The number of the file.
    pub fn file(&self) -> u64
        ensures { result ≡ self.now.file }
    {
        self.file
    }

    /// More of the file may be committed: up to this place. After a fault it is as it was.
    pub fn grows(&mut self, committed: u64) -> Result<(), SourceFault>
        ensures grown { OnOk result (HasGrown D.Disk committed self.old self.new) }
        ensures short { OnOk result (D.is_honest self.old.source.disk → length (D.state self.old.source.disk).contents < 2 ^ 63) }
        ensures same { IsSameHeard D.Disk self.old self.new }
        ensures err { OnErr result (self.new.source.end ≡ self.old.source.end) }
        ensures cause { IsErr result → HasFailed (D.failures self.old.source.disk) (D.failures self.new.source.disk) }
        ensures later { D.failures self.old.source.disk ≤ D.failures self.new.source.disk }
    {
        match self.source.look_again(committed) {
            Ok(()) => Ok(()),
            Err(_) => Err(SourceFault),
        }
    }

    /// The file has ended, and has no pages but these: where they end is sought from what is known to be committed. After a
    /// fault it is as it was, or all bytes of the file may be heard.
    pub fn has_ended(&mut self) -> Result<(), SourceFault>
        ensures ended { OnOk result (HasEnded D.Disk self.old self.new) }
        ensures same { IsSameHeard D.Disk self.old self.new }
        ensures cause { IsErr result → HasFailedToEnd D.Disk self.old self.new }
    {
        let known = self.source.end();
        self.grows(u64::MAX)?;
        let end = end_from(&mut self.source, known)?;
        self.grows(end)
    }

    /// Whether all is heard that is committed, as far as is known.
    pub fn has_heard_all(&self) -> bool
        ensures { result ≡ has_heard_all self.now.source.end self.now.listener }
    {
        self.listener.has_heard_all(self.source.end())
    }

    /// Whether more of the file is heard than up to this place.
    pub fn has_heard_past(&self, place: u64) -> bool
        ensures { result ≡ has_heard_all (min (place + 1) (2 ^ 64 - 1)) self.now.listener }
    {
        self.listener.has_heard_all(place.saturating_add(1))
    }

    /// Fills the buffer with the bytes that are heard next. It returns how many these are. No memory is taken.
    ///
    /// After `SourceFault` as much is left to be heard as before, and the buffer may hold anything.
    pub fn pull(&mut self, buffer: &mut [u8]) -> Result<usize, SourceFault>
        ensures gives { (committed more left : List ℕ) → IsReadable D.Disk self.old committed more left
            → IfOk result (λ count. Gives committed left (length buffer.old) buffer.new count self.new.listener) }
        ensures cause { (committed more left : List ℕ) → IsReadable D.Disk self.old committed more left → IsErr result
            → HasFailed (D.failures self.old.source.disk) (D.failures self.new.source.disk) }
        ensures same { OnErr result (self.new.listener ≡ self.old.listener) }
        ensures file { self.new.file ≡ self.old.file }
        ensures within { IfOk result (λ count. count ≤ length buffer.new) }
    {
        let end = self.source.end();
        self.listener.pull(&mut self.source, end, buffer)
    }
}
