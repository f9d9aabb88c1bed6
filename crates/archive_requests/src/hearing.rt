//! What was recorded from a time on is heard, file after file, and goes on into what is live.

use crate::requests::{Present, Requests, Shelf};
use archive_cut::{CutFault, Recorded, Stand, first_link, is_before, stood_at};
use archive_fetch::{Heard, Meeting, Memory};
use archive_reading::{
    Listed, Prefix, ReadingFault, begin_of, end_from, folder, goes_on_with, last_line_of, times_of,
};
use disk_model::Disk;
use ogg_page::PageSource;

/// Why nothing can be heard.
#[derive(Clone, Copy, Debug, PartialEq, Eq)]
pub(crate) enum Unheard {
    Memory,
    /// The folder can't be read.
    Folder,
}

impl From<Memory> for Unheard {
    fn from(_memory: Memory) -> Unheard {
        Unheard::Memory
    }
}

/// The files of the folder, the oldest first, as they were listed last: all who come to the end of a file in one round look
/// for the next one in the same list.
#[derive(Drop)]
pub struct Seen {
    files: Vec<Listed>,
    // when that was, by the clock of rounds
    at: Option<u64>,
}

impl Seen {
    /// Nothing was listed yet.
    pub fn new(files: Vec<Listed>) -> Seen {
        Seen { files, at: None }
    }
}

/// From its first page on.
fn beginning() -> Stand {
    Stand {
        offset: 0,
        join: None,
    }
}

impl<D: Disk + Drop> Requests<'_, D> {
    /// What was recorded from the time on. None if there is no file that can be read.
    pub(crate) fn heard_from<S: Shelf<D>>(
        &self,
        since: u64,
        shelf: &mut S,
        present: Present,
    ) -> Result<Option<Heard<D>>, Unheard> {
        let files = self.list_files()?;
        let files = files.as_slice();
        for at in 0..files.len() {
            if let Some(heard) = self.heard_in(files, at, since, shelf, present)? {
                return Ok(Some(heard));
            }
        }
        Ok(None)
    }

    /// The files of the folder, the oldest first.
    fn list_files(&self) -> Result<Vec<Listed>, Unheard> {
        match folder(self.rt, self.folder) {
            Ok(seen) => Ok(seen.files),
            Err(ReadingFault::Memory) => Err(Unheard::Memory),
            Err(_) => Err(Unheard::Folder),
        }
    }

    /// What was recorded into the file at this place of the list from the time on. None if nothing was, or if the file can't
    /// be read.
    fn heard_in<S: Shelf<D>>(
        &self,
        files: &[Listed],
        at: usize,
        since: u64,
        shelf: &mut S,
        present: Present,
    ) -> Result<Option<Heard<D>>, Unheard> {
        let Some(file) = files.get(at) else {
            return Ok(None);
        };
        // When the next one was begun.
        let later = match files.get(at.saturating_add(1)) {
            Some(next) => begin_of(next.name),
            None => u64::MAX,
        };
        if is_before(later, since) {
            return Ok(None);
        }
        let Some(source) = self.pages_of(file, shelf, present.committed)? else {
            return Ok(None);
        };
        let times = times_of(self.rt, self.folder, file)?;
        let recorded = Recorded {
            begin: begin_of(file.name),
            later,
            committed: source.end(),
        };
        let stand = stood_at(times.as_slice(), recorded, since);
        let source = self.up_to_meeting(source, files, at, shelf, present)?;
        // All of it was recorded by then: what follows is in the next one.
        if later < u64::MAX && source.end() <= stand.offset {
            return Ok(None);
        }
        match Heard::of(self.rt.alloc(), source, file.name.number, stand) {
            Ok(heard) => Ok(Some(heard)),
            Err(CutFault::Memory) => Err(Unheard::Memory),
            Err(_) => Ok(None),
        }
    }

    /// The committed pages of a file. None if they can't be read.
    fn pages_of<S: Shelf<D>>(
        &self,
        file: &Listed,
        shelf: &mut S,
        committed: u64,
    ) -> Result<Option<Prefix<D>>, Unheard> {
        let Some((facts, source)) = shelf.file(file.name.number, committed) else {
            return Ok(None);
        };
        if !facts.has_ended {
            return Ok(Some(source));
        }
        let mut source = source;
        let line = last_line_of(self.rt, self.folder, file, source.end())?;
        let from = match line {
            Some(line) => line.offset,
            None => 0,
        };
        match end_from(&mut source, from) {
            Ok(end) => {
                let end = end.min(source.end());
                Ok(Some(source.up_to(end)))
            }
            Err(_) => Ok(None),
        }
    }

    /// Where the file at this place of the list meets the one that follows. They don't if that doesn't go on with it, by its
    /// name, or if one of them can't be read.
    fn meeting_of<S: Shelf<D>>(
        &self,
        files: &[Listed],
        at: usize,
        shelf: &mut S,
        present: Present,
    ) -> Result<Option<Meeting>, Unheard> {
        let (Some(file), Some(next)) = (files.get(at), files.get(at.saturating_add(1))) else {
            return Ok(None);
        };
        if !goes_on_with(file.name, next.name) {
            return Ok(None);
        }
        let Some(old) = self.pages_of(file, shelf, present.committed)? else {
            return Ok(None);
        };
        let Some(new) = self.pages_of(next, shelf, present.committed)? else {
            return Ok(None);
        };
        let Some(begun) = self.begun_of(next, new.end(), shelf, present)? else {
            return Ok(None);
        };
        let mut old = old;
        let mut new = new;
        match Meeting::of(self.rt.alloc(), &mut old, &mut new, begun) {
            Ok(meeting) => Ok(meeting),
            Err(CutFault::Memory) => Err(Unheard::Memory),
            Err(_) => Ok(None),
        }
    }

    /// Where the pages end with which the first link of a file begins: the station tells it of the newest, and the lines of
    /// times of each other one. None if nobody does.
    fn begun_of<S: Shelf<D>>(
        &self,
        file: &Listed,
        committed: u64,
        shelf: &S,
        present: Present,
    ) -> Result<Option<u64>, Unheard> {
        if file.name.number == shelf.newest() && present.begun.is_some() {
            return Ok(present.begun);
        }
        let times = times_of(self.rt, self.folder, file)?;
        Ok(match first_link(times.as_slice(), committed) {
            Some(link) => Some(link.begun),
            None => None,
        })
    }

    /// The pages of the file at this place of the list: up to where it meets the one that follows, if it does.
    fn up_to_meeting<S: Shelf<D>>(
        &self,
        source: Prefix<D>,
        files: &[Listed],
        at: usize,
        shelf: &mut S,
        present: Present,
    ) -> Result<Prefix<D>, Unheard> {
        let end = match self.meeting_of(files, at, shelf, present)? {
            Some(meeting) => meeting.end.min(source.end()),
            None => source.end(),
        };
        Ok(source.up_to(end))
    }

    /// Before a turn of a connection that hears: what is committed by now may be heard. Who has heard all of a file that has
    /// ended hears the next one.
    pub(crate) fn hear_on<S: Shelf<D>>(&mut self, key: usize, shelf: &mut S, present: Present) {
        let Some(number) = self.fetches.file_heard(key) else {
            return;
        };
        if number == shelf.newest() {
            self.fetches.grows(key, present.committed);
            if present.is_finished && self.fetches.has_heard_all(key) {
                self.fetches.ends(key);
            }
            return;
        }
        if !self.fetches.has_heard_all(key) || !self.has_listed(shelf.newest(), present) {
            return;
        }
        if self.hear_next(key, number, shelf, present).is_err() {
            self.fetches.cut(key);
        }
    }

    /// The files are listed, once in a round, and again if the newest isn't among them. It returns whether they could be.
    fn has_listed(&mut self, newest: u64, present: Present) -> bool {
        let is_listed = self
            .seen
            .files
            .iter()
            .any(|file| file.name.number == newest);
        if is_listed && self.seen.at == Some(present.now) {
            return true;
        }
        let Ok(files) = self.list_files() else {
            return false;
        };
        self.seen = Seen {
            files,
            at: Some(present.now),
        };
        true
    }

    /// Goes on with what follows this file, of which a connection has heard all that it knew: where that meets the next one,
    /// if it does, or else with the rest of it, and then with the first file after it that can be read.
    fn hear_next<S: Shelf<D>>(
        &mut self,
        key: usize,
        number: u64,
        shelf: &mut S,
        present: Present,
    ) -> Result<(), Unheard> {
        if let Some((at, meeting)) = self.meeting_after(key, number, shelf, present)? {
            self.fetches.file_meets(key, &meeting);
            if self.fetches.has_heard_all(key) {
                if let Some(next) = self.heard_over(key, at, &meeting, shelf, present)? {
                    self.fetches.goes_on(key, next);
                }
            }
            return Ok(());
        }
        self.fetches.file_ended(key);
        if self.fetches.has_heard_all(key) {
            // If there is none, what follows is waited for.
            if let Some(next) = self.first_after(number, shelf, present)? {
                self.fetches.goes_on(key, next);
            }
        }
        Ok(())
    }

    /// Where the file that a connection hears meets the next one, and where that stands in the list. None if they don't meet,
    /// or if more of the file was heard.
    fn meeting_after<S: Shelf<D>>(
        &self,
        key: usize,
        number: u64,
        shelf: &mut S,
        present: Present,
    ) -> Result<Option<(usize, Meeting)>, Unheard> {
        let files = self.seen.files.as_slice();
        let Some(at) = files.iter().position(|file| file.name.number == number) else {
            return Ok(None);
        };
        let Some(meeting) = self.meeting_of(files, at, shelf, present)? else {
            return Ok(None);
        };
        match self.fetches.heard(key) {
            Some(heard) if !heard.has_heard_past(meeting.end) => Ok(Some((
                at.saturating_add(1),
                meeting,
            ))),
            _ => Ok(None),
        }
    }

    /// What a connection hears that has heard a file up to where it meets the next one, which stands at this place of the
    /// list. None if that can't be read.
    fn heard_over<S: Shelf<D>>(
        &self,
        key: usize,
        at: usize,
        meeting: &Meeting,
        shelf: &mut S,
        present: Present,
    ) -> Result<Option<Heard<D>>, Unheard> {
        let files = self.seen.files.as_slice();
        let Some(file) = files.get(at) else {
            return Ok(None);
        };
        let Some(source) = self.pages_of(file, shelf, present.committed)? else {
            return Ok(None);
        };
        let source = self.up_to_meeting(source, files, at, shelf, present)?;
        let Some(heard) = self.fetches.heard(key) else {
            return Ok(None);
        };
        let next = heard.hears_on(self.rt.alloc(), source, file.name.number, meeting)?;
        Ok(Some(next))
    }

    /// The first file after this one that can be read, if there is one.
    fn first_after<S: Shelf<D>>(
        &self,
        number: u64,
        shelf: &mut S,
        present: Present,
    ) -> Result<Option<Heard<D>>, Unheard> {
        let files = self.seen.files.as_slice();
        for at in 0..files.len() {
            if let Some(next) = self.heard_whole(files, at, number, shelf, present)? {
                return Ok(Some(next));
            }
        }
        Ok(None)
    }

    /// The file at this place of the list from its first page on. None if it doesn't follow the one with this number, or can't
    /// be read.
    fn heard_whole<S: Shelf<D>>(
        &self,
        files: &[Listed],
        at: usize,
        number: u64,
        shelf: &mut S,
        present: Present,
    ) -> Result<Option<Heard<D>>, Unheard> {
        let Some(file) = files.get(at) else {
            return Ok(None);
        };
        if file.name.number <= number {
            return Ok(None);
        }
        let Some(source) = self.pages_of(file, shelf, present.committed)? else {
            return Ok(None);
        };
        let source = self.up_to_meeting(source, files, at, shelf, present)?;
        match Heard::of(self.rt.alloc(), source, file.name.number, beginning()) {
            Ok(heard) => Ok(Some(heard)),
            Err(CutFault::Memory) => Err(Unheard::Memory),
            Err(_) => Ok(None),
        }
    }
}
