//! The command that lists an archive's files with their times.

use crate::files::open;
use crate::indexing::find_index;
use crate::lines::{gap_line, put_damaged, put_file, twice_line};
use crate::telling::{fault_of, is_memory, now, or_memory, what_of, write_all, write_many};
use archive_names::{Kind, Name};
use archive_reading::{
    Listed, ReadingFault, Seen, Span, begin_of, committed, folder, goes_on_with, is_gap,
    last_line_of, length_of, overlaps, path_of, span_of,
};
use archive_times::Line;
use fault_lines::Fault;
use gate_file::OpenFault;
use ogg_page::{PageSource, write_whole};

/// What is asked of a folder.
#[derive(Drop)]
struct Asked<'a> {
    rt: &'a HostRuntime,
    folder: &'a str,
    since: Option<u64>,
    until: Option<u64>,
    links: bool,
}

/// A file that was told.
#[derive(Clone, Copy)]
struct Told {
    name: Name,
    span: Span,
}

/// Writes a line to standard output for each file of the archive in the folder that has something after `since` and not
/// after `until`, and a line for each gap between two of them. With `links` each file's line is followed by what
/// `links` prints of it, or by what is wrong with it. Nothing is locked, and nothing is written to the folder.
///
/// It is `File` if the folder can't be read, `Memory` if memory is refused, `Write` if standard output takes no more: a
/// part of the lines may be written then.
pub fn list(
    rt: &HostRuntime,
    folder: &str,
    since: Option<u64>,
    until: Option<u64>,
    links: bool,
) -> Result<(), Fault> {
    let asked = Asked {
        rt,
        folder,
        since,
        until,
        links,
    };
    let seen = asked.seen()?;
    tell_twice(rt, &seen);
    let mut lines = Vec::new(rt.alloc());
    asked.list_files(&seen, true, &mut lines)?;
    write_all(rt, &mut lines)
}

/// The lines of all files of the archive in the folder, and of the gaps between them, as `list` writes them.
///
/// It is `File` if the folder can't be read, and `Memory` if memory is refused.
pub fn list_text(rt: &HostRuntime, folder: &str) -> Result<Vec<u8>, Fault> {
    let asked = Asked {
        rt,
        folder,
        since: None,
        until: None,
        links: false,
    };
    let seen = asked.seen()?;
    let mut lines = Vec::new(rt.alloc());
    asked.list_files(&seen, false, &mut lines)?;
    Ok(lines)
}

/// The numbers that stand twice are told on standard error.
fn tell_twice(rt: &HostRuntime, seen: &Seen) {
    for number in seen.twice.as_slice() {
        let _ = write_whole(&mut rt.stderr(), twice_line(*number).as_slice());
    }
}

impl<'a> Asked<'a> {
    /// The files of the folder.
    fn seen(&self) -> Result<Seen, Fault> {
        match folder(self.rt, self.folder) {
            Ok(seen) => Ok(seen),
            Err(fault) => Err(fault_of(fault)),
        }
    }

    /// Adds the lines of the files. They are written as they come, if that is asked for.
    fn list_files(&self, seen: &Seen, is_written: bool, lines: &mut Vec<u8>) -> Result<(), Fault> {
        let mut before: Option<Told> = None;
        let now = now(self.rt);
        let mut rest = seen.files.as_slice();
        while let Some((file, others)) = rest.split_first() {
            if let Some(told) = self.list_file(file, others.first(), now, before, lines)? {
                before = Some(told);
                if is_written {
                    write_many(self.rt, lines)?;
                }
            }
            rest = others;
        }
        Ok(())
    }

    /// Adds the lines of a file, if it is asked for.
    fn list_file(
        &self,
        file: &Listed,
        next: Option<&Listed>,
        now: u64,
        before: Option<Told>,
        lines: &mut Vec<u8>,
    ) -> Result<Option<Told>, Fault> {
        let name = file.name;
        // A file that was begun later is left out without a look at it.
        if !overlaps(span_of(name, None, 1, u64::MAX), self.since, self.until) {
            return Ok(None);
        }
        // One that is gone meanwhile was thrown away.
        let Some(length) = self.length_of(name)? else {
            return Ok(None);
        };
        let last = or_memory(last_line_of(self.rt, self.folder, file, length))?;
        let (bytes, later) = match next {
            Some(next) => (length, begin_of(next.name)),
            None => (self.committed_of(name, last, length)?, now),
        };
        let span = span_of(name, last, bytes, later);
        if !overlaps(span, self.since, self.until) {
            return Ok(None);
        }
        let told = Told { name, span };
        or_memory(put_gap(before, told, lines))?;
        let text = name.text(Kind::Pages);
        or_memory(put_file(lines, name.number, span, bytes, text.as_slice()))?;
        if self.links {
            self.put_links(name, lines)?;
        }
        Ok(Some(told))
    }

    /// The length of the file, if it is there.
    fn length_of(&self, name: Name) -> Result<Option<u64>, Fault> {
        match length_of(self.rt, self.folder, name) {
            Ok(length) => Ok(Some(length)),
            Err(ReadingFault::Memory) => Err(Fault::Memory),
            Err(_) => Ok(None),
        }
    }

    /// How many bytes of the newest file are committed. If that can't be found it is its length.
    fn committed_of(&self, name: Name, last: Option<Line>, length: u64) -> Result<u64, Fault> {
        match committed(self.rt, self.folder, name, last) {
            Ok(bytes) => Ok(bytes.end()),
            Err(ReadingFault::Memory) => Err(Fault::Memory),
            Err(_) => Ok(length),
        }
    }

    /// Adds the file's links and streams, or what is wrong with it.
    fn put_links(&self, name: Name, lines: &mut Vec<u8>) -> Result<(), Fault> {
        let fault = match self.put_listing(name, lines) {
            // It may have been caught in a commit.
            Err(Fault::Open(OpenFault::Page(..))) => self.put_listing(name, lines),
            answer => answer,
        };
        match fault {
            Ok(()) => Ok(()),
            Err(fault) if is_memory(&fault) => Err(Fault::Memory),
            Err(fault) => {
                let what = or_memory(what_of(self.rt.alloc(), &fault))?;
                let text = name.text(Kind::Pages);
                or_memory(put_damaged(lines, text.as_slice(), what.as_slice()))
            }
        }
    }

    fn put_listing(&self, name: Name, lines: &mut Vec<u8>) -> Result<(), Fault> {
        let path = or_memory(path_of(self.rt.alloc(), self.folder, name, Kind::Pages))?;
        let indexed = find_index(self.rt.alloc(), open(self.rt, path.as_str())?)?;
        or_memory(indexed.index.write_listing(lines))
    }
}

/// Adds the line of the gap between two files, if there is one.
fn put_gap(before: Option<Told>, next: Told, lines: &mut Vec<u8>) -> Result<(), ogg_page::Memory> {
    if let Some(before) = before {
        if is_gap(before.span, next.span) && !goes_on_with(before.name, next.name) {
            lines.extend_from_slice(gap_line(before.span.end, next.span.begin).as_slice())?;
        }
    }
    Ok(())
}
