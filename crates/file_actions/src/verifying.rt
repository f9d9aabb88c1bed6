//! The command that reads an archive, or one file, and tells all damage.

use crate::checks::{Places, TimesFault, is_sound_tail, lacks_before};
use crate::files::open;
use crate::lines::{
    Counts, line_what, page_what, put_damaged, tail_what, twice_line, verified_line, without_what,
};
use crate::progress::Progress;
use crate::telling::{fault_of, is_memory, or_memory, what_of, write_all};
use archive_names::Kind;
use archive_reading::{Listed, Seen, folder, length_of, path_of};
use disk_model::Disk;
use fault_lines::Fault;
use gate_file::{GateFile, OpenFault};
use link_chain::ChainFault;
use link_index::{Index, PageTaker, fault_at};
use ogg_page::{Page, PageBuffer, PageVisitor, Visit};
use std::fs;
use std::io::ErrorKind;

/// Reads the files of the archive in the folder, or one file, as a whole, and writes a line to standard output for each
/// fault that is found and one that says what was read. Nothing is locked, and nothing is written to the files.
///
/// A file that is written just now may be open: what a stop may leave after its last page is no fault, and neither is a
/// torn last line of its times. One file by itself is taken so too.
///
/// It is `Damaged` if there was a fault, `File` if the folder or the file can't be read, `Memory` if memory is refused,
/// `Write` if standard output takes no more.
pub fn verify(rt: &HostRuntime, path: &str) -> Result<(), Fault> {
    let counts = match fs::metadata(rt, path) {
        Ok(metadata) if metadata.is_dir() => verify_folder(rt, path)?,
        Ok(metadata) => verify_alone(rt, path, metadata.len())?,
        Err(_) => return Err(Fault::File),
    };
    let mut line = or_memory(Vec::from_slice(rt.alloc(), verified_line(counts).as_slice()))?;
    write_all(rt, &mut line)?;
    if counts.faults > 0 {
        Err(Fault::Damaged)
    } else {
        Ok(())
    }
}

/// Verifies the files of a folder.
fn verify_folder(rt: &HostRuntime, path: &str) -> Result<Counts, Fault> {
    let seen = match folder(rt, path) {
        Ok(seen) => seen,
        Err(fault) => return Err(fault_of(fault)),
    };
    let mut run = Verifying::new(rt, total_of(rt, path, &seen));
    run.verify_seen(path, &seen)?;
    Ok(run.end())
}

/// Verifies one file by itself, with the times beside it if it is one of an archive.
fn verify_alone(rt: &HostRuntime, path: &str, length: u64) -> Result<Counts, Fault> {
    let mut run = Verifying::new(rt, length);
    let Some(front) = path.strip_suffix(".ogg") else {
        run.verify_file(path, "", path.as_bytes(), b"", true)?;
        return Ok(run.end());
    };
    let mut times = or_memory(String::from_str(rt.alloc(), front))?;
    or_memory(times.push_str(".times"))?;
    let times = times.as_str();
    run.verify_file(path, times, path.as_bytes(), times.as_bytes(), true)?;
    Ok(run.end())
}

/// A run of `verify`. It sees the pages of each file as they pass.
#[derive(Drop)]
struct Verifying<'a> {
    rt: &'a HostRuntime,
    progress: Progress<'a>,
    counts: Counts,
    /// The links of the file that is read.
    index: Index,
    /// Why its pages are no chain of links.
    broken: Option<(u64, ChainFault)>,
    /// Its lines of times.
    places: Places,
}

/// A file that is read.
#[derive(Clone, Copy)]
struct Reading<'a> {
    path: &'a str,
    name: &'a [u8],
    times: &'a [u8],
    times_name: &'a [u8],
    /// Whether it may be written just now.
    is_written: bool,
}

/// Where the pages of a file end.
#[derive(Clone, Copy)]
struct Passed {
    end: u64,
    tail: u64,
    /// The first byte of the tail.
    first: u8,
}

impl<'a> PageVisitor for Verifying<'a> {
    ghost sees = { λ _ _ _ _. Unit {0} };

    fn see(&mut self, offset: u64, page: &Page<'_>) -> Visit {
        self.places.pass(offset);
        self.progress.reach(offset);
        if self.broken.is_none() {
            self.broken = take_page(&mut self.index, offset, page);
        }
        Visit::GoesOn
    }
}

/// Takes a page into the index, if it may follow.
fn take_page(index: &mut Index, offset: u64, page: &Page<'_>) -> Option<(u64, ChainFault)> {
    let mut taker = PageTaker::of(index);
    let _ = taker.see(offset, page);
    taker.broken()
}

impl<'a> Verifying<'a> {
    /// Nothing of `total` bytes is read.
    fn new(rt: &'a HostRuntime, total: u64) -> Verifying<'a> {
        Verifying {
            rt,
            progress: Progress::new(rt, total),
            counts: Counts {
                files: 0,
                links: 0,
                bytes: 0,
                faults: 0,
            },
            index: Index::new(rt.alloc()),
            broken: None,
            places: Places::of(Vec::new(rt.alloc())),
        }
    }

    /// What was read.
    fn end(self) -> Counts {
        let mut progress = self.progress;
        progress.erase();
        self.counts
    }

    fn tell(&mut self, line: &[u8]) -> Result<(), Fault> {
        self.progress.erase();
        let mut lines = or_memory(Vec::from_slice(self.rt.alloc(), line))?;
        write_all(self.rt, &mut lines)
    }

    /// Tells what is wrong with a file.
    fn damaged(&mut self, name: &[u8], what: &[u8]) -> Result<(), Fault> {
        self.counts.faults = self.counts.faults.saturating_add(1);
        self.progress.erase();
        let mut lines = Vec::new(self.rt.alloc());
        or_memory(put_damaged(&mut lines, name, what))?;
        write_all(self.rt, &mut lines)
    }

    /// Tells the fault of a file, unless memory was refused.
    fn damaged_by(&mut self, name: &[u8], fault: &Fault) -> Result<(), Fault> {
        if is_memory(fault) {
            return Err(Fault::Memory);
        }
        let what = or_memory(what_of(self.rt.alloc(), fault))?;
        self.damaged(name, what.as_slice())
    }

    fn verify_seen(&mut self, path: &str, seen: &Seen) -> Result<(), Fault> {
        for number in seen.twice.as_slice() {
            self.counts.faults = self.counts.faults.saturating_add(1);
            self.tell(twice_line(*number).as_slice())?;
        }
        let newest = newest_of(seen);
        let mut before: Option<Listed> = None;
        for file in seen.files.as_slice() {
            if lacks_before(before, file.name) {
                let name = file.name.text(Kind::Pages);
                let what = without_what(file.name.number.saturating_sub(1));
                self.damaged(name.as_slice(), what.as_slice())?;
            }
            self.verify_listed(path, file, newest == Some(file.name.number))?;
            before = Some(*file);
        }
        Ok(())
    }

    /// Verifies a file of the folder.
    fn verify_listed(
        &mut self,
        folder: &str,
        file: &Listed,
        is_written: bool,
    ) -> Result<(), Fault> {
        let alloc = self.rt.alloc();
        let path = or_memory(path_of(alloc, folder, file.name, Kind::Pages))?;
        let times_path = or_memory(path_of(alloc, folder, file.name, Kind::Times))?;
        let name = file.name.text(Kind::Pages);
        let times_name = file.name.text(Kind::Times);
        self.verify_file(
            path.as_str(),
            times_path.as_str(),
            name.as_slice(),
            times_name.as_slice(),
            is_written,
        )
    }

    /// Verifies a file, with its times if it has any.
    fn verify_file(
        &mut self,
        path: &str,
        times_path: &str,
        name: &[u8],
        times_name: &[u8],
        is_written: bool,
    ) -> Result<(), Fault> {
        let times = match fs::read(self.rt, times_path) {
            Ok(times) => times,
            Err(error) if error.kind() == ErrorKind::OutOfMemory => return Err(Fault::Memory),
            Err(_) => Vec::new(self.rt.alloc()),
        };
        self.verify_reading(Reading {
            path,
            name,
            times: times.as_slice(),
            times_name,
            is_written,
        })
    }

    fn verify_reading(&mut self, file: Reading<'_>) -> Result<(), Fault> {
        let passed = match self.pass(file) {
            // It may have been caught in a commit.
            Err(Fault::Open(OpenFault::Page(..))) if file.is_written => self.pass(file),
            passed => passed,
        };
        match passed {
            Ok(passed) => self.told(file, passed),
            Err(fault) => {
                if is_gone(self.rt, file.path) {
                    return Ok(());
                }
                self.counts.files = self.counts.files.saturating_add(1);
                self.damaged_by(file.name, &fault)
            }
        }
    }

    /// Reads all of a file in one pass: its pages, their links, and the places between pages.
    fn pass(&mut self, file: Reading<'_>) -> Result<Passed, Fault> {
        let alloc = self.rt.alloc();
        let disk = open(self.rt, file.path)?;
        let buffer = or_memory(PageBuffer::new(alloc))?;
        self.places = Places::of(or_memory(Vec::from_slice(alloc, file.times))?);
        self.index = Index::new(alloc);
        self.broken = None;
        let found = match GateFile::find_with(disk, buffer, self) {
            Ok((found, _)) => found,
            Err((fault, _)) => return Err(Fault::Open(OpenFault::from(fault))),
        };
        let end = found.end();
        let tail = found.tail();
        let mut disk = found.give_back();
        let mut first = [0];
        if tail > 0 {
            let Ok(()) = disk.read_at(end, &mut first) else {
                return Err(Fault::Open(OpenFault::Disk));
            };
        }
        Ok(Passed {
            end,
            tail,
            first: first[0],
        })
    }

    /// Counts what was read, and tells what is wrong.
    fn told(&mut self, file: Reading<'_>, passed: Passed) -> Result<(), Fault> {
        let links = u64::from(self.index.links());
        self.counts.files = self.counts.files.saturating_add(1);
        self.counts.links = self.counts.links.saturating_add(links);
        self.counts.bytes = self.counts.bytes.saturating_add(passed.end);
        self.progress.pass(passed.end.saturating_add(passed.tail));
        if let Some((offset, fault)) = self.broken {
            self.damaged_by(file.name, &Fault::Index(fault_at(offset, fault)))?;
        }
        if !is_sound_tail(file.is_written, passed.tail, passed.first) {
            let what = tail_what(passed.end, passed.tail);
            self.damaged(file.name, what.as_slice())?;
        }
        self.places.pass(passed.end);
        match self.places.fault(file.is_written) {
            Some(TimesFault::Line(at)) => self.damaged(file.times_name, line_what(at).as_slice()),
            Some(TimesFault::Page(at)) => self.damaged(file.times_name, page_what(at).as_slice()),
            None => Ok(()),
        }
    }
}

/// Whether there is no such file any more.
fn is_gone(rt: &HostRuntime, path: &str) -> bool {
    match fs::metadata(rt, path) {
        Ok(_) => false,
        Err(error) => error.kind() == ErrorKind::NotFound,
    }
}

/// The bytes of all files.
fn total_of(rt: &HostRuntime, path: &str, seen: &Seen) -> u64 {
    let mut total: u64 = 0;
    for file in seen.files.as_slice() {
        total = total.saturating_add(length_of(rt, path, file.name).unwrap_or(0));
    }
    total
}

/// The number of the newest file, unless two have a number above all others.
fn newest_of(seen: &Seen) -> Option<u64> {
    let newest = seen.files.as_slice().last()?.name.number;
    match seen.twice.as_slice().last() {
        Some(twice) if newest < *twice => None,
        _ => Some(newest),
    }
}
