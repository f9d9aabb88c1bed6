//! Packets of a file, or of the files of a folder, as lines.
ghost use Rattle.std.specs.Prelude.{◌≡◌, ◌+◌, ◌<◌, ◌≤◌, ◌||◌, ◌&&◌, IfSome, None, Some, Ok, Err, true, false, nat_le, nat_lt};
ghost use Rattle.link_index.specs.Adding.{fault_at};
ghost use Rattle.link_chain.specs.declared.chain_fault.ChainFault.{ChainFault as ChainFaultOf};
ghost use Rattle.gate_file.specs.declared.fault.OpenFault.{OpenFault as OpenFaultOf};
ghost use Rattle.packet_actions.specs.Asked.{is_asked};

use crate::paging::PageLines;
use archive_cut::{Recorded, is_before, stood_at, time_of};
use archive_names::Kind;
use archive_reading::{
    Listed, Prefix, ReadingFault, begin_of, committed, folder, length_of, path_of, times_of,
};
use archive_times::{Line, last_line, next_line};
use disk_model::{FileDisk, FileMode};
use fault_lines::Fault;
use gate_file::GateFile;
use import_feed::MakingFault;
use import_gather::GatherFault;
use line_packets::{Wanted, When};
use link_index::fault_at;
use ogg_command::Listed as Packet;
use ogg_page::{PageBuffer, PageSource, Window, write_whole};
use std::alloc::{AllocError, Global};
use std::fs;
use std::time::SystemTime;

/// After how many bytes lines are written out.
const TOGETHER: usize = 65_536;

/// Which packets are written, and how. Times are in milliseconds since 1970.
#[derive(Clone, Copy)]
pub struct PacketOptions<'a> {
    /// The name of the stream, or its place in each link from 1 on; all streams without it.
    pub stream: Option<&'a str>,
    /// The number of the link in its file.
    pub link: Option<u32>,
    /// Only what was recorded after this time.
    pub since: Option<u64>,
    /// Only what was recorded up to this time.
    pub until: Option<u64>,
    /// Header packets too.
    pub headers: bool,
    /// An object for each packet.
    pub json: bool,
}

/// Writes to standard output the packets that the file or the archive in the folder holds, in the order of the pages in which
/// they end. Nothing is locked, and nothing is written to the files.
///
/// It is `NoTimes` if a time is asked for of a file by itself, `File` if the file or the folder can't be read, `Open` if a file's
/// committed bytes can't be found, `Index` if its pages aren't links, `Damaged` if that is so of a file of a folder, which is told,
/// `NoStream` if no link has the stream, `Memory`, and `Write` if standard output takes no more. What came before is written.
pub fn packets(rt: &HostRuntime, path: &str, options: PacketOptions<'_>) -> Result<(), Fault> {
    let wanted = granted(wanted_by(rt.alloc(), options))?;
    let mut writing = Writing {
        rt,
        options,
        pages: PageLines::new(rt.alloc(), wanted),
        lines: Vec::new(rt.alloc()),
        is_damaged: false,
    };
    let written = match fs::metadata(rt, path) {
        Ok(metadata) if metadata.is_dir() => writing.of_folder(path),
        Ok(_) => writing.of_file(path),
        Err(_) => Err(Fault::File),
    };
    let out = writing.write_out();
    written?;
    out?;
    writing.ended()
}

/// Which packets the options ask for.
fn wanted_by(alloc: Global, options: PacketOptions<'_>) -> Result<Wanted, AllocError> {
    let (name, place) = match options.stream {
        Some(name) => {
            let bytes = Packet::of(name.as_bytes().to_vec(alloc)?);
            (Some(bytes), name.parse::<u64>().ok())
        }
        None => (None, None),
    };
    Ok(Wanted {
        name,
        place,
        link: options.link.map(u64::from),
        headers: options.headers,
        json: options.json,
    })
}

/// What memory was granted for.
fn granted<T>(asked: Result<T, AllocError>) -> Result<T, Fault> {
    match asked {
        Ok(it) => Ok(it),
        Err(AllocError) => Err(Fault::Memory),
    }
}

/// The times of a file, as its pages are gone through.
#[derive(Drop)]
struct Times<'a> {
    text: &'a [u8],
    facts: Recorded,
    // what follows the last line that was read, and that line
    rest: &'a [u8],
    line: Option<Line>,
    // the time of what ends up to this offset
    until: u64,
    time: u64,
}

impl<'a> Times<'a> {
    /// Those of a file with these lines.
    fn of(text: &'a [u8], facts: Recorded) -> Times<'a> {
        Times {
            text,
            facts,
            rest: text,
            line: None,
            until: 0,
            time: 0,
        }
    }

    /// When the first bytes up to this offset were committed, which isn't less than the one before: the time of the first line at
    /// or after it.
    fn at(&mut self, offset: u64) -> u64 {
        for _ in 0..u64::MAX {
            if self.until >= offset {
                break;
            }
            match next_line(self.rest, self.line, self.facts.committed) {
                Some((line, rest)) => {
                    self.until = line.offset;
                    self.time = line.time.max(self.facts.begin);
                    self.line = Some(line);
                    self.rest = rest;
                }
                None => {
                    self.until = u64::MAX;
                    self.time = time_of(self.text, self.facts, offset);
                }
            }
        }
        self.time
    }
}

/// A file that is gone through: its number and its times, if it is one of an archive, and between which places the packets end that
/// are asked for.
#[derive(Drop)]
struct Given<'a> {
    number: Option<u64>,
    times: Option<Times<'a>>,
    start: u64,
    end: u64,
}

/// A run of `packets`.
#[derive(Drop)]
struct Writing<'a> {
    rt: &'a HostRuntime,
    options: PacketOptions<'a>,
    pages: PageLines,
    // lines that aren't written yet
    lines: Vec<u8>,
    is_damaged: bool,
}

/// The committed bytes of a file.
fn prefix_of(rt: &HostRuntime, file: &str) -> Result<Prefix<FileDisk>, Fault> {
    let disk = match FileDisk::open(rt, file, FileMode::ReadOnly) {
        Ok(disk) => disk,
        Err(_) => return Err(Fault::File),
    };
    match GateFile::find(rt.alloc(), disk) {
        Ok(found) => {
            let end = found.end();
            match Prefix::whole(found.give_back()) {
                Ok(bytes) => {
                    let all = bytes.end();
                    Ok(bytes.up_to(end.min(all)))
                }
                Err(_) => Err(Fault::File),
            }
        }
        Err((fault, _)) => Err(Fault::Open(fault)),
    }
}

fn fault_of(fault: ReadingFault) -> Fault
    ensures file { fault ≡ ReadingFault.File → result ≡ Fault.File }
    ensures memory { fault ≡ ReadingFault.Memory → result ≡ Fault.Memory }
    ensures open { (opening : OpenFaultOf) → fault ≡ ReadingFault.Open opening → result ≡ Fault.Open opening }
{
    match fault {
        ReadingFault::File => Fault::File,
        ReadingFault::Memory => Fault::Memory,
        ReadingFault::Open(fault) => Fault::Open(fault),
    }
}

/// The fault of a page that begins at this offset.
fn page_fault(offset: u64, fault: GatherFault) -> Fault
    ensures chain { (chain : ChainFaultOf) → fault ≡ GatherFault.Chain chain → result ≡ Fault.Index (fault_at offset chain) }
    ensures long { fault ≡ GatherFault.PacketTooLong → result ≡ Fault.Make (MakingFault.PacketTooLong offset) }
    ensures memory { fault ≡ GatherFault.Memory → result ≡ Fault.Memory }
{
    match fault {
        GatherFault::Chain(fault) => Fault::Index(fault_at(offset, fault)),
        GatherFault::PacketTooLong => Fault::Make(MakingFault::PacketTooLong(offset)),
        GatherFault::Memory => Fault::Memory,
    }
}

/// The milliseconds since 1970, or 0 if the clock can't be read.
fn now(rt: &HostRuntime) -> u64 {
    let Ok(now) = SystemTime::now(rt) else {
        return 0;
    };
    match now.duration_since(SystemTime::UNIX_EPOCH) {
        Ok(since) => u64::try_from(since.as_millis()).unwrap_or(u64::MAX),
        Err(_) => 0,
    }
}

impl Writing<'_> {
    /// What the run has come to, if it met no fault.
    fn ended(&self) -> Result<(), Fault>
        ensures damaged { self.now.is_damaged ≡ true → result ≡ Err Fault.Damaged }
        ensures none { self.now.is_damaged ≡ false → self.now.pages.choosing.has_found ≡ false → result ≡ Err Fault.NoStream }
        ensures done { self.now.is_damaged ≡ false → self.now.pages.choosing.has_found ≡ true → result ≡ Ok tt }
    {
        if self.is_damaged {
            return Err(Fault::Damaged);
        }
        if !self.pages.choosing.has_found() {
            return Err(Fault::NoStream);
        }
        Ok(())
    }

    /// Writes the lines so far.
    fn write_out(&mut self) -> Result<(), Fault> {
        match write_whole(&mut self.rt.stdout(), self.lines.as_slice()) {
            Ok(()) => {
                self.lines.clear();
                Ok(())
            }
            Err(_) => Err(Fault::Write),
        }
    }

    /// Writes the packets of a file by itself.
    fn of_file(&mut self, file: &str) -> Result<(), Fault> {
        if self.options.since.is_some() || self.options.until.is_some() {
            return Err(Fault::NoTimes);
        }
        let source = prefix_of(self.rt, file)?;
        let end = source.end();
        let mut given = Given {
            number: None,
            times: None,
            start: 0,
            end,
        };
        self.of_source(source, &mut given)
    }

    /// Writes the packets of the files of a folder.
    fn of_folder(&mut self, path: &str) -> Result<(), Fault> {
        let seen = match folder(self.rt, path) {
            Ok(seen) => seen,
            Err(fault) => return Err(fault_of(fault)),
        };
        let now = now(self.rt);
        let mut rest = seen.files.as_slice();
        for _ in 0..u64::MAX {
            let Some((file, others)) = rest.split_first() else {
                break;
            };
            let later = match others.first() {
                Some(next) => begin_of(next.name),
                None => now,
            };
            if self.is_asked(begin_of(file.name), later) {
                match self.of_listed(path, file, later) {
                    Ok(()) => {}
                    Err(Fault::Open(_) | Fault::Index(_)) => self.tell_damaged(path, file)?,
                    Err(fault) => return Err(fault),
                }
            }
            rest = others;
        }
        Ok(())
    }

    /// Tells that a file is damaged.
    fn tell_damaged(&mut self, path: &str, file: &Listed) -> Result<(), Fault> {
        self.is_damaged = true;
        let name = granted(path_of(self.rt.alloc(), path, file.name, Kind::Pages))?;
        let mut line = granted(String::from_str(self.rt.alloc(), "damaged "))?;
        granted(line.push_str(name.as_str()))?;
        granted(line.push_str("\n"))?;
        let _ = write_whole(&mut self.rt.stderr(), line.as_bytes());
        Ok(())
    }

    /// Whether something of a file may be asked for, by when it was begun and when the next one was.
    fn is_asked(&self, begin: u64, later: u64) -> bool
        ensures { result ≡ is_asked self.now.options.since self.now.options.until begin later }
    {
        let all_before = match self.options.since {
            Some(since) => is_before(later, since),
            None => false,
        };
        let all_after = match self.options.until {
            Some(until) => until < begin && !is_before(later, until),
            None => false,
        };
        !all_before && !all_after
    }

    /// Writes the packets of a file of a folder. One that is gone meanwhile was thrown away.
    fn of_listed(&mut self, path: &str, file: &Listed, later: u64) -> Result<(), Fault> {
        let Ok(length) = length_of(self.rt, path, file.name) else {
            return Ok(());
        };
        let text = granted(times_of(self.rt, path, file))?;
        let text = text.as_slice();
        let (line, _) = last_line(text, None, length);
        let source = match committed(self.rt, path, file.name, line) {
            Ok(source) => source,
            Err(fault) => return Err(fault_of(fault)),
        };
        let facts = Recorded {
            begin: begin_of(file.name),
            later,
            committed: source.end(),
        };
        let start = match self.options.since {
            Some(since) => stood_at(text, facts, since).offset,
            None => 0,
        };
        let end = match self.options.until {
            Some(until) => stood_at(text, facts, until).offset,
            None => facts.committed,
        };
        if start >= end {
            return Ok(());
        }
        let mut given = Given {
            number: Some(file.name.number),
            times: Some(Times::of(text, facts)),
            start,
            end,
        };
        self.of_source(source, &mut given)
    }

    /// Writes the packets that end between two places of a source of pages.
    fn of_source(&mut self, source: Prefix<FileDisk>, given: &mut Given<'_>) -> Result<(), Fault> {
        self.pages.begin_file();
        let end = given.end.min(source.end());
        let buffer = granted(PageBuffer::new(self.rt.alloc()))?;
        let mut window = Window::new(source, buffer, 0, end);
        let mut at = 0;
        for _ in 0..u64::MAX {
            if window.advance().is_err() {
                return Err(Fault::File);
            }
            let Some((offset, page)) = window.lent() else {
                break;
            };
            at = offset.saturating_add(page.whole().len() as u64);
            let when = when_at(given, at, self.options.json);
            if let Err(fault) = self.pages.take_page(&page, when, &mut self.lines) {
                return Err(page_fault(offset, fault));
            }
            if self.lines.len() >= TOGETHER {
                self.write_out()?;
            }
        }
        let when = when_at(given, at, self.options.json);
        match self.pages.end_file(when, &mut self.lines) {
            Ok(()) => Ok(()),
            Err(fault) => Err(page_fault(at, fault)),
        }
    }
}

/// What is known of packets that end in a page which ends at this place.
fn when_at(given: &mut Given<'_>, end: u64, json: bool) -> When {
    let is_asked = end > given.start;
    let time = match &mut given.times {
        Some(times) if is_asked && json => Some(times.at(end)),
        _ => None,
    };
    When {
        time,
        file: given.number,
        is_asked,
    }
}
