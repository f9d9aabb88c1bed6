//! The command that cuts out of an archive what was recorded between two times.

use crate::cut_gaps::Air;
use crate::cut_heads::is_walked;
use crate::cut_parts::{Cutting, Part};
use crate::files::{flushed, output};
use crate::serials::Serials;
use crate::telling::{now, or_memory};
use archive_cut::{
    Cut, CutFault, Meeting, Recorded, Stand, StreamEnds, counted_at, first_link, is_before,
    last_link, meeting_of, stood_at, take_pages,
};
use archive_names::Name;
use archive_reading::{
    Listed, Prefix, ReadingFault, Seen as SeenFolder, begin_of, committed, folder, goes_on_with,
    length_of, times_of,
};
use archive_times::{Join, Line, last_line};
use disk_model::FileDisk;
use fault_lines::Fault;
use ogg_page::{FIXED_SIZE, PageSource};

/// How many bytes are written at once.
const TOGETHER: usize = 65536;

/// What is asked of a folder. Times are in milliseconds since 1970.
#[derive(Drop)]
pub(crate) struct Asked<'a> {
    pub(crate) rt: &'a HostRuntime,
    pub(crate) folder: &'a str,
    pub(crate) since: Option<u64>,
    pub(crate) until: Option<u64>,
    // what is taken for the time of that of which no line of times tells yet
    pub(crate) later: u64,
}

/// Why nothing was found.
#[derive(Clone, Copy)]
pub(crate) enum Stop {
    Failed(Fault),
    /// Pages of a file are damaged, or can't be read. All files are looked at anew then, and those that can't be cut are
    /// left out.
    Damaged,
}

impl From<Fault> for Stop {
    fn from(fault: Fault) -> Stop {
        Stop::Failed(fault)
    }
}

/// A part of which the pages aren't counted yet: the next one may go on with it.
#[derive(Drop)]
pub(crate) struct Waits {
    pub(crate) part: Part,
    pub(crate) source: Prefix<FileDisk>,
    // where the file's last link began, if all of the file up to its end is in the part, and where the Begin of its first
    // link ends, if the part begins with it
    pub(crate) last: Option<Join>,
    pub(crate) first: Option<u64>,
    // no number of the link that is open at the end is higher
    pub(crate) number: u64,
}

/// What is found before anything is written.
#[derive(Drop)]
pub(crate) struct Finds {
    pub(crate) parts: Vec<Part>,
    pub(crate) waits: Option<Waits>,
    pub(crate) serials: Serials,
    pub(crate) ends: StreamEnds,
    // the time of the first commands and that of the last
    pub(crate) from: u64,
    pub(crate) to: u64,
    pub(crate) gaps: Vec<u8>,
    pub(crate) air: Air,
}

/// A file that is looked at.
#[derive(Drop)]
pub(crate) struct Seen {
    pub(crate) name: Name,
    pub(crate) times: Vec<u8>,
    pub(crate) line: Option<Line>,
    pub(crate) facts: Recorded,
    // how many bytes the file has
    pub(crate) length: u64,
    pub(crate) source: Prefix<FileDisk>,
}

/// Writes to standard output what was recorded into the archive in the folder after `since` and not after `until`, as one
/// Ogg file, in which players find each stream's end. With `raw` streams end where they ended. What is in it, and each
/// gap, is told on standard error before. Nothing is locked, and nothing is written to the folder.
///
/// It is `Nothing` if nothing was recorded in that time, `File` if the folder can't be read, and `Memory` if memory is
/// refused: nothing is written then. It is `File` if a file can't be read again, and `Write` if standard output takes no
/// more: a part is written then.
pub fn cut(
    rt: &HostRuntime,
    folder: &str,
    since: Option<u64>,
    until: Option<u64>,
    raw: bool,
) -> Result<(), Fault> {
    let mut finding = Finding::new(rt, folder, since, until)?;
    finding.find_all()?;
    let Some(mut cutting) = Cutting::of(finding, raw)? else {
        return Err(Fault::Nothing);
    };
    cutting.tell()?;
    let mut out = output(rt, TOGETHER)?;
    let written = cutting.write(&mut out);
    flushed(written, &mut out, Fault::Write)
}

pub(crate) fn push(parts: &mut Vec<Part>, part: Part) -> Result<(), Fault> {
    match parts.push(part) {
        Ok(()) => Ok(()),
        Err(_) => Err(Fault::Memory),
    }
}

/// What is to be cut out of an archive, as far as it is found: file after file is looked at.
#[derive(Drop)]
pub struct Finding<'a> {
    pub(crate) asked: Asked<'a>,
    seen: SeenFolder,
    // the file that is looked at next
    at: usize,
    // pages are damaged, so that those of each file are looked at before
    may_be_damaged: bool,
    pub(crate) finds: Finds,
}

impl<'a> Finding<'a> {
    /// Looks for what was recorded into the archive in the folder after `since` and not after `until`. No file is looked at
    /// yet.
    ///
    /// It is `File` if the folder can't be read, and `Memory` if memory is refused.
    pub fn new(
        rt: &'a HostRuntime,
        path: &'a str,
        since: Option<u64>,
        until: Option<u64>,
    ) -> Result<Finding<'a>, Fault> {
        let asked = Asked {
            rt,
            folder: path,
            since,
            until,
            // What no line of times tells of yet was recorded after each time that could be asked for by now.
            later: now(rt).saturating_add(1),
        };
        let seen = match folder(rt, path) {
            Ok(seen) => seen,
            Err(ReadingFault::Memory) => return Err(Fault::Memory),
            Err(_) => return Err(Fault::File),
        };
        let finds = asked.nothing();
        Ok(Finding {
            asked,
            seen,
            at: 0,
            may_be_damaged: false,
            finds,
        })
    }

    /// Looks at the next file. It is true once all were looked at, and isn't called again then. If pages of one are damaged,
    /// all files are looked at anew, and those that can't be cut are left out.
    ///
    /// It is `Memory` if memory is refused.
    pub fn step(&mut self) -> Result<bool, Fault> {
        match self.look() {
            Ok(done) => Ok(done),
            Err(Stop::Failed(fault)) => Err(fault),
            Err(Stop::Damaged) => {
                if self.may_be_damaged {
                    return Err(Fault::File);
                }
                self.may_be_damaged = true;
                self.at = 0;
                self.finds = self.asked.nothing();
                Ok(false)
            }
        }
    }

    fn look(&mut self) -> Result<bool, Stop> {
        let files = self.seen.files.as_slice();
        let Some(file) = files.get(self.at) else {
            self.asked.count_waiting(&mut self.finds)?;
            self.asked.end_air(&mut self.finds)?;
            return Ok(true);
        };
        let next = files.get(self.at.saturating_add(1));
        self.asked
            .find_in(file, next, self.may_be_damaged, &mut self.finds)?;
        self.at = self.at.saturating_add(1);
        Ok(false)
    }

    /// Looks at all files.
    fn find_all(&mut self) -> Result<(), Fault> {
        for _ in 0..u64::MAX {
            if self.step()? {
                return Ok(());
            }
        }
        Err(Fault::File)
    }
}

impl<'a> Asked<'a> {
    /// No file was looked at yet.
    fn nothing(&self) -> Finds {
        Finds {
            parts: Vec::new(self.rt.alloc()),
            waits: None,
            serials: Serials::new(self.rt.alloc()),
            ends: StreamEnds::new(self.rt.alloc()),
            from: 0,
            to: 0,
            gaps: Vec::new(self.rt.alloc()),
            air: Air::from(self.since),
        }
    }

    /// Finds what is to be cut out of a file.
    fn find_in(
        &self,
        file: &Listed,
        next: Option<&Listed>,
        may_be_damaged: bool,
        finds: &mut Finds,
    ) -> Result<(), Stop> {
        let later = match next {
            Some(next) => begin_of(next.name),
            None => self.later,
        };
        let is_asked = self.is_asked(begin_of(file.name), later);
        let seen = if is_asked {
            self.see(file, later, may_be_damaged)?
        } else {
            None
        };
        match seen {
            Some(seen) => {
                self.note_air(&seen, finds)?;
                self.find_part(seen, finds)
            }
            None => {
                if is_asked {
                    finds.air.leave_out(file.name, begin_of(file.name));
                } else {
                    finds.air.pass(file.name);
                }
                Ok(())
            }
        }
    }

    /// Whether something of the file may be asked for, by when it was begun and when the next one was.
    fn is_asked(&self, begin: u64, later: u64) -> bool {
        let all_before = match self.since {
            Some(since) => is_before(later, since),
            None => false,
        };
        let all_after = match self.until {
            Some(until) => until < begin && !is_before(later, until),
            None => false,
        };
        !all_before && !all_after
    }

    /// Looks at a file. There is none if it is gone, or if what is asked of it is damaged: if that may be, its pages are
    /// looked at.
    fn see(&self, file: &Listed, later: u64, may_be_damaged: bool) -> Result<Option<Seen>, Fault> {
        let Some(mut seen) = self.look_at(file, later)? else {
            return Ok(None);
        };
        if may_be_damaged && !self.is_sound(&mut seen)? {
            return Ok(None);
        }
        Ok(Some(seen))
    }

    /// Looks at a file, but not at the pages before its last line of times. There is none if it is gone or damaged.
    fn look_at(&self, file: &Listed, later: u64) -> Result<Option<Seen>, Fault> {
        let name = file.name;
        let Ok(length) = length_of(self.rt, self.folder, name) else {
            return Ok(None);
        };
        let times = or_memory(times_of(self.rt, self.folder, file))?;
        let (line, _) = last_line(times.as_slice(), None, length);
        match committed(self.rt, self.folder, name, line) {
            Ok(source) => Ok(Some(Seen {
                name,
                times,
                line,
                facts: Recorded {
                    begin: begin_of(file.name),
                    later,
                    committed: source.end(),
                },
                length,
                source,
            })),
            Err(ReadingFault::Memory) => Err(Fault::Memory),
            Err(_) => Ok(None),
        }
    }

    /// Where the file stood at the time, or at its beginning.
    fn start_in(&self, seen: &Seen) -> Stand {
        match self.since {
            Some(since) => stood_at(seen.times.as_slice(), seen.facts, since),
            None => Stand {
                offset: 0,
                join: None,
            },
        }
    }

    fn end_in(&self, seen: &Seen) -> u64 {
        match self.until {
            Some(until) => stood_at(seen.times.as_slice(), seen.facts, until).offset,
            None => seen.facts.committed,
        }
    }

    /// What is to be cut out of the file, if there is anything.
    fn part_of(&self, seen: &Seen) -> Option<Part> {
        let stand = self.start_in(seen);
        let end = self.end_in(seen);
        if stand.offset >= end {
            return None;
        }
        Some(Part {
            name: seen.name,
            line: seen.line,
            start: stand.offset,
            join: stand.join,
            end,
            begun: None,
            stays_open: false,
            cut: None,
            ends: Vec::new(self.rt.alloc()),
        })
    }

    /// Adds what is to be cut out of the file, if there is anything.
    fn find_part(&self, seen: Seen, finds: &mut Finds) -> Result<(), Stop> {
        let Some(mut part) = self.part_of(&seen) else {
            return Ok(());
        };
        let times = seen.times.as_slice();
        let from = counted_at(times, seen.facts, part.start.saturating_add(1));
        let to = counted_at(times, seen.facts, part.end);
        let first = if part.start == 0 {
            first_link(times, part.end).map(|link| link.begun)
        } else {
            None
        };
        let last = if part.end == seen.length {
            // If no line tells of a link, it may be one that began where the file does.
            last_link(times, part.end).or(Some(Join { begin: 0, begun: 0 }))
        } else {
            None
        };
        let mut source = seen.source;
        self.join(&mut source, &mut part)?;
        let waits = Waits {
            part,
            source,
            last,
            first,
            number: 0,
        };
        self.add(waits, from, to, finds)
    }

    /// Whether what is asked of the file can be cut out of it: its pages are looked at.
    fn is_sound(&self, seen: &mut Seen) -> Result<bool, Fault> {
        let Some(mut part) = self.part_of(seen) else {
            return Ok(true);
        };
        let source = &mut seen.source;
        match self.join(source, &mut part) {
            Ok(()) => {}
            Err(Stop::Failed(fault)) => return Err(fault),
            Err(Stop::Damaged) => return Ok(false),
        }
        let mut streams = Vec::new(self.rt.alloc());
        match take_pages(source, part.start, part.end, &mut streams) {
            Ok(()) => {}
            Err(CutFault::Memory) => return Err(Fault::Memory),
            Err(_) => return Ok(false),
        }
        match Cut::waits(self.rt.alloc(), part.start, part.end, streams.as_slice()) {
            Ok(_) => Ok(is_walked(source, part.start, part.end)),
            Err(CutFault::Memory) => Err(Fault::Memory),
            Err(_) => Ok(false),
        }
    }

    /// Makes the cut of a part in which a link is joined.
    fn join(&self, source: &mut Prefix<FileDisk>, part: &mut Part) -> Result<(), Stop> {
        if part.join.is_none() {
            return Ok(());
        }
        match Cut::between(self.rt.alloc(), source, part.start, part.join, part.end) {
            Ok(cut) => {
                part.cut = Some(if part.stays_open {
                    cut.left_open()
                } else {
                    cut
                });
                Ok(())
            }
            Err(CutFault::Memory) => Err(Stop::Failed(Fault::Memory)),
            Err(_) => Err(Stop::Damaged),
        }
    }

    /// Adds a part.
    fn add(&self, waits: Waits, from: u64, to: u64, finds: &mut Finds) -> Result<(), Stop> {
        let mut waits = waits;
        if let Some(before) = finds.waits.take() {
            let (before, after) = self.meet(before, waits)?;
            finds.waits = Some(before);
            self.count_waiting(finds)?;
            waits = after;
        } else {
            finds.from = from;
        }
        finds.to = to;
        finds.waits = Some(waits);
        Ok(())
    }

    /// Two parts, the second of which goes on with the first, if they meet.
    fn meet(&self, before: Waits, after: Waits) -> Result<(Waits, Waits), Stop> {
        let mut before = before;
        let mut after = after;
        if let Some(meeting) = self.meeting(&mut before, &mut after)? {
            before.part.end = meeting.end;
            before.part.stays_open = true;
            self.join(&mut before.source, &mut before.part)?;
            after.part.begun = Some(meeting.begun);
            after.number = before.number.saturating_add(meeting.number);
        }
        Ok((before, after))
    }

    /// Where two parts meet, if the second goes on with the first.
    fn meeting(&self, before: &mut Waits, after: &mut Waits) -> Result<Option<Meeting>, Fault> {
        let (Some(last), Some(begun)) = (before.last, after.first) else {
            return Ok(None);
        };
        if !goes_on_with(before.part.name, after.part.name) {
            return Ok(None);
        }
        let ends = before.part.end;
        let found = meeting_of(
            self.rt.alloc(),
            &mut before.source,
            last,
            ends,
            &mut after.source,
            begun,
            after.part.end,
        );
        match found {
            Ok(Some(found)) if is_within(found, before, after) => Ok(Some(found)),
            Err(CutFault::Memory) => Err(Fault::Memory),
            _ => Ok(None),
        }
    }
}

/// Whether the part before has pages up to the meeting, and no number that follows can be too high.
fn is_within(meeting: Meeting, before: &Waits, after: &Waits) -> bool {
    let pages = after.part.end.saturating_sub(meeting.begun) / FIXED_SIZE as u64;
    let number = before.number.saturating_add(meeting.number);
    before.part.start <= meeting.end && number.saturating_add(pages) <= u64::from(u32::MAX)
}
