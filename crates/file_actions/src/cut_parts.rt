//! The parts of a cut, written one after the other.

use crate::cut_lines::{Told, put_cut};
use crate::cutting::{Asked, Finding, Finds};
use crate::serials::{NoPlace, Serials};
use crate::telling::or_memory;
use archive_cut::{Cut, Paged, Said, StreamEnds, Stretch, Way, mark_last, page_room};
use archive_names::Name;
use archive_reading::{Ahead, Prefix, ReadingFault, committed};
use archive_times::{Join, Line};
use disk_model::FileDisk;
use fault_lines::Fault;
use ogg_page::{PageBuffer, PageSource, write_whole};
use std::io::Write;

/// How many bytes are read at once of a cut that is joined.
const AHEAD: usize = 65536;

/// What is cut out of a file: the bytes between two places.
#[derive(Drop)]
pub(crate) struct Part {
    pub(crate) name: Name,
    // from where on the end of the file's pages is sought
    pub(crate) line: Option<Line>,
    pub(crate) start: u64,
    pub(crate) join: Option<Join>,
    pub(crate) end: u64,
    // where the pages begin that go on with the part before, if it goes on
    pub(crate) begun: Option<u64>,
    // the next part goes on with what is open at the end
    pub(crate) stays_open: bool,
    // the cut, if a link is joined
    pub(crate) cut: Option<Cut>,
    // the pages that end what is open, if none is joined, once the part's pages are counted
    pub(crate) ends: Vec<u8>,
}

/// The pages of the cut, or of a stretch of a file and then these pages.
fn paged(cut: Option<Cut>, start: u64, end: u64, ends: Vec<u8>, room: Vec<u8>) -> Paged {
    match cut {
        Some(cut) => Paged::of_cut(cut, room),
        None => Paged::of_stretch(Stretch::new(start.min(end), end, ends), room),
    }
}

/// The pages of a part, as they are in the cut.
#[derive(Drop)]
struct PartPages {
    paged: Paged,
    source: Ahead<Prefix<FileDisk>>,
}

impl PartPages {
    /// What is said of the next page, which is changed into that of the cut, and its size, unless the end is reached. What
    /// was passed is written before more is read.
    fn next<W: Write>(
        &mut self,
        serials: &mut Serials,
        out: &mut W,
    ) -> Result<Option<(Said, usize)>, Fault> {
        match self.paged.next() {
            Some(found) => self.place(found, serials),
            None => {
                write_bytes(self.paged.passed(), out)?;
                match self.paged.fill(&mut self.source) {
                    Ok(true) => {}
                    Ok(false) => return Ok(None),
                    Err(_) => return Err(Fault::File),
                }
                match self.paged.next() {
                    Some(found) => self.place(found, serials),
                    None => Err(Fault::File),
                }
            }
        }
    }

    /// Changes the next page into that of the cut.
    fn place(
        &mut self,
        found: (Said, usize),
        serials: &mut Serials,
    ) -> Result<Option<(Said, usize)>, Fault> {
        let (said, size) = found;
        let placed = or_fault(serials.place(said, self.paged.page_mut(size)))?;
        Ok(Some((placed, size)))
    }

    /// The room of its pages, for those of another part.
    fn into_room(self) -> Vec<u8> {
        let PartPages { paged, .. } = self;
        paged.into_room()
    }

    /// Writes what was passed, and leaves out the next page, of this size.
    fn leave_out<W: Write>(&mut self, size: usize, out: &mut W) -> Result<(), Fault> {
        write_bytes(self.paged.passed(), out)?;
        self.paged.pass(size);
        self.paged.let_go();
        Ok(())
    }
}

/// A page that has no place in the cut is a fault.
pub(crate) fn or_fault(placed: Result<Said, NoPlace>) -> Result<Said, Fault> {
    match placed {
        Ok(said) => Ok(said),
        Err(NoPlace::Memory) => Err(Fault::Memory),
        Err(NoPlace::Page) => Err(Fault::File),
    }
}

/// A cut that is written, page after page.
#[derive(Drop)]
pub struct Cutting<'a> {
    asked: Asked<'a>,
    // those that aren't written yet, the next one last
    parts: Vec<Part>,
    // the part that is written
    pages: Option<PartPages>,
    raw: bool,
    from: u64,
    to: u64,
    files: u64,
    gaps: Vec<u8>,
    ends: StreamEnds,
    // what has become of the links before
    passed: StreamEnds,
    serials: Serials,
    marked: PageBuffer,
    room: Vec<u8>,
}

impl<'a> Cutting<'a> {
    /// The cut of what was found, once all files were looked at. With `raw` streams end where they ended. None if nothing was
    /// found.
    pub fn of(finding: Finding<'a>, raw: bool) -> Result<Option<Cutting<'a>>, Fault> {
        let Finding { asked, finds, .. } = finding;
        let Finds {
            mut parts,
            from,
            to,
            gaps,
            ends,
            ..
        } = finds;
        if parts.is_empty() {
            return Ok(None);
        }
        let files = parts.len() as u64;
        parts.reverse();
        let alloc = asked.rt.alloc();
        Ok(Some(Cutting {
            asked,
            parts,
            pages: None,
            raw,
            from,
            to,
            files,
            gaps,
            ends,
            passed: StreamEnds::new(alloc),
            serials: Serials::new(alloc),
            marked: or_memory(PageBuffer::new(alloc))?,
            room: or_memory(page_room(alloc))?,
        }))
    }

    /// How many bytes it has.
    pub fn bytes(&self) -> u64 {
        self.ends.bytes(self.raw)
    }

    /// The time of its first commands and that of its last, in milliseconds since 1970.
    pub fn times(&self) -> (u64, u64) {
        (self.from, self.to)
    }

    /// Tells what is in the cut, and each gap.
    pub(crate) fn tell(&self) -> Result<(), Fault> {
        let told = Told {
            from: self.from,
            to: self.to,
            files: self.files,
            links: self.ends.links(),
            bytes: self.bytes(),
        };
        let rt = self.asked.rt;
        let mut lines = Vec::new(rt.alloc());
        or_memory(put_cut(told, &mut lines))?;
        let _ = write_whole(&mut rt.stderr(), lines.as_slice());
        let _ = write_whole(&mut rt.stderr(), self.gaps.as_slice());
        Ok(())
    }

    /// Writes all of it.
    pub(crate) fn write<W: Write>(&mut self, out: &mut W) -> Result<(), Fault> {
        for _ in 0..u64::MAX {
            if !self.step(out)? {
                return Ok(());
            }
        }
        Err(Fault::File)
    }

    /// Passes the next page, and writes what was passed before if more is read for it. It is false once all is written.
    ///
    /// It is `File` if a file can't be read again, `Write` if no more can be written, and `Memory` if memory is refused: a
    /// part is written then.
    pub fn step<W: Write>(&mut self, out: &mut W) -> Result<bool, Fault> {
        let Some(mut pages) = self.pages.take() else {
            return self.open_next();
        };
        match pages.next(&mut self.serials, out)? {
            Some((said, size)) => {
                self.pass(&mut pages, said, size, out)?;
                self.pages = Some(pages);
            }
            None => self.room = pages.into_room(),
        }
        Ok(true)
    }

    /// Goes on to the next part. It is false if there is none.
    fn open_next(&mut self) -> Result<bool, Fault> {
        let Some(part) = self.parts.pop() else {
            return Ok(false);
        };
        let room = std::mem::replace(&mut self.room, Vec::new(self.asked.rt.alloc()));
        let pages = self.asked.pages(part, room, &mut self.serials)?;
        self.pages = Some(pages);
        Ok(true)
    }

    /// Passes a page: it stays, is left out, or is marked as its stream's last.
    fn pass<W: Write>(
        &mut self,
        pages: &mut PartPages,
        said: Said,
        size: usize,
        out: &mut W,
    ) -> Result<(), Fault> {
        if self.raw {
            pages.paged.pass(size);
            return Ok(());
        }
        or_memory(self.passed.note(&said, size as u64))?;
        match self.ends.way(self.passed.links(), &said) {
            Way::Stays => pages.paged.pass(size),
            Way::Goes => pages.leave_out(size, out)?,
            Way::Marked => {
                let Ok(()) = mark_last(pages.paged.page(size), &mut self.marked) else {
                    return Err(Fault::File);
                };
                pages.leave_out(size, out)?;
                write_bytes(self.marked.bytes(), out)?;
            }
        }
        Ok(())
    }
}

impl<'a> Asked<'a> {
    /// The pages of a part, as they are in the cut after those of the parts before.
    fn pages(&self, part: Part, room: Vec<u8>, serials: &mut Serials) -> Result<PartPages, Fault> {
        let mut source = self.open_again(&part)?;
        let mut streams = Vec::new(self.rt.alloc());
        let start = self.begun_in(&mut source, &part, &mut streams)?;
        if part.begun.is_some() {
            or_memory(serials.go_on(streams.as_slice()))?;
        }
        let mut ahead = Vec::new(self.rt.alloc());
        // A stretch reads large pieces by itself.
        if part.cut.is_some() {
            or_memory(ahead.resize(AHEAD, 0))?;
        }
        let Part { end, cut, ends, .. } = part;
        Ok(PartPages {
            paged: paged(cut, start, end, ends, room),
            source: Ahead::new(source, ahead),
        })
    }

    /// Opens the file of a part again.
    fn open_again(&self, part: &Part) -> Result<Prefix<FileDisk>, Fault> {
        match committed(self.rt, self.folder, part.name, part.line) {
            Ok(source) => if part.end <= source.end() {
                Ok(source)
            } else {
                Err(Fault::File)
            },
            Err(ReadingFault::Memory) => Err(Fault::Memory),
            Err(_) => Err(Fault::File),
        }
    }
}

fn write_bytes<W: Write>(bytes: &[u8], out: &mut W) -> Result<(), Fault> {
    match write_whole(out, bytes) {
        Ok(()) => Ok(()),
        Err(_) => Err(Fault::Write),
    }
}
