//! The pages of a cut, counted by their heads before any is written.
ghost use Rattle.std.specs.Prelude.{◌≡◌, ◌-◌, if◌then◌else◌};

use crate::cut_parts::{Part, or_fault};
use crate::cutting::{Asked, Finds, Stop, Waits, push};
use crate::telling::or_memory;
use archive_cut::{
    Cut, CutFault, LONGEST_HEAD, PageFront, Paged, Said, page_room, read_front, said_of, take_page,
    take_pages,
};
use archive_reading::Prefix;
use archive_times::Join;
use disk_model::FileDisk;
use fault_lines::Fault;
use link_chain::StreamState;
use ogg_page::FIXED_SIZE;
use std::alloc::Global;

impl<'a> Asked<'a> {
    /// Counts the pages of the part that waits.
    pub(crate) fn count_waiting(&self, finds: &mut Finds) -> Result<(), Stop> {
        let Some(waits) = finds.waits.take() else {
            return Ok(());
        };
        let Waits {
            mut part,
            mut source,
            ..
        } = waits;
        let counted = match (part.join, part.cut.as_ref()) {
            (Some(join), Some(cut)) => self.count_joined(&mut source, &part, join, cut, finds),
            _ => match self.count_plain(&mut source, &part, finds) {
                Ok(ends) => {
                    part.ends = ends;
                    Ok(())
                }
                Err(fault) => Err(fault),
            },
        };
        match counted {
            Ok(()) => Ok(push(&mut finds.parts, part)?),
            Err(Fault::Memory) => Err(Stop::Failed(Fault::Memory)),
            Err(_) => Err(Stop::Damaged),
        }
    }

    /// Counts the pages of a part in which no link is joined, by their heads, and then those that end what is open, which
    /// are returned.
    fn count_plain(
        &self,
        source: &mut Prefix<FileDisk>,
        part: &Part,
        finds: &mut Finds,
    ) -> Result<Vec<u8>, Fault> {
        let mut streams = Vec::new(self.rt.alloc());
        let start = self.begun_in(source, part, &mut streams)?;
        if part.begun.is_some() {
            or_memory(finds.serials.go_on(streams.as_slice()))?;
        }
        count_heads(source, start, part.end, None, &mut streams, finds)?;
        let mut ends = Vec::new(self.rt.alloc());
        if !part.stays_open {
            let cut = match Cut::waits(self.rt.alloc(), part.start, part.end, streams.as_slice()) {
                Ok(cut) => cut,
                Err(CutFault::Memory) => return Err(Fault::Memory),
                Err(_) => return Err(Fault::File),
            };
            count_ends(cut.ends(), finds)?;
            or_memory(ends.extend_from_slice(cut.ends()))?;
        }
        Ok(ends)
    }

    /// Counts the pages of a part in which a link is joined: those that are heard before the place where it is joined, and
    /// then those of the file, by their heads.
    fn count_joined(
        &self,
        source: &mut Prefix<FileDisk>,
        part: &Part,
        join: Join,
        cut: &Cut,
        finds: &mut Finds,
    ) -> Result<(), Fault> {
        let begin = match Cut::between(
            self.rt.alloc(),
            source,
            part.start,
            Some(join),
            part.start,
        ) {
            Ok(cut) => cut.left_open(),
            Err(CutFault::Memory) => return Err(Fault::Memory),
            Err(_) => return Err(Fault::File),
        };
        let room = or_memory(page_room(self.rt.alloc()))?;
        count_pages(Paged::of_cut(begin, room), source, finds)?;
        let mut streams = Vec::new(self.rt.alloc());
        count_heads(source, part.start, part.end, Some(cut), &mut streams, finds)?;
        count_ends(cut.ends(), finds)
    }

    /// Where the pages of a part begin that stand in the cut. Of one that goes on with the part before the streams are those
    /// that its Begin left.
    pub(crate) fn begun_in(
        &self,
        source: &mut Prefix<FileDisk>,
        part: &Part,
        streams: &mut Vec<StreamState>,
    ) -> Result<u64, Fault> {
        let Some(begun) = part.begun else {
            return Ok(part.start);
        };
        match take_pages(source, 0, begun, streams) {
            Ok(()) => Ok(begun),
            Err(CutFault::Memory) => Err(Fault::Memory),
            Err(_) => Err(Fault::File),
        }
    }
}

/// Counts a page, by what its head says and the bytes that it begins with.
fn count_page(said: Said, front: &[u8], size: u64, finds: &mut Finds) -> Result<(), Fault> {
    let placed = or_fault(finds.serials.name(said, front))?;
    or_memory(finds.ends.note(&placed, size))
}

/// What is said of a page under the number without the numbers that aren't heard. A stream's first page has its own.
fn without_gap(said: Said, gap: u64) -> Said
    ensures { result ≡ (if said.begins then said else record said { number = said.number - gap }) }
{
    if said.begins {
        return said;
    }
    Said {
        number: u64::from(said.number).saturating_sub(gap) as u32,
        ..said
    }
}

/// Counts a page of a file by its head, and notes what it leaves of the streams of the last link. It is true if a stream
/// begins.
fn count_front(
    front: &PageFront,
    joined: Option<&Cut>,
    streams: &mut Vec<StreamState>,
    finds: &mut Finds,
) -> Result<bool, Fault> {
    let (head, _) = front.bytes.split_at(front.facts.len.min(LONGEST_HEAD));
    let Some(said) = said_of(head) else {
        return Err(Fault::File);
    };
    let heard = match joined {
        Some(cut) => without_gap(said, cut.gap(said.serial)),
        None => said,
    };
    if take_page(&said, streams).is_err() {
        return Err(Fault::Memory);
    }
    let (begin, _) = front
        .bytes
        .split_at(front.facts.size.min(LONGEST_HEAD as u64) as usize);
    count_page(heard, begin, front.facts.size, finds)?;
    Ok(said.begins)
}

/// Counts the pages of a file between two places, by their heads. `streams` are those of the last link. Pages of a link
/// that is joined are counted under the numbers that are heard.
fn count_heads(
    source: &mut Prefix<FileDisk>,
    start: u64,
    end: u64,
    joined: Option<&Cut>,
    streams: &mut Vec<StreamState>,
    finds: &mut Finds,
) -> Result<(), Fault> {
    let mut place = start;
    let mut has_begun = false;
    while place < end {
        match read_front(source, place) {
            Ok(front) => {
                let size = front.facts.size;
                let heard = if has_begun { None } else { joined };
                let begins = count_front(&front, heard, streams, finds)?;
                has_begun = has_begun || begins;
                place += size;
            }
            Err(_) => return Err(Fault::File),
        }
    }
    if place == end {
        Ok(())
    } else {
        Err(Fault::File)
    }
}

/// Whether pages stand from one place up to another, by their heads.
pub(crate) fn is_walked(source: &mut Prefix<FileDisk>, start: u64, end: u64) -> bool {
    let mut place = start;
    while place < end {
        match read_front(source, place) {
            Ok(front) => place += front.facts.size,
            Err(_) => return false,
        }
    }
    place == end
}

/// Counts the pages that end what is open where a cut ends.
fn count_ends(text: &[u8], finds: &mut Finds) -> Result<(), Fault> {
    for page in text.chunks(FIXED_SIZE) {
        let Some(said) = said_of(page) else {
            return Err(Fault::File);
        };
        count_page(said, page, FIXED_SIZE as u64, finds)?;
    }
    Ok(())
}

/// Counts all pages of a cut.
fn count_pages(
    pages: Paged,
    source: &mut Prefix<FileDisk>,
    finds: &mut Finds,
) -> Result<(), Fault> {
    let mut pages = pages;
    for _ in 0..u64::MAX {
        match pages.next() {
            Some((said, size)) => {
                count_page(said, pages.page(size), size as u64, finds)?;
                pages.pass(size);
            }
            None => match pages.fill(source) {
                Ok(true) => {}
                Ok(false) => return Ok(()),
                Err(_) => return Err(Fault::File),
            },
        }
    }
    Err(Fault::File)
}
