//! Pages of a reader, lent one at a time.
ghost use Rattle.std.specs.Prelude.{◌≡◌, ◌≢◌, [], None, Some, Err, IfOk, IfSome, OnErr, true, false};
ghost use Rattle.std.specs.Io.KnownBytes.{Keeps};
ghost use Rattle.ogg_page.specs.Reading.{page_at};
ghost use Rattle.import_pages.specs.Reader.{HasAdvanced, HasReadCause, PassesOver, ReadsOnce, failed, started};
ghost use Rattle.ogg_page.specs.declared.fault.PageFault.{PageFault as Fault};

use crate::Memory;
use crate::failures::Failures;
use crate::fault::PageReaderFault;
use crate::filling::read_more;
use crate::finding::{find, next_place};
use crate::front::{known_page, wants_more};
use crate::held::{Held, Lent};
use ogg_page::{LONGEST_PAGE, Page, PageFault};
use std::alloc::Global;
use std::io::Read;
use std::marker::Model;

/// Pages of a stream of bytes, one after the other, in the memory of one page. What a contract sees of it is the
/// bytes that were read and are of no page lent so far, their offset in the input, the page that is lent, how often a
/// read has failed, and how the input has ended, if it has.
#[derive(Drop)]
pub struct PageReader {
    room: Vec<u8>,
    held: Held,
    offset: u64,
    lent: Option<Lent>,
    failures: Failures,
    outcome: Option<Result<(), PageReaderFault>>,
}

impl Model for PageReader {
    ghost use Rattle.import_pages.specs.Reader.{ReaderState};
    ghost use Rattle.import_pages.specs.Room.{IsHeld, IsLent, held_of, lent_of};

    ghost Value = { ReaderState };

    ghost view = { λ r. record {
      unread = held_of r.room.items r.held;
      offset = r.offset;
      lent = lent_of r.room.items r.lent;
      failures = r.failures;
      outcome = r.outcome;
    } };

    ghost invariant = { λ r. IsHeld r.room.items r.held × IsLent r.room.items r.lent };
}

impl PageReader {
    /// Makes the room for one page, of 65,307 bytes. No other call takes memory.
    pub fn new(alloc: Global) -> Result<PageReader, Memory>
        ensures { IfOk result (λ reader. reader ≡ started) }
    {
        PageReader::with_room(alloc, LONGEST_PAGE)
    }

    /// Makes a room of so many bytes, at least for one page. The more room there is the more pages one read can give.
    /// No other call takes memory.
    pub fn with_room(alloc: Global, size: usize) -> Result<PageReader, Memory>
        ensures { IfOk result (λ reader. reader ≡ started) }
    {
        let size = size.max(LONGEST_PAGE);
        let mut room = Vec::with_capacity(alloc, size)?;
        room.resize(size, 0)?;
        Ok(PageReader {
            room,
            held: Held { start: 0, end: 0 },
            offset: 0,
            lent: None,
            failures: Failures::none(),
            outcome: None,
        })
    }

    /// Passes on to the next page, which is lent from then on; none at the end of the input. It reads only while no
    /// whole page is held, and each time as many bytes as come at once. The end and a fault stay.
    pub fn advance<R: Read>(&mut self, reader: &mut R) -> Result<(), PageReaderFault>
        ensures gives { self.old.outcome ≡ None
            → HasAdvanced self.old (R.remaining reader.old) result self.new (R.remaining reader.new) }
        // A page that was read already, or a fault, needs no call of the reader.
        ensures prompt { page_at self.old.unread ≢ Err PageFault.Short → reader.new ≡ reader.old }
        // `Read` comes only if a read has failed.
        ensures cause { result ≡ Err PageReaderFault.Read → HasReadCause self.old self.new }
        ensures stays { IfSome self.old.outcome (λ outcome. (result ≡ outcome) × (self.new ≡ self.old) × (reader.new ≡ reader.old)) }
    {
        if let Some(outcome) = self.outcome {
            return outcome;
        }
        self.lent = None;
        match find(&mut self.failures, reader, &mut self.room, &mut self.held) {
            Ok(Some(size)) => {
                let start = self.held.start;
                self.lent = Some(Lent {
                    offset: self.offset,
                    start,
                    end: start + size,
                });
                self.held.start = start + size;
                self.offset = self.offset.saturating_add(size as u64);
                Ok(())
            }
            Ok(None) => {
                self.outcome = Some(Ok(()));
                Ok(())
            }
            Err(fault) => {
                self.outcome = Some(Err(fault));
                Err(fault)
            }
        }
    }

    /// Whether `advance` has to read before it can tell what comes next: a page, a fault or the end.
    pub fn waits(&self) -> bool
        ensures yes { result ≡ true → page_at self.now.unread ≡ Err PageFault.Short }
        ensures no { result ≡ false → page_at self.now.unread ≢ Err PageFault.Short }
    {
        wants_more(&self.room[self.held.start..self.held.end])
    }

    /// Reads once, as many bytes as come at once and fit, after those that are unread: as bytes that are pushed, if the
    /// reader is a slice of them. It returns how many came, 0 only at the end of the input. The page that was lent isn't
    /// lent any more. The end of the input isn't known by this call: only `advance` finds it. After `Read`, an error of
    /// any kind, no byte was taken, and the call may be made again.
    pub fn read_once<R: Read>(&mut self, reader: &mut R) -> Result<usize, PageReaderFault>
        requires waits { page_at self.old.unread ≡ Err PageFault.Short }
        ensures reads { IfOk result (λ count. ReadsOnce self.old (R.remaining reader.old) count self.new (R.remaining reader.new)) }
        ensures err { OnErr result ((result ≡ Err PageReaderFault.Read) × (self.new ≡ failed self.old)
            × Keeps (R.remaining reader.old) (R.remaining reader.new)) }
    {
        self.lent = None;
        read_more(&mut self.failures, reader, &mut self.room, &mut self.held)
    }

    /// After a fault that says that no page begins here: passes over the bytes up to the next place where one may
    /// begin, and goes on there. It returns how many bytes were passed over; 0 if there was no such fault.
    pub fn pass_over(&mut self) -> usize
        ensures passes { (fault : Fault) → self.old.outcome ≡ Some (Err (PageReaderFault.Page fault)) → self.old.unread ≢ []
            → PassesOver self.old result self.new }
        ensures stays { result ≡ 0 → self.new ≡ self.old }
        ensures none { self.old.unread ≡ [] → result ≡ 0 }
    {
        match self.outcome {
            Some(Err(PageReaderFault::Page(_))) if self.held.start < self.held.end => {}
            _ => return 0,
        }
        let count = next_place(&self.room[self.held.start..self.held.end]);
        self.held.start += count;
        self.offset = self.offset.saturating_add(count as u64);
        self.lent = None;
        self.outcome = None;
        count
    }

    /// The page that is lent, and its offset in the input.
    pub fn lent(&self) -> Option<(u64, Page<'_>)>
        ensures { result ≡ self.now.lent }
    {
        match self.lent {
            Some(lent) => Some((lent.offset, known_page(&self.room[lent.start..lent.end]))),
            None => None,
        }
    }

    /// The offset in the input of the first byte that is of no page lent so far. A fault stands there. Beyond the
    /// largest `u64` it stays there.
    pub fn offset(&self) -> u64
        ensures { result ≡ self.now.offset }
    {
        self.offset
    }
}
