//! Any bytes into the commands of a sound chain, one page after the other.
ghost use Rattle.std.specs.Prelude.{◌≡◌, ◌≢◌, ◌++◌, ℕ, List, IfOk, OnOk, OnErr, Ok, Err, Some, true, false, None, vec_capacity};
ghost use Rattle.std.specs.Io.KnownBytes.{Keeps};
ghost use Rattle.ogg_page.specs.Reading.{page_at};
ghost use Rattle.link_chain.specs.ChainState.{is_open};
ghost use Rattle.import_mend.specs.Found.{FindsNext, Searches, junk_before, offset_found};
ghost use Rattle.import_mend.specs.Gives.{GivesEnd, mend_at_end};
ghost use Rattle.import_mend.specs.Importing.{IsStep, mending_of};
ghost use Rattle.import_mend.specs.Room.{HasRoom, LacksMemory};
ghost use Rattle.import_mend.specs.Whole.{IsStart};
ghost use Rattle.import_pages.specs.Reader.{GoesOn, HasAdvanced, HasReadCause, ReadsOnce, failed, started};
ghost use Rattle.ogg_command.specs.declared.command.Command.{Command as CommandOf};

use crate::Memory;
use crate::fault::ImportFault;
use crate::mend::Mend;
use crate::mender::Mender;
use import_gather::Gatherer;
use import_pages::{PageReader, PageReaderFault};
use ogg_command::Command;
use ogg_page::PageFault;
use std::alloc::Global;
use std::io::Read;
use std::mem;

/// What was done with a page, or at the end of the input.
#[derive(Clone, Copy, Debug, PartialEq, Eq)]
pub struct Step {
    /// Whether there was a page. If not, the input has ended.
    pub is_page: bool,
    /// The offset in the input at which the page begins, or that of the end.
    pub offset: u64,
    /// The bytes before it that are of no page, if there are any.
    pub junk: Option<Mend>,
    /// What was mended of the page.
    pub mend: Option<Mend>,
}

/// Bytes of any input, as they become commands: the memory of what is read at once, and what the commands of the next
/// pages depend on.
#[derive(Drop)]
pub struct Import {
    pages: PageReader,
    mender: Mender,
    gatherer: Gatherer,
    // how many bytes before the next page are of no page
    junk: u64,
}

impl Import {
    /// Makes the memory of one page.
    pub fn new(alloc: Global) -> Result<Import, Memory>
        ensures start { IfOk result (λ import. IsStart (mending_of import)) }
        ensures pages { IfOk result (λ import. import.pages ≡ started) }
        ensures junk { IfOk result (λ import. import.junk ≡ 0) }
    {
        Import::with_room(alloc, 0)
    }

    /// Makes the room for what is read at once, of so many bytes and at least one page.
    pub fn with_room(alloc: Global, room: usize) -> Result<Import, Memory>
        ensures start { IfOk result (λ import. IsStart (mending_of import)) }
        ensures pages { IfOk result (λ import. import.pages ≡ started) }
        ensures junk { IfOk result (λ import. import.junk ≡ 0) }
    {
        let pages = PageReader::with_room(alloc, room)?;
        Ok(Import {
            pages,
            mender: Mender::new(alloc),
            gatherer: Gatherer::new(alloc),
            junk: 0,
        })
    }

    /// The offset in the input of the first byte that is of no page taken so far.
    pub fn offset(&self) -> u64
        ensures { result ≡ self.now.pages.offset }
    {
        self.pages.offset()
    }

    /// Whether more of the input has to come before it is known what `search` finds. Otherwise it doesn't call its
    /// reader.
    pub fn waits(&self) -> bool
        ensures yes { result ≡ true → page_at self.now.pages.unread ≡ Err PageFault.Short }
        ensures no { result ≡ false → page_at self.now.pages.unread ≢ Err PageFault.Short }
    {
        self.pages.waits()
    }

    /// Reads once, as many bytes of the input as come at once and fit: as bytes that are pushed, if the reader is a
    /// slice of them. It returns how many came. After `Read` no byte was taken, and the call may be made again.
    pub fn read_once<R: Read>(&mut self, reader: &mut R) -> Result<usize, ImportFault>
        requires waits { page_at self.old.pages.unread ≡ Err PageFault.Short }
        ensures reads { IfOk result (λ count. ReadsOnce self.old.pages (R.remaining reader.old) count self.new.pages (R.remaining reader.new)) }
        ensures same { (mending_of self.new ≡ mending_of self.old) × (self.new.junk ≡ self.old.junk) }
        ensures err { OnErr result ((result ≡ Err ImportFault.Read) × (self.new.pages ≡ failed self.old.pages)
            × Keeps (R.remaining reader.old) (R.remaining reader.new)) }
    {
        match self.pages.read_once(reader) {
            Ok(count) => Ok(count),
            Err(_) => Err(ImportFault::Read),
        }
    }

    /// Looks for the next page once, and reads as far as that needs. True if a page or the end was found, which is for
    /// `take`; false if no page begins at the front of the input, and bytes were passed over. After `Read` call
    /// `finish`.
    pub fn search<R: Read>(&mut self, reader: &mut R) -> Result<bool, ImportFault>
        ensures finds { self.old.pages.outcome ≡ None → IfOk result (λ found. Searches found self.old.pages (R.remaining reader.old)
            self.old.junk self.new.pages (R.remaining reader.new) self.new.junk) }
        ensures needed { page_at self.old.pages.unread ≢ Err PageFault.Short → reader.new ≡ reader.old }
        ensures goes_on { result ≡ Ok false → GoesOn self.old.pages.outcome }
        ensures ended { result ≡ Ok true → self.new.pages.lent ≡ None → self.new.pages.outcome ≡ Some (Ok tt) }
        ensures untold { result ≡ Ok true → self.new.junk ≡ self.old.junk }
        ensures same { self.new ≡ record self.old { pages = self.new.pages; junk = self.new.junk } }
        ensures err { OnErr result ((result ≡ Err ImportFault.Read) × (self.new.junk ≡ self.old.junk)
            × HasReadCause self.old.pages self.new.pages
            × (self.old.pages.outcome ≡ None → HasAdvanced self.old.pages (R.remaining reader.old) (Err PageReaderFault.Read)
            self.new.pages (R.remaining reader.new))) }
    {
        search(&mut self.pages, reader, &mut self.junk)
    }

    /// Takes what `search` has found: a page, and appends the commands that it completes; or the end. The bytes before
    /// it that are of no page count as told. After `Memory` some of the commands may have been appended; take no
    /// further step.
    pub fn take(&mut self, commands: &mut Vec<Command>) -> Result<Step, Memory>
        ensures steps { IfOk result (λ step. (more : List CommandOf) × (commands.new.items ≡ commands.old.items ++ more)
            × IsStep self.old self.new step more) }
        ensures offset { IfOk result (λ step. step.offset ≡ offset_found self.old.pages.lent self.old.pages.offset) }
        ensures junk { IfOk result (λ step. step.junk ≡ junk_before step.offset self.old.junk) }
        ensures told { self.new.junk ≡ 0 }
        ensures same { self.new.pages ≡ self.old.pages }
        ensures cause { OnErr result (LacksMemory self.new.gatherer (vec_capacity self.old.mender.room)) }
        ensures noted { OnOk result (self.new.gatherer.refused ≡ self.old.gatherer.refused) }
    {
        let junk = mem::take(&mut self.junk);
        match self.pages.lent() {
            Some((offset, page)) => {
                // For the proof alone.
                let _bytes = page.whole();
                let mend = self
                    .mender
                    .take_page(&mut self.gatherer, offset, &page, commands)?;
                Ok(Step {
                    is_page: true,
                    offset,
                    junk: junk_before(offset, junk),
                    mend,
                })
            }
            None => {
                let offset = self.pages.offset();
                Ok(Step {
                    is_page: false,
                    offset,
                    junk: junk_before(offset, junk),
                    mend: None,
                })
            }
        }
    }

    /// Reads up to the next page, as far as that needs, and appends the commands that it completes. After `Read` call
    /// `finish`. After `Memory` some of the commands may have been appended; take no further step.
    pub fn next<R: Read>(
        &mut self,
        reader: &mut R,
        commands: &mut Vec<Command>,
    ) -> Result<Step, ImportFault>
        ensures steps { IfOk result (λ step. (more : List CommandOf) × (commands.new.items ≡ commands.old.items ++ more)
            × IsStep self.old self.new step more) }
        ensures finds { IfOk result (λ step. self.old.pages.outcome ≡ None → (junk : ℕ)
            × FindsNext self.old.pages (R.remaining reader.old) (Ok tt) self.new.pages (R.remaining reader.new) self.old.junk junk
            × (step.junk ≡ junk_before (offset_found self.new.pages.lent self.new.pages.offset) junk) × (self.new.junk ≡ 0)) }
        ensures reads { OnErr result (result ≡ Err ImportFault.Read → (commands.new.items ≡ commands.old.items)
            × (mending_of self.new ≡ mending_of self.old)
            × (self.old.pages.outcome ≡ None → FindsNext self.old.pages (R.remaining reader.old) (Err PageReaderFault.Read) self.new.pages
            (R.remaining reader.new) self.old.junk self.new.junk)) }
        // `Read` comes only if a read has failed.
        ensures cause { result ≡ Err ImportFault.Read → HasReadCause self.old.pages self.new.pages }
        ensures memory { result ≡ Err ImportFault.Memory → LacksMemory self.new.gatherer (vec_capacity self.old.mender.room) }
        ensures noted { OnOk result (self.new.gatherer.refused ≡ self.old.gatherer.refused) }
    {
        find_page(&mut self.pages, reader, &mut self.junk)?;
        Ok(self.take(commands)?)
    }

    /// Ends the open streams, and appends the commands that still wait: at the end of the input, or after `Read`. It
    /// returns what was mended. Take no further step. After `Memory` some of the commands may have been appended.
    pub fn finish(&mut self, commands: &mut Vec<Command>) -> Result<Option<Mend>, Memory>
        ensures gives { IfOk result (λ mend. (more : List CommandOf) × (commands.new.items ≡ commands.old.items ++ more)
            × GivesEnd self.old.gatherer self.new.gatherer more) }
        ensures told { IfOk result (λ mend. mend ≡ mend_at_end self.old.pages.offset self.old.gatherer.chain) }
        ensures ended { HasRoom self.old.gatherer.chain → IfOk result (λ mend. is_open self.new.gatherer.chain ≡ false) }
        ensures cause { OnErr result (LacksMemory self.new.gatherer (vec_capacity self.old.mender.room)) }
        ensures noted { OnOk result (self.new.gatherer.refused ≡ self.old.gatherer.refused) }
    {
        let offset = self.pages.offset();
        self.mender.end(&mut self.gatherer, offset, commands)
    }
}

/// Looks for the next page once. Bytes that are passed over are counted.
fn search<R: Read>(
    pages: &mut PageReader,
    reader: &mut R,
    junk: &mut u64,
) -> Result<bool, ImportFault>
    ensures finds { pages.old.outcome ≡ None → IfOk result (λ found. Searches found pages.old (R.remaining reader.old) junk.old
        pages.new (R.remaining reader.new) junk.new) }
    ensures needed { page_at pages.old.unread ≢ Err PageFault.Short → reader.new ≡ reader.old }
    ensures goes_on { result ≡ Ok false → GoesOn pages.old.outcome × GoesOn pages.new.outcome }
    ensures ended { result ≡ Ok true → pages.new.lent ≡ None → pages.new.outcome ≡ Some (Ok tt) }
    ensures untold { result ≡ Ok true → junk.new ≡ junk.old }
    ensures counted { OnOk result (pages.new.failures ≡ pages.old.failures) }
    ensures err { OnErr result ((result ≡ Err ImportFault.Read) × (junk.new ≡ junk.old) × HasReadCause pages.old pages.new
        × (pages.old.outcome ≡ None → HasAdvanced pages.old (R.remaining reader.old) (Err PageReaderFault.Read) pages.new (R.remaining reader.new))) }
{
    match pages.advance(reader) {
        Ok(()) => Ok(true),
        Err(PageReaderFault::Read) => Err(ImportFault::Read),
        Err(PageReaderFault::Page(_)) => {
            *junk = junk.saturating_add(pages.pass_over() as u64);
            Ok(false)
        }
    }
}

/// Reads up to the next page, or to the end of the input. The bytes that are passed over are counted.
fn find_page<R: Read>(
    pages: &mut PageReader,
    reader: &mut R,
    junk: &mut u64,
) -> Result<(), ImportFault>
    ensures ok { OnOk result (pages.old.outcome ≡ None
        → FindsNext pages.old (R.remaining reader.old) (Ok tt) pages.new (R.remaining reader.new) junk.old junk.new) }
    ensures err { OnErr result ((result ≡ Err ImportFault.Read) × HasReadCause pages.old pages.new × (pages.old.outcome ≡ None
        → FindsNext pages.old (R.remaining reader.old) (Err PageReaderFault.Read) pages.new (R.remaining reader.new) junk.old junk.new)) }
{
    for _ in 0..u64::MAX {
        match search(pages, reader, junk) {
            Ok(true) => return Ok(()),
            Ok(false) => {}
            Err(fault) => return Err(fault),
        }
    }
    Ok(())
}

/// So many bytes of no page, which end at this offset; nothing is told of none.
fn junk_before(end: u64, bytes: u64) -> Option<Mend>
    ensures { result ≡ junk_before end bytes }
{
    if bytes == 0 {
        return None;
    }
    Some(Mend::Junk {
        offset: end.saturating_sub(bytes),
        bytes,
    })
}
