//! An input that is read and recorded, one step after the other.
ghost use Rattle.std.specs.Prelude.{◌≡◌, ◌≢◌, ◌⊎◌, [], None, Err, IfOk, IfErr, OnErr, true, false, vec_capacity};
ghost use Rattle.std.specs.Io.KnownBytes.{Keeps};
ghost use Rattle.ogg_page.specs.Reading.{page_at};
ghost use Rattle.import_changes.specs.Changed.{HasChangedBeside};
ghost use Rattle.import_mend.specs.Whole.{IsStart};
ghost use Rattle.import_record.specs.Begun.{none_begun};
ghost use Rattle.import_record.specs.Resuming.{Resumes};
ghost use Rattle.import_record.specs.Steps.{Ends, StopsBy, state_of};
ghost use Rattle.import_record.specs.Reading.{HasTaken, IsDue, LacksMemoryAtEnd, LacksMemoryFor, Steps, TakesJunk, TellsJunk};
ghost use Rattle.import_pages.specs.Reader.{HasReadCause, ReadsOnce, failed, started};

use crate::Memory;
use crate::begun::Begun;
use crate::fault::RecordFault;
use crate::intake::{Taken, run};
use feed_replies::Reply;
use feed_runner::Runner;
use import_changes::{ChangeOptions, Changes, NO_UTC};
use import_mend::{Import, Mend};
use ogg_page::PageFault;
use std::alloc::Global;
use std::io::{Read, Write};

/// What one step has done.
#[derive(Clone, Copy, Debug, PartialEq, Eq)]
pub enum Step {
    /// What waited was kept, since more of the input is to be waited for. This is the reply.
    Flushed(Reply),
    /// No page begins here: bytes were passed over.
    PassedOver,
    /// A page that begins at this offset was taken. The bytes before it that are of no page are told first.
    Page {
        offset: u64,
        junk: Option<Mend>,
        taken: Taken,
    },
    /// The input has ended. The last bytes that are of no page are told.
    Ended {
        junk: Option<Mend>,
    },
}

/// An input that is recorded as it is read: its pages as they become commands, and what the commands of the next pages
/// depend on.
#[derive(Drop)]
pub struct ImportRun {
    pub(crate) input: Import,
    pub(crate) alloc: Global,
    pub(crate) options: ChangeOptions,
    // what a Skeleton says that is made now
    pub(crate) utc: [u8; 20],
    pub(crate) changes: Changes,
    pub(crate) begun: Begun,
}

impl ImportRun {
    /// Makes the room for what is read at once, of so many bytes and at least one page. The streams are begun as the
    /// options ask, and if they are renumbered, none gets one of these serials.
    pub fn new(
        alloc: Global,
        room: usize,
        options: ChangeOptions,
        serials: &[u32],
    ) -> Result<ImportRun, Memory>
        ensures pages { IfOk result (λ run. run.input.pages ≡ started) }
        ensures junk { IfOk result (λ run. run.input.junk ≡ 0) }
        ensures start { IfOk result (λ run. IsStart (state_of run).mending) }
        ensures changes { IfOk result (λ run. HasChangedBeside serials.now run.changes [] []) }
        ensures options { IfOk result (λ run. (run.options ≡ options) × (run.changes.options ≡ options)) }
        ensures begun { IfOk result (λ run. (state_of run).begun ≡ none_begun) }
    {
        let input = Import::with_room(alloc, room)?;
        let mut changes = Changes::new(alloc, options);
        changes.avoid(serials)?;
        Ok(ImportRun {
            input,
            alloc,
            options,
            utc: NO_UTC,
            changes,
            begun: Begun::new(alloc),
        })
    }

    /// Tells the time of day, as Skeleton 3.0 writes it in its fishead (`20261128T140500.310Z`). It stands in each
    /// Skeleton that is made from now on, unless one that is left out says another. Before the first call none is known.
    pub fn tell_time(&mut self, utc: [u8; 20])
        ensures told { self.new ≡ record self.old { utc = utc } }
    {
        self.utc = utc;
    }

    /// The offset in the input of the first byte that is of no page taken so far.
    pub fn offset(&self) -> u64
        ensures { result ≡ self.now.input.pages.offset }
    {
        self.input.offset()
    }

    /// Whether more of the input has to come before it is known what the next step takes: a page, bytes that are of no
    /// page, or the end. Otherwise the next step doesn't call its reader.
    pub fn waits(&self) -> bool
        ensures yes { result ≡ true → page_at self.now.input.pages.unread ≡ Err PageFault.Short }
        ensures no { result ≡ false → page_at self.now.input.pages.unread ≢ Err PageFault.Short }
    {
        self.input.waits()
    }

    /// Reads once, as many bytes of the input as come at once and fit: as bytes that are pushed, if the reader is a
    /// slice of them. It returns how many came. Between such calls take steps with `std::io::empty()` until the run
    /// waits again; at the end of the input go on with them until `Ended`. After `Read` no byte was taken, and the call
    /// may be made again.
    pub fn read_once<R: Read>(&mut self, reader: &mut R) -> Result<usize, RecordFault>
        requires waits { page_at self.old.input.pages.unread ≡ Err PageFault.Short }
        ensures reads { IfOk result (λ count. ReadsOnce self.old.input.pages (R.remaining reader.old) count self.new.input.pages (R.remaining reader.new)) }
        ensures same { (state_of self.new ≡ state_of self.old) × (self.new.input.junk ≡ self.old.input.junk) }
        ensures err { OnErr result ((result ≡ Err RecordFault.Read) × (self.new.input.pages ≡ failed self.old.input.pages)
            × Keeps (R.remaining reader.old) (R.remaining reader.new)) }
    {
        match self.input.read_once(reader) {
            Ok(count) => Ok(count),
            Err(_) => Err(RecordFault::Read),
        }
    }

    /// Takes one step: a page, bytes that are of no page, or the end. If more of the input has to be read for that
    /// while commands wait, they are kept instead. After `Read` call `finish`; after another fault take no step.
    pub fn step<T: Runner, R: Read, P: Write>(
        &mut self,
        runner: &mut T,
        reader: &mut R,
        pages: &mut P,
    ) -> Result<Step, RecordFault>
        requires uncounted { (one : T) → T.counted one ≡ 0 }
        // The input is waited for only while more of it is needed, and nothing waits for its group.
        ensures needed { page_at self.old.input.pages.unread ≢ Err PageFault.Short → reader.new ≡ reader.old }
        ensures prompt { (before : T.State) → T.is_in before runner.old → (reader.new ≡ reader.old) ⊎ (T.held_in before ≡ 0) }
        ensures due { (before : T.State) → T.is_in before runner.old → IfOk result (λ step.
            IsDue step (T.held_in before) self.old.input.pages self.new.input.pages) }
        ensures steps { (before : T.State) → T.is_in before runner.old → IfOk result (λ step. (after : T.State) × T.is_in after runner.new
            × Steps T.answers step self.old.input.pages (state_of self.old) (R.remaining reader.old) (P.contents pages.old) before
            self.new.input.pages (state_of self.new) (R.remaining reader.new) (P.contents pages.new) after) }
        ensures junk { IfOk result (λ step. TellsJunk step self.old.input.pages (R.remaining reader.old) self.old.input.junk
            self.new.input.pages (R.remaining reader.new) self.new.input.junk) }
        ensures stops { (before : T.State) → T.is_in before runner.old → IfErr result (λ fault. (after : T.State) × T.is_in after runner.new
            × StopsBy T.answers fault before after (P.contents pages.old) (P.contents pages.new)) }
        // `Read` comes only if a read has failed, and `Memory` only if it was wanted.
        ensures read { result ≡ Err RecordFault.Read → HasReadCause self.old.input.pages self.new.input.pages
            × (state_of self.new ≡ state_of self.old) × (self.new.input.junk ≡ self.old.input.junk) }
        ensures memory { result ≡ Err RecordFault.Memory → LacksMemoryFor self.old self.new (vec_capacity self.old.input.mender.room) }
    {
        if self.input.waits() && runner.waiting() > 0 {
            return Ok(Step::Flushed(runner.run_flush()));
        }
        match self.input.search(reader) {
            Ok(true) => self.take(runner, pages),
            Ok(false) => Ok(Step::PassedOver),
            Err(_) => Err(RecordFault::Read),
        }
    }

    /// Takes the page that was found, if there is one.
    fn take<T: Runner, P: Write>(
        &mut self,
        runner: &mut T,
        pages: &mut P,
    ) -> Result<Step, RecordFault>
        requires uncounted { (one : T) → T.counted one ≡ 0 }
        ensures takes { (before : T.State) → T.is_in before runner.old → IfOk result (λ step. (after : T.State) × T.is_in after runner.new
            × HasTaken T.answers step self.old.input.pages.lent (state_of self.old) (P.contents pages.old) before (state_of self.new) (P.contents pages.new) after) }
        ensures same { self.new.input.pages ≡ self.old.input.pages }
        ensures junk { IfOk result (λ step. TakesJunk step self.old.input.pages.offset self.old.input.junk self.new.input.junk) }
        ensures stops { (before : T.State) → T.is_in before runner.old → IfErr result (λ fault. (after : T.State) × T.is_in after runner.new
            × StopsBy T.answers fault before after (P.contents pages.old) (P.contents pages.new)) }
        ensures unread { result ≢ Err RecordFault.Read }
        ensures memory { result ≡ Err RecordFault.Memory → LacksMemoryFor self.old self.new (vec_capacity self.old.input.mender.room) }
    {
        let mut commands = Vec::new(self.alloc);
        let found = match self.input.take(&mut commands) {
            Ok(found) => found,
            Err(_) => return Err(RecordFault::Memory),
        };
        let junk = found.junk;
        if !found.is_page {
            return Ok(Step::Ended { junk });
        }
        match run(
            self.alloc,
            self.utc,
            &mut self.changes,
            &mut self.begun,
            runner,
            pages,
            commands,
        ) {
            Ok(answered) => Ok(Step::Page {
                offset: found.offset,
                junk,
                taken: Taken {
                    mend: found.mend,
                    answered,
                },
            }),
            Err(fault) => Err(fault),
        }
    }

    /// Ends the streams that are open, and has the commands run that still wait for a header: at the end of the input,
    /// or after `Read`. Take no further step. After `Memory` nothing of them was run; after `Write` a prefix was.
    pub fn finish<T: Runner, P: Write>(
        &mut self,
        runner: &mut T,
        pages: &mut P,
    ) -> Result<Taken, RecordFault>
        requires uncounted { (one : T) → T.counted one ≡ 0 }
        ensures ends { (before : T.State) → T.is_in before runner.old → IfOk result (λ taken. (after : T.State) × T.is_in after runner.new
            × Ends T.answers self.old.input.pages.offset (state_of self.old) (state_of self.new) taken before after (P.contents pages.old) (P.contents pages.new)) }
        ensures stops { (before : T.State) → T.is_in before runner.old → IfErr result (λ fault. (after : T.State) × T.is_in after runner.new
            × StopsBy T.answers fault before after (P.contents pages.old) (P.contents pages.new)) }
        ensures unread { result ≢ Err RecordFault.Read }
        ensures memory { result ≡ Err RecordFault.Memory → LacksMemoryAtEnd self.old self.new (vec_capacity self.old.input.mender.room) }
    {
        let mut commands = Vec::new(self.alloc);
        let mend = match self.input.finish(&mut commands) {
            Ok(mend) => mend,
            Err(_) => return Err(RecordFault::Memory),
        };
        match run(
            self.alloc,
            self.utc,
            &mut self.changes,
            &mut self.begun,
            runner,
            pages,
            commands,
        ) {
            Ok(answered) => Ok(Taken { mend, answered }),
            Err(fault) => Err(fault),
        }
    }
}
