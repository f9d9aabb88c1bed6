//! The machine of an archive: an input is recorded into the files of a folder, one after the other.
ghost use Rattle.std.specs.Prelude.{◌≡◌, ◌≢◌, ◌⊎◌, ◌↔◌, ◌<◌, [], Bool, ℕ, IfErr, IfOk, IfSome, IsOk, IsTrue, OnErr, OnOk, None, Some, Ok, Err, true, false, vec_capacity};
ghost use Rattle.file_recorder.specs.Recorder.{committed};
ghost use Rattle.import_record.specs.Reading.{IsDue, LacksMemoryAtEnd, LacksMemoryFor, TellsJunk};
ghost use Rattle.import_record.specs.Resuming.{Resumes};
ghost use Rattle.import_record.specs.Running.{nothing};
ghost use Rattle.import_record.specs.Steps.{state_of};
ghost use Rattle.link_chain.specs.ChainState.{is_open};
ghost use Rattle.archive_history.specs.Archive.{Archive as Account};
ghost use Rattle.ogg_command.specs.declared.command.Command.{Command as CommandOf};
ghost use Rattle.ogg_command.specs.declared.refusal.Refusal.{Refusal as RefusalOf};
ghost use Rattle.archive_record.specs.Changing.{GoesOver, HasBegun, HasEnded, HasNotEnded, NextIsDue};
ghost use Rattle.archive_record.specs.Files.{AllKept};
ghost use Rattle.archive_record.specs.Filing.{HasExactly};
ghost use Rattle.archive_record.specs.Reaching.{AreAt, GoesBy, MayStart, WritesIt};
ghost use Rattle.archive_record.specs.Account.{LeadsTo, Stands};
ghost use Rattle.archive_record.specs.Resting.{IsAtRest};
ghost use Rattle.archive_record.specs.Stepping.{HasFinished, HasFlushed, HasRunAgain, HasStepped, HasStopped};
ghost use Rattle.archive_record.specs.Writing.{IsNow, Writing};
ghost use Rattle.archive_record.specs.declared.newest.Newest.{Newest as NewestOf};

use crate::beside::Beside;
use crate::ending::{Unended, end_held, end_open, tell_unended};
use crate::files::BeginFault;
use crate::laws::files_lead_on;
use crate::newest::Newest;
use crate::rotation::{Rotation, Rules};
use archive_folder::Folder;
use archive_times::Join;
use disk_model::{Disk, Memory};
use feed_runner::Runner;
use file_recorder::{Recorder, records_are_steps};
use import_record::{Answered, ImportRun, RecordFault, Step, Taken, run_all};
use ogg_command::Command;
use std::alloc::Global;
use std::io;

/// Why nothing more is recorded.
#[derive(Clone, Copy, Debug, PartialEq, Eq)]
pub enum ArchiveFault {
    /// The folder can't be read or written.
    Folder,
    /// Memory was refused.
    Memory,
    /// No number is left for a file.
    Numbers,
    /// The disk has failed three times, and nothing was kept between.
    Disk,
    /// The input wasn't recorded to its end.
    Input(RecordFault),
}

impl From<BeginFault> for ArchiveFault {
    fn from(fault: BeginFault) -> ArchiveFault {
        match fault {
            BeginFault::Memory => ArchiveFault::Memory,
            BeginFault::Numbers => ArchiveFault::Numbers,
            BeginFault::Folder => ArchiveFault::Folder,
        }
    }
}

/// The files of a folder, of which the newest is recorded into, unless it can't be gone on with: then the next one is
/// begun as soon as something comes.
#[derive(Drop)]
pub struct Archive<D: Disk, F: Folder<File = D>> {
    pub(crate) alloc: Global,
    pub(crate) rotation: Rotation<F>,
    pub(crate) newest: Option<Newest<D>>,
    // what begins the open link again, before anything else is run in the next file
    again: Vec<Command>,
    // the committed bytes of the files before the newest that were recorded into
    pub(crate) before: u64,
    // how many bytes were committed when the disk failed last, and how often it has with so many
    pub(crate) lost_at: u64,
    pub(crate) losses: u8,
}

/// A copy of the serials that a file has.
pub(crate) fn serials_of<D: Disk>(alloc: Global, recorder: &Recorder<D>) -> Result<Vec<u32>, Memory>
    ensures { IfOk result (λ serials. serials.items ≡ recorder.now.chain.serials) }
{
    recorder.serials().as_slice().to_vec(alloc)
}

impl<D: Disk + Drop, F: Folder<File = D> + Drop> Archive<D, F> {
    /// Opens an archive: its folder is synced, and of its files the newest is opened and what is open in it is ended. What
    /// is to be thrown away is.
    ///
    /// It is `Folder` if the folder can't be read, and `Memory`.
    pub fn open<B: Beside>(
        alloc: Global,
        folder: F,
        rules: Rules,
        now: u64,
        beside: &mut B,
    ) -> Result<Archive<D, F>, ArchiveFault>
        requires { F.is_honest folder → AllKept (F.names folder) (F.file folder) }
        // Only what rests is recorded into, and nothing is to be begun again.
        ensures rests { IfOk result (λ archive. IfSome archive.newest (λ newest. IsAtRest newest.recorder)) }
        ensures none { IfOk result (λ archive. archive.again.items ≡ []) }
        // Events of the law lead on, if a program may start on the folder.
        ensures goes { IfOk result (λ archive. F.is_honest folder → (a : Account CommandOf) (disks : ℕ → D)
            → Stands F.names D.Disk a folder disks → MayStart F.file D.Disk folder a disks
            → F.is_honest archive.rotation.files.folder
            × ((b : Account CommandOf) × (after : ℕ → D) × WritesIt D.Disk archive.rotation.files archive.newest b after
            × AreAt F.names D.Disk archive.rotation.files b after
            × LeadsTo F.names F.moment F.left_since D.Disk a folder disks b archive.rotation.files.folder after)) }
        ensures rules { IfOk result (λ archive. archive.rotation.rules ≡ rules) }
    {
        // For the proof alone.
        files_lead_on::<D, F>();
        let mut rotation = Rotation::open(alloc, folder, rules, now)?;
        let newest = match rotation.open_newest(beside)? {
            Some((name, recorder)) => Some(Newest::on(name, recorder)),
            None => None,
        };
        let mut archive = Archive {
            alloc,
            rotation,
            newest,
            again: Vec::new(alloc),
            before: 0,
            lost_at: 0,
            losses: 0,
        };
        archive.opened(now, beside);
        archive.rotation.throw_away(now, beside);
        Ok(archive)
    }

    /// The serials of the newest file.
    pub fn serials(&self) -> Result<Vec<u32>, Memory> {
        match &self.newest {
            Some(newest) => serials_of(self.alloc, &newest.recorder),
            None => Ok(Vec::new(self.alloc)),
        }
    }

    /// How many commands wait for the commit of their group.
    pub fn held(&self) -> u64
        ensures { IfSome self.now.newest (λ newest. result ≡ newest.recorder.held) }
    {
        match &self.newest {
            Some(newest) => newest.recorder.held(),
            None => 0,
        }
    }

    /// Whether the disk of the newest file has failed: `recover` goes on then.
    pub fn is_failed(&self) -> bool
        ensures { IfSome self.now.newest (λ newest. result ≡ newest.recorder.file.failed) }
    {
        match &self.newest {
            Some(newest) => newest.recorder.is_failed(),
            None => false,
        }
    }

    /// How many bytes are committed of the files that were recorded into since the archive was opened.
    pub fn end(&self) -> u64 {
        match &self.newest {
            Some(newest) => self.before.saturating_add(newest.recorder.end()),
            None => self.before,
        }
    }

    /// The newest file was opened: its times are gone on with.
    fn opened<B: Beside>(&mut self, now: u64, beside: &mut B)
        ensures rest { self.new ≡ record self.old { rotation = self.new.rotation } }
        ensures files { self.new.rotation.files ≡ self.old.rotation.files }
        ensures rules { self.new.rotation.rules ≡ self.old.rotation.rules }
    {
        if let Some(newest) = &self.newest {
            self.rotation
                .opened(newest.name, newest.recorder.end(), beside);
        }
        self.tell_time(now, beside);
    }

    /// Where the link that is open in the newest file is joined, if one is and that is known.
    fn open_join(&self) -> Option<Join> {
        match &self.newest {
            Some(newest) => newest.open_join(),
            None => None,
        }
    }

    /// A line of times is written, if what is committed says more than the last one.
    fn tell_time<B: Beside>(&mut self, now: u64, beside: &mut B)
        ensures none { self.old.newest ≡ None → (self.new ≡ self.old) × (beside.new ≡ beside.old) }
        ensures rest { self.new ≡ record self.old { rotation = self.new.rotation } }
        ensures times { self.new.rotation ≡ record self.old.rotation { last = self.new.rotation.last; written = self.new.rotation.written } }
    {
        if let Some(newest) = &self.newest {
            let (end, join) = (newest.recorder.end(), newest.open_join());
            self.rotation.tell_time(end, join, now, beside);
        }
    }

    /// Whether the next command belongs into a new file.
    fn is_due(&self, now: u64) -> bool
        ensures { IsTrue result ↔ NextIsDue self.now.rotation.rules.limits now self.now.newest }
    {
        match &self.newest {
            Some(newest) => {
                let bytes = newest.recorder.length();
                self.rotation
                    .is_over(newest.name, bytes, newest.is_full(), now)
            }
            None => true,
        }
    }

    /// Keeps what waits. Call it before more of the input is waited for.
    pub fn flush<B: Beside>(&mut self, now: u64, beside: &mut B)
        ensures flushes { (before : Writing D) → IsNow before self.old.newest → HasFlushed D.Disk before self.new.newest }
        ensures none { self.old.newest ≡ None → (self.new ≡ self.old) × (beside.new ≡ beside.old) }
        // Events of the law lead on.
        ensures goes { GoesBy F.names F.moment F.left_since F.is_honest D.Disk self.old.rotation.files self.old.newest
            self.new.rotation.files self.new.newest }
        // Beside that only a line of times is written.
        ensures rest { self.new ≡ record self.old { rotation = self.new.rotation; newest = self.new.newest } }
        ensures times { self.new.rotation ≡ record self.old.rotation { last = self.new.rotation.last; written = self.new.rotation.written } }
    {
        // For the proof alone.
        files_lead_on::<D, F>();
        self.flush_newest();
        self.committed(now, beside);
    }

    /// The newest file answers a flush, if there is one.
    fn flush_newest(&mut self)
        ensures flushes { (before : Writing D) → IsNow before self.old.newest → HasFlushed D.Disk before self.new.newest }
        ensures none { self.old.newest ≡ None → self.new ≡ self.old }
        // Events of the law lead on.
        ensures goes { GoesBy F.names F.moment F.left_since F.is_honest D.Disk self.old.rotation.files self.old.newest
            self.new.rotation.files self.new.newest }
        ensures rest { self.new ≡ record self.old { newest = self.new.newest } }
    {
        // For the proof alone.
        files_lead_on::<D, F>();
        records_are_steps::<D>();
        if let Some(newest) = &mut self.newest {
            newest.run_flush();
        }
    }

    /// After a commit a line of times is written, unless one was within the last second that tells of the open link.
    fn committed<B: Beside>(&mut self, now: u64, beside: &mut B)
        ensures none { self.old.newest ≡ None → (self.new ≡ self.old) × (beside.new ≡ beside.old) }
        ensures rest { self.new ≡ record self.old { rotation = self.new.rotation } }
        ensures times { self.new.rotation ≡ record self.old.rotation { last = self.new.rotation.last; written = self.new.rotation.written } }
    {
        if self.held() > 0 || self.is_failed() {
            return;
        }
        if self.rotation.is_time_due(self.open_join(), now) {
            self.tell_time(now, beside);
        }
    }

    /// Begins the next file, if the newest is over by this time in milliseconds since 1970, or there is none to be gone on
    /// with. Call it before a step over what has come of the input. It says what became of the link that is open, which
    /// begins again.
    ///
    /// After `Ok`, if the disk has failed, call `recover`. After a fault take no further step.
    pub fn begin_if_due<B: Beside>(
        &mut self,
        import: &mut ImportRun,
        now: u64,
        beside: &mut B,
    ) -> Result<Answered, ArchiveFault>
        // If no file is due, nothing is done.
        ensures not_due { (NextIsDue self.old.rotation.rules.limits now self.old.newest → ⊥)
            → (result ≡ Ok nothing) × (self.new ≡ self.old) × (import.new ≡ import.old) × (beside.new ≡ beside.old) }
        // If one is, the newest ends and the next one begins, unless the disk fails before.
        ensures due { (newest : NewestOf D) → NextIsDue self.old.rotation.rules.limits now self.old.newest → self.old.newest ≡ Some newest
            → IfOk result (λ answered. ((before : Writing D) → IsNow before self.old.newest
            → GoesOver D.Disk F.is_honest F.file self.old.rotation.files.folder self.old.rotation.rules.keeping.bytes
            import.old import.new answered before self.new.newest)
            ⊎ (((before : Writing D) → IsNow before self.old.newest
            → HasNotEnded D.Disk self.old.rotation.files.out newest before self.new.newest) × (answered ≡ nothing) × (import.new ≡ import.old))) }
        // If there is none, the next one begins alone.
        ensures none { self.old.newest ≡ None → IfOk result (λ answered. (import.new ≡ import.old)
            × HasBegun D.Disk self.old.rotation.rules.keeping.bytes self.old.again.items answered self.new.newest) }
        // Events of the law lead on.
        ensures goes { GoesBy F.names F.moment F.left_since F.is_honest D.Disk self.old.rotation.files self.old.newest
            self.new.rotation.files self.new.newest }
        ensures rules { self.new.rotation.rules ≡ self.old.rotation.rules }
    {
        // For the proof alone.
        files_lead_on::<D, F>();
        if self.is_due(now) {
            self.begin_next(import, now, beside)
        } else {
            Ok(Answered::nothing())
        }
    }

    /// Takes one step over what has been read of the input. If there is no file to record into, nothing is taken, and it
    /// answers as at the input's end: `begin_if_due` makes one.
    ///
    /// After `Ok`, if the disk has failed, call `recover`. After a fault take no further step.
    pub fn step<B: Beside>(
        &mut self,
        import: &mut ImportRun,
        now: u64,
        beside: &mut B,
    ) -> Result<Step, ArchiveFault>
        ensures none { self.old.newest ≡ None → (result ≡ Ok (Step.Ended None)) × (self.new ≡ self.old)
            × (import.new ≡ import.old) × (beside.new ≡ beside.old) }
        // The newest file answers what the step runs, and the input moves on by that.
        ensures steps { (before : Writing D) → IsNow before self.old.newest
            → IfOk result (λ step. HasStepped D.Disk step import.old import.new before self.new.newest) }
        ensures stops { (before : Writing D) → IsNow before self.old.newest
            → IfErr result (λ fault. HasStopped D.Disk fault before self.new.newest) }
        ensures due { (before : Writing D) → IsNow before self.old.newest
            → IfOk result (λ step. IsDue step before.progress.now.held import.old.input.pages import.new.input.pages) }
        ensures junk { self.old.newest ≢ None → IfOk result (λ step. TellsJunk step import.old.input.pages (Some [])
            import.old.input.junk import.new.input.pages (Some []) import.new.input.junk) }
        ensures memory { result ≡ Err (ArchiveFault.Input RecordFault.Memory)
            → LacksMemoryFor import.old import.new (vec_capacity import.old.input.mender.room) }
        // Events of the law lead on.
        ensures goes { GoesBy F.names F.moment F.left_since F.is_honest D.Disk self.old.rotation.files self.old.newest
            self.new.rotation.files self.new.newest }
        // Beside that only a line of times is written.
        ensures rest { self.new ≡ record self.old { rotation = self.new.rotation; newest = self.new.newest } }
        ensures times { self.new.rotation ≡ record self.old.rotation { last = self.new.rotation.last; written = self.new.rotation.written } }
    {
        // For the proof alone.
        files_lead_on::<D, F>();
        records_are_steps::<D>();
        let Some(newest) = &mut self.newest else {
            return Ok(Step::Ended { junk: None });
        };
        match import.step(newest, &mut io::empty(), &mut io::sink()) {
            Ok(step) => {
                self.committed(now, beside);
                Ok(step)
            }
            Err(fault) => Err(ArchiveFault::Input(fault)),
        }
    }

    /// Ends the newest file, if there is one, and begins the next: it is made, its folder is synced, and the link that is
    /// open begins again. If the disk fails before the newest has ended, it stays.
    pub(crate) fn begin_next<B: Beside>(
        &mut self,
        import: &mut ImportRun,
        now: u64,
        beside: &mut B,
    ) -> Result<Answered, ArchiveFault>
        ensures next { (newest : NewestOf D) → self.old.newest ≡ Some newest
            → IfOk result (λ answered. ((before : Writing D) → IsNow before self.old.newest
            → GoesOver D.Disk F.is_honest F.file self.old.rotation.files.folder self.old.rotation.rules.keeping.bytes
            import.old import.new answered before self.new.newest)
            ⊎ (((before : Writing D) → IsNow before self.old.newest
            → HasNotEnded D.Disk self.old.rotation.files.out newest before self.new.newest) × (answered ≡ nothing) × (import.new ≡ import.old))) }
        ensures none { self.old.newest ≡ None → IfOk result (λ answered. (import.new ≡ import.old)
            × HasBegun D.Disk self.old.rotation.rules.keeping.bytes self.old.again.items answered self.new.newest) }
        // Events of the law lead on.
        ensures goes { GoesBy F.names F.moment F.left_since F.is_honest D.Disk self.old.rotation.files self.old.newest
            self.new.rotation.files self.new.newest }
        ensures rules { self.new.rotation.rules ≡ self.old.rotation.rules }
    {
        // For the proof alone.
        files_lead_on::<D, F>();
        let Some(goes_on) = self.end_newest(import, now, beside)? else {
            return Ok(Answered::nothing());
        };
        let (name, recorder) = self.rotation.begin(goes_on, now, beside)?;
        self.newest = Some(Newest::on(name, recorder));
        let answered = self.begin_again()?;
        self.committed(now, beside);
        self.rotation.throw_away(now, beside);
        Ok(answered)
    }

    /// Begins the link again that was open, in a new file, and keeps that.
    fn begin_again(&mut self) -> Result<Answered, ArchiveFault>
        ensures runs { (before : Writing D) → IsNow before self.old.newest
            → IfOk result (λ answered. HasRunAgain D.Disk self.old.again.items answered before self.new.newest) }
        ensures none { self.old.newest ≡ None → (result ≡ Ok nothing) × (self.new ≡ self.old) }
        // Events of the law lead on.
        ensures goes { GoesBy F.names F.moment F.left_since F.is_honest D.Disk self.old.rotation.files self.old.newest
            self.new.rotation.files self.new.newest }
        ensures rotation { self.new.rotation ≡ self.old.rotation }
    {
        // For the proof alone.
        files_lead_on::<D, F>();
        records_are_steps::<D>();
        let Some(newest) = &mut self.newest else {
            return Ok(Answered::nothing());
        };
        let ran = run_all(newest, self.again.as_slice(), &mut io::sink());
        self.again.clear();
        newest.run_flush();
        match ran {
            Ok(answered) => Ok(answered),
            Err(_) => Err(ArchiveFault::Input(RecordFault::Write)),
        }
    }

    /// Ends the newest file, if there is one: what is open is ended, that is kept with what waits, and the file is cut to
    /// its pages, with two syncs. Nothing writes it again. Returns whether the next file goes on with it: if a link was
    /// open, and all of it was kept. It is none if the disk has failed: then the newest stays.
    fn end_newest<B: Beside>(
        &mut self,
        import: &mut ImportRun,
        now: u64,
        beside: &mut B,
    ) -> Result<Option<bool>, ArchiveFault>
        ensures ended { (before : Writing D) (goes_on : Bool) → IsNow before self.old.newest → result ≡ Ok (Some goes_on)
            → HasEnded D.Disk (F.is_honest self.old.rotation.files.folder) (F.file self.new.rotation.files.folder) goes_on before
            × Resumes [] before.progress.now.chain.serials (state_of import.old) (state_of import.new) self.new.again.items
            × (self.new.newest ≡ None) }
        ensures stays { (before : Writing D) (newest : NewestOf D) → self.old.newest ≡ Some newest → IsNow before self.old.newest
            → result ≡ Ok None → HasNotEnded D.Disk self.old.rotation.files.out newest before self.new.newest }
        ensures gone { (goes_on : Bool) → result ≡ Ok (Some goes_on) → self.new.newest ≡ None }
        ensures gone_err { OnErr result (self.new.newest ≡ None) }
        ensures unread { result ≡ Ok None → import.new ≡ import.old }
        ensures none { self.old.newest ≡ None → (result ≡ Ok (Some false)) × (self.new ≡ self.old)
            × (import.new ≡ import.old) × (beside.new ≡ beside.old) }
        ensures input { import.new.input ≡ import.old.input }
        // Events of the law lead on.
        ensures goes { GoesBy F.names F.moment F.left_since F.is_honest D.Disk self.old.rotation.files self.old.newest
            self.new.rotation.files self.new.newest }
        ensures rules { self.new.rotation.rules ≡ self.old.rotation.rules }
    {
        // For the proof alone.
        files_lead_on::<D, F>();
        records_are_steps::<D>();
        let Some(newest) = self.newest.take() else {
            return Ok(Some(false));
        };
        let mut newest = newest;
        let serials = serials_of(self.alloc, &newest.recorder);
        // The link goes on in the next file.
        let open_join = newest.open_join();
        let (goes_on, ended) = end_held(&mut newest.recorder);
        let Newest {
            name,
            recorder,
            join,
        } = newest;
        let end = recorder.length();
        match self
            .rotation
            .end_group(name, recorder, open_join, now, beside)
        {
            Ok(()) => {}
            Err(recorder) => {
                self.newest = Some(Newest {
                    name,
                    recorder,
                    join,
                });
                return Ok(None);
            }
        }
        self.before = self.before.saturating_add(end);
        tell_unended(ended, import.offset(), end, beside);
        self.begins_again(import, serials)?;
        Ok(Some(goes_on))
    }

    /// What begins the link again that is open in the input, in a file that has none of these serials.
    pub(crate) fn begins_again(
        &mut self,
        import: &mut ImportRun,
        serials: Result<Vec<u32>, Memory>,
    ) -> Result<(), ArchiveFault>
        ensures resumes { OnOk result (IfOk serials (λ taken.
            Resumes [] taken.items (state_of import.old) (state_of import.new) self.new.again.items)) }
        ensures known { OnOk result (IsOk serials) }
        ensures input { import.new.input ≡ import.old.input }
        ensures rest { self.new ≡ record self.old { again = self.new.again } }
        ensures err { OnErr result (state_of import.new ≡ state_of import.old) }
    {
        let serials = match serials {
            Ok(serials) => serials,
            Err(_) => return Err(ArchiveFault::Memory),
        };
        match import.resume(&[], serials.as_slice()) {
            Ok(commands) => {
                self.again = commands;
                Ok(())
            }
            Err(_) => Err(ArchiveFault::Memory),
        }
    }

    /// Ends the input: what is open is ended and kept. The newest file stays, to be gone on with.
    pub fn finish<B: Beside>(
        &mut self,
        import: &mut ImportRun,
        now: u64,
        beside: &mut B,
    ) -> Result<Taken, ArchiveFault>
        ensures none { self.old.newest ≡ None → (result ≡ Ok (record { mend = None; answered = nothing })) × (self.new ≡ self.old)
            × (import.new ≡ import.old) × (beside.new ≡ beside.old) }
        ensures ends { (before : Writing D) → IsNow before self.old.newest
            → IfOk result (λ taken. HasFinished D.Disk taken import.old import.new before self.new.newest) }
        ensures stops { (before : Writing D) → IsNow before self.old.newest
            → IfErr result (λ fault. HasStopped D.Disk fault before self.new.newest) }
        ensures memory { result ≡ Err (ArchiveFault.Input RecordFault.Memory)
            → LacksMemoryAtEnd import.old import.new (vec_capacity import.old.input.mender.room) }
        // Events of the law lead on.
        ensures goes { GoesBy F.names F.moment F.left_since F.is_honest D.Disk self.old.rotation.files self.old.newest
            self.new.rotation.files self.new.newest }
        // Beside that only a line of times is written.
        ensures rest { self.new ≡ record self.old { rotation = self.new.rotation; newest = self.new.newest } }
        ensures times { self.new.rotation ≡ record self.old.rotation { last = self.new.rotation.last; written = self.new.rotation.written } }
    {
        // For the proof alone.
        files_lead_on::<D, F>();
        records_are_steps::<D>();
        let Some(newest) = &mut self.newest else {
            return Ok(Taken {
                mend: None,
                answered: Answered::nothing(),
            });
        };
        match import.finish(newest, &mut io::sink()) {
            Ok(taken) => {
                self.flush(now, beside);
                Ok(taken)
            }
            Err(fault) => Err(ArchiveFault::Input(fault)),
        }
    }

    /// Ends what is open in the newest file, and keeps that with what waits.
    pub fn end_open<B: Beside>(&mut self, now: u64, beside: &mut B) -> Result<(), Unended>
        ensures rests { OnOk result (IfSome self.new.newest (λ newest. IsAtRest newest.recorder)) }
        ensures failed { result ≡ Err Unended.Failed → IfSome self.new.newest (λ newest. newest.recorder.file.failed ≡ true) }
        ensures refused { (refusal : RefusalOf) → result ≡ Err (Unended.Refused refusal)
            → IfSome self.new.newest (λ newest. is_open newest.recorder.chain ≡ true) }
        ensures none { self.old.newest ≡ None → (result ≡ Ok tt) × (self.new ≡ self.old) × (beside.new ≡ beside.old) }
        // Events of the law lead on.
        ensures goes { GoesBy F.names F.moment F.left_since F.is_honest D.Disk self.old.rotation.files self.old.newest
            self.new.rotation.files self.new.newest }
        ensures rest { self.new ≡ record self.old { rotation = self.new.rotation; newest = self.new.newest } }
        ensures times { self.new.rotation ≡ record self.old.rotation { last = self.new.rotation.last; written = self.new.rotation.written } }
    {
        // For the proof alone.
        files_lead_on::<D, F>();
        let ended = self.end_open_newest();
        if ended.is_ok() {
            self.tell_time(now, beside);
        }
        ended
    }

    /// Ends what is open in the newest file, if there is one.
    fn end_open_newest(&mut self) -> Result<(), Unended>
        ensures rests { OnOk result (IfSome self.new.newest (λ newest. IsAtRest newest.recorder)) }
        ensures failed { result ≡ Err Unended.Failed → IfSome self.new.newest (λ newest. newest.recorder.file.failed ≡ true) }
        ensures refused { (refusal : RefusalOf) → result ≡ Err (Unended.Refused refusal)
            → IfSome self.new.newest (λ newest. is_open newest.recorder.chain ≡ true) }
        ensures none { self.old.newest ≡ None → (result ≡ Ok tt) × (self.new ≡ self.old) }
        // Events of the law lead on.
        ensures goes { GoesBy F.names F.moment F.left_since F.is_honest D.Disk self.old.rotation.files self.old.newest
            self.new.rotation.files self.new.newest }
        ensures rest { self.new ≡ record self.old { newest = self.new.newest } }
    {
        // For the proof alone.
        files_lead_on::<D, F>();
        records_are_steps::<D>();
        match &mut self.newest {
            Some(newest) => end_open(&mut newest.recorder),
            None => Ok(()),
        }
    }

    /// Ends the newest file, if there is one: it is cut to its pages, and nothing writes it again. Returns whether that
    /// was done, if there is one.
    pub fn close<B: Beside>(&mut self, beside: &mut B) -> bool
        ensures none { self.old.newest ≡ None → (result ≡ true) × (self.new ≡ self.old) × (beside.new ≡ beside.old) }
        ensures gone { self.new.newest ≡ None }
        ensures failed { IfSome self.old.newest (λ newest. newest.recorder.file.failed ≡ true → result ≡ false) }
        ensures waits { IfSome self.old.newest (λ newest. 0 < newest.recorder.held → result ≡ false) }
        // Events of the law lead on.
        ensures goes { GoesBy F.names F.moment F.left_since F.is_honest D.Disk self.old.rotation.files self.old.newest
            self.new.rotation.files self.new.newest }
        // If no file goes for want of room, one that has ended has its committed bytes, whatever stops, and nothing else.
        ensures ended { result ≡ true → self.old.rotation.rules.keeping.bytes ≡ None → IfSome self.old.newest (λ newest.
            F.is_honest self.old.rotation.files.folder → D.is_honest newest.recorder.file.disk
            → HasExactly D.Disk (F.file self.new.rotation.files.folder) newest.name.number
            (committed D.state newest.recorder)) }
    {
        // For the proof alone.
        files_lead_on::<D, F>();
        let Some(newest) = self.newest.take() else {
            return true;
        };
        let Newest { name, recorder, .. } = newest;
        self.before = self.before.saturating_add(recorder.end());
        self.rotation.end(name, recorder, beside)
    }
}
