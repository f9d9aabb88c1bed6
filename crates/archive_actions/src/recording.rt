//! What a stream is recorded into: a file, or the files of a folder.
ghost use Rattle.std.specs.Prelude.{◌≡◌, ◌<◌, IfSome, OnErr, None, Some, Ok, Err, true, false};
ghost use Rattle.archive_record.specs.Files.{AllKept};
ghost use Rattle.archive_record.specs.Filing.{HasExactly};
ghost use Rattle.disk_model.specs.Image.{IsSettled};
ghost use Rattle.file_recorder.specs.Recorder.{committed};

use crate::archiving::{end_open, open_ended, unended_fault};
use crate::filing::{granted, now};
use crate::keeping::Keeper;
use archive_folder::Folder;
use archive_record::{Archive, ArchiveFault, Beside, Rules, Unended};
use disk_model::{Disk, FileDisk};
use fault_lines::Fault;
use feed_runner::Runner;
use file_recorder::Recorder;
use import_record::{ImportRun, RecordFault, Step, run_all};
use record_actions::{Told, reopen, seal_after};
use std::io;

/// What a stream is recorded into. After a fault of the disk it is opened again, and the stream goes on.
pub trait Recording {
    /// The serials that it has.
    fn serials(&self) -> Result<Vec<u32>, Fault>;

    /// Takes one step over what has come of the stream, and returns whether it was the last. If it may begin a file, the
    /// next one is begun before it, unless the newest can be gone on with.
    fn step(&mut self, import: &mut ImportRun, begins: bool) -> Result<bool, Fault>;

    /// Keeps what waits.
    fn keep(&mut self, import: &mut ImportRun) -> Result<(), Fault>;

    /// Ends the stream that was recorded.
    fn finish(&mut self, import: &mut ImportRun) -> Result<(), Fault>;

    /// Ends what is open, and keeps that with all that waits.
    fn end_open(&mut self, import: &mut ImportRun) -> Result<(), Fault>;

    /// How many commands wait for their commit, and whether the disk has failed.
    fn waiting(&self) -> (u64, bool);

    /// Whether a strict run ends here.
    fn has_enough(&self) -> bool;

    /// The fault of what was told so far, if that is one.
    fn fault(&self) -> Option<Fault>;

    /// Tells these lines on standard error.
    fn tell(&mut self, lines: &[u8]);

    /// Tells what the recording came to.
    fn close(&mut self);
}

/// A file.
#[derive(Drop)]
pub struct FileRecording<'a> {
    rt: &'a HostRuntime,
    // there is none only after a fault
    recorder: Option<Recorder<FileDisk>>,
    most: u32,
    told: Told<'a>,
}

impl<'a> FileRecording<'a> {
    /// Opens the file, which is made if there is none, and ends what an earlier run left open in it. So many commands may
    /// share a commit.
    pub fn open(
        rt: &'a HostRuntime,
        file: &str,
        most: u32,
        strict: bool,
    ) -> Result<FileRecording<'a>, Fault> {
        let recorder = open_ended(rt, file, most)?;
        let told = Told::new(rt, strict, recorder.end());
        Ok(FileRecording {
            rt,
            recorder: Some(recorder),
            most,
            told,
        })
    }
}

impl FileRecording<'_> {
    /// Goes on after the disk has failed, if it has.
    fn recover(&mut self, import: &mut ImportRun) -> Result<(), Fault> {
        for _ in 0..u64::MAX {
            let Some(recorder) = self.recorder.take() else {
                return Err(Fault::Failed);
            };
            if !recorder.is_failed() {
                self.told.settle(recorder.held(), false, recorder.end());
                self.recorder = Some(recorder);
                return Ok(());
            }
            self.recorder = Some(begin_again(
                self.rt,
                recorder,
                import,
                &mut self.told,
                self.most,
            )?);
        }
        Err(Fault::Failed)
    }

    /// Returns what was told of, if that is a fault. Else the file is sealed, if that is asked for.
    pub fn seal(self, seal: bool) -> Result<(), Fault> {
        let FileRecording { recorder, told, .. } = self;
        let (sealed, _) = seal_told(told.fault(), recorder, seal);
        sealed
    }
}

/// What a recording has come to, and the disk that was recorded into. If there is a fault that was told of, it is that
/// one, and the disk is returned as it stands. Else the file is sealed, if that is asked for; the disk is let go if that
/// fails.
fn seal_told<D: Disk + Drop>(
    told: Option<Fault>,
    recorder: Option<Recorder<D>>,
    seal: bool,
) -> (Result<(), Fault>, Option<D>)
    ensures told { IfSome told (λ fault. result.0 ≡ Err fault) }
    ensures left { IfSome told (λ fault. IfSome recorder (λ r. result.1 ≡ Some r.file.disk)) }
    ensures lost { told ≡ None → recorder ≡ None → result.0 ≡ Err Fault.Failed }
    ensures unasked { told ≡ None → seal ≡ false → IfSome recorder (λ r. result ≡ (Ok tt, Some r.file.disk)) }
    ensures failed { told ≡ None → seal ≡ true → IfSome recorder (λ r. r.file.failed ≡ true → result.0 ≡ Err Fault.Failed) }
    ensures asked { told ≡ None → seal ≡ true → result.0 ≡ Ok tt → IfSome recorder (λ r. (disk : D) × (result.1 ≡ Some disk)
        × (D.is_honest r.file.disk → IsSettled (D.state disk) × ((D.state disk).contents ≡ committed D.state r))) }
{
    let met = match told {
        Some(fault) => Err(fault),
        None => Ok(()),
    };
    match (met, recorder) {
        (met, Some(recorder)) => seal_after(recorder, met, seal),
        (Err(fault), None) => (Err(fault), None),
        (Ok(()), None) => (Err(Fault::Failed), None),
    }
}

/// Opens the file again after a fault of the disk, unless nothing was kept since that was done before, and goes on with
/// the stream.
fn begin_again(
    rt: &HostRuntime,
    recorder: Recorder<FileDisk>,
    import: &mut ImportRun,
    told: &mut Told<'_>,
    most: u32,
) -> Result<Recorder<FileDisk>, Fault> {
    if !told.lost(import.offset(), recorder.end()) {
        return Err(Fault::Failed);
    }
    let mut recorder = reopen(rt, recorder)?;
    recorder.group(most.clamp(1, 1024));
    resume(&mut recorder, import, told)?;
    Ok(recorder)
}

/// Goes on with the stream in a file that was opened again. If the link that is open was lost with what waited, it
/// begins again.
fn resume(
    recorder: &mut Recorder<FileDisk>,
    import: &mut ImportRun,
    told: &mut Told<'_>,
) -> Result<(), Fault> {
    let commands = match import.resume(recorder.streams(), recorder.serials().as_slice()) {
        Ok(commands) => commands,
        Err(_) => return Err(Fault::Memory),
    };
    match run_all(recorder, commands.as_slice(), &mut io::sink()) {
        Ok(answered) => {
            told.answered(import.offset(), &answered);
            Ok(())
        }
        Err(_) => Err(Fault::Write),
    }
}

impl Recording for FileRecording<'_> {
    fn serials(&self) -> Result<Vec<u32>, Fault> {
        match &self.recorder {
            Some(recorder) => granted(recorder.serials().as_slice().to_vec(self.rt.alloc())),
            None => Err(Fault::Failed),
        }
    }

    fn step(&mut self, import: &mut ImportRun, _begins: bool) -> Result<bool, Fault> {
        let Some(recorder) = &mut self.recorder else {
            return Err(Fault::Failed);
        };
        let last = match import.step(recorder, &mut io::empty(), &mut io::sink()) {
            Ok(step) => took(&mut self.told, &step, import.offset()),
            Err(fault) => return Err(Fault::Archive(fault)),
        };
        self.recover(import)?;
        Ok(last)
    }

    fn keep(&mut self, import: &mut ImportRun) -> Result<(), Fault> {
        if let Some(recorder) = &mut self.recorder {
            recorder.run_flush();
        }
        self.recover(import)
    }

    fn finish(&mut self, import: &mut ImportRun) -> Result<(), Fault> {
        let Some(recorder) = &mut self.recorder else {
            return Err(Fault::Failed);
        };
        let offset = import.offset();
        match import.finish(recorder, &mut io::sink()) {
            Ok(taken) => self.told.taken(offset, &taken),
            Err(fault) => return Err(Fault::Archive(fault)),
        }
        self.recover(import)
    }

    fn end_open(&mut self, import: &mut ImportRun) -> Result<(), Fault> {
        for _ in 0..u64::MAX {
            let Some(recorder) = &mut self.recorder else {
                return Err(Fault::Failed);
            };
            let ended = end_open(recorder);
            self.recover(import)?;
            match ended {
                Err(Fault::Failed) => {}
                ended => return ended,
            }
        }
        Err(Fault::Failed)
    }

    fn waiting(&self) -> (u64, bool) {
        match &self.recorder {
            Some(recorder) => (recorder.held(), recorder.is_failed()),
            None => (0, true),
        }
    }

    fn has_enough(&self) -> bool {
        self.told.has_enough()
    }

    fn fault(&self) -> Option<Fault> {
        self.told.fault()
    }

    fn tell(&mut self, lines: &[u8]) {
        self.told.tell(lines);
    }

    fn close(&mut self) {
        self.told.close();
    }
}

/// Tells of a step after which the stream was read up to this offset, and returns whether it was the last.
fn took(told: &mut Told<'_>, step: &Step, offset: u64) -> bool {
    told.stepped(step);
    match step {
        Step::Ended { .. } => true,
        _ => {
            told.searched(step, offset);
            false
        }
    }
}

/// The files of a folder.
#[derive(Drop)]
pub struct FolderRecording<'a, D: Disk, F: Folder<File = D>> {
    rt: &'a HostRuntime,
    archive: Archive<D, F>,
    keeper: Keeper<'a>,
}

/// The fault of the program.
fn fault_of(fault: ArchiveFault) -> Fault {
    match fault {
        ArchiveFault::Folder | ArchiveFault::Numbers => Fault::File,
        ArchiveFault::Memory => Fault::Memory,
        ArchiveFault::Disk => Fault::Failed,
        ArchiveFault::Input(fault) => Fault::Archive(fault),
    }
}

impl<'a, D: Disk + Drop, F: Folder<File = D> + Drop> FolderRecording<'a, D, F> {
    /// Opens the folder by these rules.
    pub fn open(
        rt: &'a HostRuntime,
        folder: F,
        keeper: Keeper<'a>,
        rules: Rules,
    ) -> Result<FolderRecording<'a, D, F>, Fault>
        requires { F.is_honest folder → AllKept (F.names folder) (F.file folder) }
    {
        let mut keeper = keeper;
        match Archive::open(rt.alloc(), folder, rules, now(rt), &mut keeper) {
            Ok(archive) => Ok(FolderRecording {
                rt,
                archive,
                keeper,
            }),
            Err(fault) => Err(fault_of(fault)),
        }
    }
}

impl<D: Disk + Drop, F: Folder<File = D> + Drop> FolderRecording<'_, D, F> {
    /// Goes on after the disk has failed, if it has.
    fn recover(&mut self, import: &mut ImportRun) -> Result<(), Fault> {
        // Each failure counts, unless something was kept between or a file thrown away, and the third ends the run.
        for _ in 0..u64::MAX {
            if !self.archive.is_failed() {
                self.settle();
                return Ok(());
            }
            let offset = import.offset();
            self.keeper.told.lost(offset, self.archive.end());
            match self.archive.recover(import, now(self.rt), &mut self.keeper) {
                Ok(answered) => self.keeper.told.answered(offset, &answered),
                Err(fault) => return Err(fault_of(fault)),
            }
        }
        Err(Fault::Failed)
    }

    /// Unless commands wait, all that was taken is on the disk.
    fn settle(&mut self) {
        self.keeper.told.settle(
            self.archive.held(),
            self.archive.is_failed(),
            self.archive.end(),
        );
    }

    /// Takes one step, and returns whether it was the last. None is taken if the disk fails while a file is begun.
    fn take(&mut self, import: &mut ImportRun, begins: bool) -> Result<bool, Fault> {
        let now = now(self.rt);
        if begins {
            let offset = import.offset();
            match self.archive.begin_if_due(import, now, &mut self.keeper) {
                Ok(answered) => self.keeper.told.answered(offset, &answered),
                Err(fault) => return Err(fault_of(fault)),
            }
            if self.archive.is_failed() {
                return Ok(false);
            }
        }
        match self.archive.step(import, now, &mut self.keeper) {
            Ok(step) => Ok(took(&mut self.keeper.told, &step, import.offset())),
            Err(fault) => Err(fault_of(fault)),
        }
    }

    /// Returns what was told of, if that is a fault. Else the newest file is sealed, if that is asked for.
    pub fn seal(self, seal: bool) -> Result<(), Fault> {
        let FolderRecording {
            mut archive,
            mut keeper,
            ..
        } = self;
        let told = keeper.told.fault();
        let sealed = seal_newest(&mut archive, told, seal, &mut keeper);
        keeper.sync_ended();
        sealed
    }
}

/// What a recording has come to. If there is a fault that was told of, it is that one, and the newest file stays as it
/// stands. Else the newest file is sealed, if that is asked for and there is one; it is `Seal` if that fails.
fn seal_newest<D: Disk + Drop, F: Folder<File = D> + Drop, B: Beside>(
    archive: &mut Archive<D, F>,
    told: Option<Fault>,
    seal: bool,
    beside: &mut B,
) -> Result<(), Fault>
    ensures told { IfSome told (λ fault. (result ≡ Err fault) × (archive.new ≡ archive.old)) }
    ensures unasked { told ≡ None → seal ≡ false → (result ≡ Ok tt) × (archive.new ≡ archive.old) }
    ensures none { told ≡ None → archive.old.newest ≡ None → (result ≡ Ok tt) × (archive.new ≡ archive.old) }
    ensures failed { told ≡ None → seal ≡ true → IfSome archive.old.newest (λ newest.
        newest.recorder.file.failed ≡ true → result ≡ Err Fault.Seal) }
    ensures waits { told ≡ None → seal ≡ true → IfSome archive.old.newest (λ newest.
        0 < newest.recorder.held → result ≡ Err Fault.Seal) }
    ensures only { told ≡ None → OnErr result (result ≡ Err Fault.Seal) }
    // If no file goes for want of room, one that is told as sealed has its committed bytes and nothing else.
    ensures asked { told ≡ None → seal ≡ true → result ≡ Ok tt → archive.old.rotation.rules.keeping.bytes ≡ None
        → IfSome archive.old.newest (λ newest. F.is_honest archive.old.rotation.files.folder
        → D.is_honest newest.recorder.file.disk
        → HasExactly D.Disk (F.file archive.new.rotation.files.folder) newest.name.number
        (committed D.state newest.recorder)) }
{
    if let Some(fault) = told {
        return Err(fault);
    }
    if !seal || archive.close(beside) {
        Ok(())
    } else {
        Err(Fault::Seal)
    }
}

impl<D: Disk + Drop, F: Folder<File = D> + Drop> Recording for FolderRecording<'_, D, F> {
    fn serials(&self) -> Result<Vec<u32>, Fault> {
        granted(self.archive.serials())
    }

    fn step(&mut self, import: &mut ImportRun, begins: bool) -> Result<bool, Fault> {
        if self.archive.held() == 0 {
            self.keeper.sync_ended();
        }
        let last = self.take(import, begins)?;
        self.recover(import)?;
        Ok(last)
    }

    fn keep(&mut self, import: &mut ImportRun) -> Result<(), Fault> {
        self.archive.flush(now(self.rt), &mut self.keeper);
        self.recover(import)
    }

    fn finish(&mut self, import: &mut ImportRun) -> Result<(), Fault> {
        let offset = import.offset();
        match self.archive.finish(import, now(self.rt), &mut self.keeper) {
            Ok(taken) => self.keeper.told.taken(offset, &taken),
            Err(fault) => return Err(fault_of(fault)),
        }
        self.recover(import)
    }

    fn end_open(&mut self, import: &mut ImportRun) -> Result<(), Fault> {
        for _ in 0..u64::MAX {
            let ended = self.archive.end_open(now(self.rt), &mut self.keeper);
            self.recover(import)?;
            match ended {
                Ok(()) => return Ok(()),
                Err(Unended::Failed) => {}
                Err(unended) => return Err(unended_fault(unended)),
            }
        }
        Err(Fault::Failed)
    }

    fn waiting(&self) -> (u64, bool) {
        (self.archive.held(), self.archive.is_failed())
    }

    fn has_enough(&self) -> bool {
        self.keeper.told.has_enough()
    }

    fn fault(&self) -> Option<Fault> {
        self.keeper.told.fault()
    }

    fn tell(&mut self, lines: &[u8]) {
        self.keeper.told.tell(lines);
    }

    fn close(&mut self) {
        self.keeper.sync_ended();
        self.keeper.told.close();
    }
}
