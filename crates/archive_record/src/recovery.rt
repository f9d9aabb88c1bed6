//! The recording goes on after the disk has failed.
ghost use Rattle.std.specs.Prelude.{◌≡◌, ◌⊎◌, ◌↔◌, IfOk, IfSome, List, None, Some, Ok, false, ℕ};
ghost use Rattle.archive_history.specs.Archive.{Archive as Account};
ghost use Rattle.ogg_command.specs.declared.command.Command.{Command as CommandOf};
ghost use Rattle.import_record.specs.Running.{nothing};
ghost use Rattle.archive_record.specs.Changing.{IsReopened, IsSetAside};
ghost use Rattle.archive_record.specs.Reaching.{AreAt, ComesBack, GoesBy, GoesOnFrom, WritesIt};
ghost use Rattle.archive_record.specs.Recovering.{IsGivenBack};
ghost use Rattle.archive_record.specs.declared.newest.Newest.{Newest as NewestOf};

use crate::archive::{Archive, ArchiveFault, serials_of};
use crate::beside::Beside;
use crate::damage::Damage;
use crate::laws::files_lead_on;
use crate::newest::Newest;
use archive_folder::{FileName, Folder};
use archive_times::Join;
use disk_model::{Disk, Memory};
use file_recorder::records_are_steps;
use gate_file::OpenFault;
use import_record::{Answered, ImportRun, RecordFault, run_all};
use std::io;

/// A file whose disk has failed: it is with the folder.
#[derive(Drop)]
struct Failed {
    name: FileName,
    join: Option<Join>,
    serials: Result<Vec<u32>, Memory>,
    // how many bytes of it are committed
    end: u64,
}

impl<D: Disk + Drop, F: Folder<File = D> + Drop> Archive<D, F> {
    /// Goes on after the disk has failed. If no room is left, and only so many bytes are kept, the oldest file goes, and
    /// the newest is opened again. If no file goes, it is opened again too, unless nothing was kept since that was done:
    /// then it is left as it is, and the next one is begun. What waited is lost.
    ///
    /// It is `Disk` if the disk failed a third time with nothing kept and no file thrown away between.
    pub fn recover<B: Beside>(
        &mut self,
        import: &mut ImportRun,
        now: u64,
        beside: &mut B,
    ) -> Result<Answered, ArchiveFault>
        // The input goes on in the file, which was opened again, or in the next one.
        ensures recovers { (newest : NewestOf D) → self.old.newest ≡ Some newest → IfOk result (λ answered.
            IsReopened D.Disk newest.name import.old import.new answered self.new.newest
            ⊎ IsSetAside D.Disk self.old.rotation.rules.keeping.bytes newest.recorder.chain.serials
            import.old import.new answered self.new.newest) }
        ensures none { self.old.newest ≡ None → (result ≡ Ok nothing) × (self.new ≡ self.old)
            × (import.new ≡ import.old) × (beside.new ≡ beside.old) }
        // Events of the law lead on.
        ensures goes { GoesBy F.names F.moment F.left_since F.is_honest D.Disk self.old.rotation.files self.old.newest
            self.new.rotation.files self.new.newest }
        ensures rules { self.new.rotation.rules ≡ self.old.rotation.rules }
    {
        // For the proof alone.
        files_lead_on::<D, F>();
        let committed = self.end();
        let Some(failed) = self.give_back_newest() else {
            return Ok(Answered::nothing());
        };
        if self.rotation.make_room(beside) {
            return self.open_again(failed, import, now, beside);
        }
        match self.count_loss(committed) {
            1 => self.open_again(failed, import, now, beside),
            2 => self.set_aside(failed, Damage::Open(OpenFault::Disk), import, now, beside),
            _ => Err(ArchiveFault::Disk),
        }
    }

    /// The newest file is given back, if there is one.
    fn give_back_newest(&mut self) -> Option<Failed>
        ensures given { IsGivenBack self.old.newest result }
        ensures taken { self.new.newest ≡ None }
        ensures none { self.old.newest ≡ None → self.new ≡ self.old }
        // Events of the law lead on: the file may be opened again.
        ensures goes { IfSome result (λ failed. F.is_honest self.old.rotation.files.folder → (a : Account CommandOf) (disks : ℕ → D)
            → AreAt F.names D.Disk self.old.rotation.files a disks → WritesIt D.Disk self.old.rotation.files self.old.newest a disks
            → ComesBack F.names F.moment F.left_since D.Disk F.file self.old.rotation.files a disks failed.name.number
            self.new.rotation.files) }
        ensures honest { F.is_honest self.old.rotation.files.folder ↔ F.is_honest self.new.rotation.files.folder }
        ensures rules { self.new.rotation.rules ≡ self.old.rotation.rules }
    {
        let newest = self.newest.take()?;
        let Newest {
            name,
            recorder,
            join,
        } = newest;
        let (serials, end) = (serials_of(self.alloc, &recorder), recorder.end());
        self.rotation.give_back(name, recorder.give_back());
        Some(Failed {
            name,
            join,
            serials,
            end,
        })
    }

    /// How often the disk has failed with so many bytes committed.
    fn count_loss(&mut self, committed: u64) -> u8
        ensures { self.new ≡ record self.old { lost_at = self.new.lost_at; losses = self.new.losses } }
    {
        self.losses = if self.losses > 0 && self.lost_at == committed {
            self.losses.saturating_add(1)
        } else {
            1
        };
        self.lost_at = committed;
        self.losses
    }

    /// Leaves the newest file as it is, and begins the next one.
    fn set_aside<B: Beside>(
        &mut self,
        failed: Failed,
        why: Damage,
        import: &mut ImportRun,
        now: u64,
        beside: &mut B,
    ) -> Result<Answered, ArchiveFault>
        ensures aside { (taken : List ℕ) → self.old.newest ≡ None → IfOk failed.serials (λ serials. serials.items ≡ taken)
            → IfOk result (λ answered. IsSetAside D.Disk self.old.rotation.rules.keeping.bytes taken
            import.old import.new answered self.new.newest) }
        // Events of the law lead on, from the file that was given back.
        ensures goes { self.old.newest ≡ None → GoesOnFrom F.names F.moment F.left_since F.is_honest D.Disk F.file
            self.old.rotation.files failed.name.number self.new.rotation.files self.new.newest }
        ensures rules { self.new.rotation.rules ≡ self.old.rotation.rules }
    {
        // For the proof alone.
        files_lead_on::<D, F>();
        let Failed {
            name,
            serials,
            end,
            ..
        } = failed;
        self.before = self.before.saturating_add(end);
        beside.damaged(name, why);
        self.begins_again(import, serials)?;
        self.begin_next(import, now, beside)
    }

    /// Opens the newest file again, and goes on with the link that is open, or begins it again.
    fn open_again<B: Beside>(
        &mut self,
        failed: Failed,
        import: &mut ImportRun,
        now: u64,
        beside: &mut B,
    ) -> Result<Answered, ArchiveFault>
        ensures opened { (taken : List ℕ) → self.old.newest ≡ None → IfOk failed.serials (λ serials. serials.items ≡ taken)
            → IfOk result (λ answered. IsReopened D.Disk failed.name import.old import.new answered self.new.newest
            ⊎ IsSetAside D.Disk self.old.rotation.rules.keeping.bytes taken import.old import.new answered self.new.newest) }
        // Events of the law lead on, from the file that was given back.
        ensures goes { self.old.newest ≡ None → GoesOnFrom F.names F.moment F.left_since F.is_honest D.Disk F.file
            self.old.rotation.files failed.name.number self.new.rotation.files self.new.newest }
        ensures rules { self.new.rotation.rules ≡ self.old.rotation.rules }
    {
        // For the proof alone.
        files_lead_on::<D, F>();
        match self.rotation.open_again(beside) {
            Ok(recorder) => {
                let newest = Newest::again(failed.name, recorder, failed.join);
                self.rotation
                    .opened(newest.name, newest.recorder.end(), beside);
                self.resume(import, newest)
            }
            Err(Damage::Open(OpenFault::Memory)) => Err(ArchiveFault::Memory),
            Err(why) => self.set_aside(failed, why, import, now, beside),
        }
    }

    /// Goes on in a file that was opened again.
    fn resume(
        &mut self,
        import: &mut ImportRun,
        newest: Newest<D>,
    ) -> Result<Answered, ArchiveFault>
        ensures goes_on { (newest.recorder.held ≡ 0) × (newest.recorder.file.failed ≡ false)
            → IfOk result (λ answered. IsReopened D.Disk newest.name import.old import.new answered self.new.newest) }
        // Events of the law lead on, from the file that is written then.
        ensures goes { self.old.newest ≡ None → GoesBy F.names F.moment F.left_since F.is_honest D.Disk
            self.old.rotation.files (Some newest) self.new.rotation.files self.new.newest }
        ensures rotation { self.new.rotation ≡ self.old.rotation }
    {
        // For the proof alone.
        files_lead_on::<D, F>();
        records_are_steps::<D>();
        let serials = newest.recorder.serials().as_slice();
        let commands = match import.resume(newest.recorder.streams(), serials) {
            Ok(commands) => commands,
            Err(_) => return Err(ArchiveFault::Memory),
        };
        let mut newest = newest;
        let ran = run_all(&mut newest, commands.as_slice(), &mut io::sink());
        self.newest = Some(newest);
        match ran {
            Ok(answered) => Ok(answered),
            Err(_) => Err(ArchiveFault::Input(RecordFault::Write)),
        }
    }
}
