//! The files of a folder, begun and ended in turn: the next one is begun when the newest is over, and old ones go.
ghost use Rattle.std.specs.Prelude.{◌≡◌, ◌<◌, [], ◌/◌, ◌⊎◌, ◌↔◌, ◌++◌, ◌∷◌, List, ℕ, IfOk, IfErr, IfSome, IsTrue, OnOk, OnErr, None, Some, Ok, true, false};
ghost use Rattle.disk_model.specs.Image.{settled};
ghost use Rattle.archive_names.specs.Plan.{IsOver};
ghost use Rattle.archive_times.specs.Asked.{IsDue, IsUntold};
ghost use Rattle.archive_folder.specs.declared.names.FileName.{FileName as FileNameOf};
ghost use Rattle.archive_history.specs.Archive.{Archive as Account, Newest as NewestOf, names};
ghost use Rattle.file_recorder.specs.Recorder.{RecorderState, committed, staged};
ghost use Rattle.ogg_command.specs.declared.command.Command.{Command as CommandOf};
ghost use Rattle.archive_record.specs.Account.{LeadsTo, Stands, WritesNew, WritesNone};
ghost use Rattle.archive_record.specs.Files.{AllKept};
ghost use Rattle.archive_record.specs.Filing.{HasExactly, IsNew};
ghost use Rattle.archive_record.specs.Reaching.{AreAt, ComesBack, ComesFree, ComesWritten, IsAtHand, IsBegun, IsWaiting, IsWritten, MayStart};
ghost use Rattle.archive_record.specs.Resting.{IsAtRest};
ghost use Rattle.archive_record.specs.Rotating.{with_period};
ghost use Rattle.archive_record.specs.Spelling.{name_of};

use crate::archive::ArchiveFault;
use crate::beside::Beside;
use crate::damage::Damage;
use crate::files::{BeginFault, Files};
use crate::filing::{
    Left, end_file, end_group, end_last, first_recorder, give_back, open_last, open_newest,
};
use crate::laws::files_lead_on;
use crate::naming::name_of;
use archive_folder::{FileName, Folder};
use archive_names::{Held, Keeping, Limits, is_over};
use archive_times::{Join, Line, is_due, is_untold};
use disk_model::{Disk, DiskFault};
use file_recorder::Recorder;
use gate_file::OpenFault;
use std::alloc::Global;

/// How the files of an archive are begun and kept.
#[derive(Clone, Copy, Debug, PartialEq, Eq)]
pub struct Rules {
    /// When a file is begun. A period has at least a second.
    pub limits: Limits,
    /// What is thrown away.
    pub keeping: Keeping,
    /// How many commands may share a commit, 1 to 1,024.
    pub most: u32,
}

/// The files of a folder that are recorded into, one after the other. Whoever records has the recorder of the newest,
/// and gives it back by `end`, or its disk by `give_back`, before the next file is begun. Times are in milliseconds
/// since 1970.
#[derive(Drop)]
pub struct Rotation<F: Folder> {
    alloc: Global,
    pub(crate) files: Files<F>,
    pub(crate) rules: Rules,
    // what stands under each name, in the order of the files, if something may have to be thrown away
    pub(crate) held: Vec<Held>,
    // the last line of the newest file's times, and what the clock said when it was written
    last: Option<Line>,
    written: Option<u64>,
}

impl<D: Disk + Drop, F: Folder<File = D> + Drop> Rotation<F> {
    /// Opens a folder: it is synced and listed, and what may have to be thrown away is looked at. No file is opened.
    ///
    /// It is `Folder` if the folder can't be read, and `Memory`.
    pub fn open(
        alloc: Global,
        folder: F,
        rules: Rules,
        now: u64,
    ) -> Result<Rotation<F>, ArchiveFault>
        requires { F.is_honest folder → AllKept (F.names folder) (F.file folder) }
        // Events of the law lead on: the folder is synced, and the last file may be opened, if there is one.
        ensures leads { IfOk result (λ rotation. F.is_honest folder → (a : Account CommandOf) (disks : ℕ → D)
            → Stands F.names D.Disk a folder disks → MayStart F.file D.Disk folder a disks
            → (b : Account CommandOf) × IsWaiting F.file D.Disk rotation.files b disks × AreAt F.names D.Disk rotation.files b disks
            × LeadsTo F.names F.moment F.left_since D.Disk a folder disks b rotation.files.folder disks) }
        ensures honest { IfOk result (λ rotation. F.is_honest folder ↔ F.is_honest rotation.files.folder) }
        ensures free { IfOk result (λ rotation. rotation.files.out ≡ None) }
        ensures rules { IfOk result (λ rotation. rotation.rules ≡ rules) }
    {
        // For the proof alone.
        files_lead_on::<D, F>();
        let files = match Files::open(alloc, folder) {
            Ok(files) => files,
            Err((DiskFault, _)) => return Err(ArchiveFault::Folder),
        };
        let mut rotation = Rotation {
            alloc,
            files,
            rules,
            held: Vec::new(alloc),
            last: None,
            written: None,
        };
        rotation.look_at_all(now)?;
        Ok(rotation)
    }

    /// The files that are there, in the order of their numbers.
    pub fn names(&self) -> &[FileName]
        ensures { result.now ≡ self.now.files.files }
    {
        self.files.names()
    }

    /// Opens the newest file, if there is one that can be gone on with, and ends what is open in it. If no room is left for
    /// that, the oldest files go. Every file that isn't gone on with is left as it is, and that is told.
    ///
    /// It is `Memory` if memory was refused.
    pub fn open_newest<B: Beside>(
        &mut self,
        beside: &mut B,
    ) -> Result<Option<(FileName, Recorder<D>)>, ArchiveFault>
        // Only what rests is recorded into.
        ensures rests { IfOk result (λ newest. IfSome newest (λ (file, r). IsAtRest r)) }
        ensures empty { self.old.files.files ≡ [] → (result ≡ Ok None) × (self.new.files ≡ self.old.files) }
        // Events of the law lead on, if the last file may be opened: the recorder writes it, or no file is written.
        ensures leads { IfOk result (λ newest. IfSome newest (λ (file, r). F.is_honest self.old.files.folder
            → (a : Account CommandOf) (last : NewestOf CommandOf) (disks : ℕ → D) → AreAt F.names D.Disk self.old.files a disks
            → IsAtHand F.file D.Disk self.old.files.folder a last disks
            → ComesWritten F.names F.moment F.left_since D.Disk self.old.files a disks file.number r self.new.files)) }
        ensures unopened { result ≡ Ok None → F.is_honest self.old.files.folder
            → (a : Account CommandOf) (last : NewestOf CommandOf) (disks : ℕ → D) → AreAt F.names D.Disk self.old.files a disks
            → IsAtHand F.file D.Disk self.old.files.folder a last disks
            → ComesFree F.names F.moment F.left_since D.Disk self.old.files a disks self.new.files }
        ensures honest { F.is_honest self.old.files.folder ↔ F.is_honest self.new.files.folder }
        ensures rules { self.new.rules ≡ self.old.rules }
    {
        // For the proof alone.
        files_lead_on::<D, F>();
        for _ in 0..self.tries() {
            match open_newest(self.alloc, &mut self.files, self.rules.most) {
                Ok(newest) => return Ok(newest),
                Err(Left::Memory) => return Err(ArchiveFault::Memory),
                Err(Left::Twice(number)) => {
                    beside.stands_twice(number);
                    return Ok(None);
                }
                Err(Left::Damaged(name, why)) => {
                    if !self.make_room(beside) {
                        beside.damaged(name, why);
                        return Ok(None);
                    }
                }
            }
        }
        Ok(None)
    }

    /// Whether the next command belongs into a new file, by the newest file's name, its bytes with those of the commands
    /// that wait, and whether it takes no further link.
    pub fn is_over(&self, name: FileName, bytes: u64, is_full: bool, now: u64) -> bool
        ensures { IsTrue result ↔ (IsOver (with_period self.now.rules.limits) (name_of name).begin bytes (now / 1000) ⊎ IsTrue is_full) }
    {
        let limits = Limits {
            every: self.rules.limits.every.max(1),
            ..self.rules.limits
        };
        is_over(limits, name_of(name).begin, bytes, now / 1000) || is_full
    }

    /// Makes the next file, syncs the folder, and opens a recorder on it. If no room is left for it, the oldest files go.
    /// Its name says that it goes on with the file before, if `goes_on` says so and no number was passed over. Call
    /// `throw_away` once what begins the file is kept.
    ///
    /// It is `Folder` if the folder can't be written or a file of it is in use, `Memory` if memory was refused, and
    /// `Numbers` if no number is left. After a fault nothing can be recorded any more.
    pub fn begin<B: Beside>(
        &mut self,
        goes_on: bool,
        now: u64,
        beside: &mut B,
    ) -> Result<(FileName, Recorder<D>), ArchiveFault>
        // Nothing waits in it, and nothing was recorded into it, if no file goes for want of room.
        ensures works { IfOk result (λ (file, r). (r.held ≡ 0) × (r.file.failed ≡ false)) }
        ensures unwritten { self.old.rules.keeping.bytes ≡ None → IfOk result (λ (file, r). IsNew D.Disk r) }
        // Its name has this time, and says that it goes on only if that was asked.
        ensures named { IfOk result (λ (file, r). ((name_of file).begin ≡ now / 1000) × (file.goes_on ≡ true → goes_on ≡ true)) }
        // Events of the law lead on: the recorder writes the new file. After a fault no file is written.
        ensures leads { IfOk result (λ (file, r). F.is_honest self.old.files.folder → (a : Account CommandOf) (disks : ℕ → D)
            → AreAt F.names D.Disk self.old.files a disks → a.newest ≡ None
            → ComesWritten F.names F.moment F.left_since D.Disk self.old.files a disks file.number r self.new.files) }
        ensures unbegun { OnErr result (F.is_honest self.old.files.folder → (a : Account CommandOf) (disks : ℕ → D)
            → AreAt F.names D.Disk self.old.files a disks → a.newest ≡ None
            → ComesFree F.names F.moment F.left_since D.Disk self.old.files a disks self.new.files) }
        ensures honest { F.is_honest self.old.files.folder ↔ F.is_honest self.new.files.folder }
        ensures rules { self.new.rules ≡ self.old.rules }
    {
        // For the proof alone.
        files_lead_on::<D, F>();
        let begun = i64::try_from(now / 1000).unwrap_or(i64::MAX);
        let (name, disk) = self.make_file(begun, goes_on, beside)?;
        self.look_at_newest(now)?;
        let recorder = self.first_recorder(name, disk, beside)?;
        self.last = None;
        self.written = None;
        beside.begun(name);
        Ok((name, recorder))
    }

    /// Makes the next file. If no room is left for it, the oldest files go.
    fn make_file<B: Beside>(
        &mut self,
        begun: i64,
        goes_on: bool,
        beside: &mut B,
    ) -> Result<(FileName, D), ArchiveFault>
        // Events of the law lead there: files go for it, it is made, and its name stays.
        ensures leads { IfOk result (λ (file, disk). F.is_honest self.old.files.folder → (a : Account CommandOf) (disks : ℕ → D)
            → a.newest ≡ None → F.names self.old.files.folder ≡ names a
            → WritesNew F.names F.moment F.left_since D.Disk a self.old.files.folder disks file.number disk self.new.files.folder) }
        ensures unmade { OnErr result (F.is_honest self.old.files.folder → (a : Account CommandOf) (disks : ℕ → D)
            → a.newest ≡ None → F.names self.old.files.folder ≡ names a
            → WritesNone F.names F.moment F.left_since D.Disk a self.old.files.folder disks self.new.files.folder) }
        ensures empty { IfOk result (λ (file, disk). F.is_honest self.old.files.folder → D.is_honest disk) }
        ensures newest { IfOk result (λ (file, disk). (front : List FileNameOf) × (self.new.files.files ≡ front ++ file ∷ [])) }
        ensures named { IfOk result (λ (file, disk). (file.begun ≡ begun) × (file.goes_on ≡ true → goes_on ≡ true)) }
        ensures out { IfOk result (λ (file, disk). self.new.files.out ≡ Some file.number) }
        ensures honest { F.is_honest self.old.files.folder ↔ F.is_honest self.new.files.folder }
        ensures fresh { IfOk result (λ (file, disk). D.is_honest disk → D.state disk ≡ settled []) }
        ensures rules { self.new.rules ≡ self.old.rules }
    {
        let mut is_next = goes_on;
        for _ in 0..self.tries() {
            if !self.files.is_free() {
                return Err(ArchiveFault::Folder);
            }
            match self.files.begin(begun, is_next) {
                Ok(begun) => return Ok(begun),
                Err(BeginFault::Folder) => {
                    if !self.make_room(beside) {
                        return Err(ArchiveFault::Folder);
                    }
                    // The number was used, so the next file isn't the one after the last.
                    is_next = false;
                }
                Err(fault) => return Err(fault.into()),
            }
        }
        Err(ArchiveFault::Folder)
    }

    /// A recorder on a file that was begun. If no room is left for its first byte, the oldest files go.
    fn first_recorder<B: Beside>(
        &mut self,
        name: FileName,
        disk: D,
        beside: &mut B,
    ) -> Result<Recorder<D>, ArchiveFault>
        requires { D.is_honest disk → D.state disk ≡ settled [] }
        ensures works { IfOk result (λ recorder. (recorder.held ≡ 0) × (recorder.file.failed ≡ false)) }
        ensures unwritten { self.old.rules.keeping.bytes ≡ None → IfOk result (IsNew D.Disk) }
        // Events of the law lead on: the recorder writes the file. After a fault no file is written.
        ensures leads { IfOk result (λ recorder. F.is_honest self.old.files.folder → (a : Account CommandOf) (file : NewestOf CommandOf)
            (disks : ℕ → D) → AreAt F.names D.Disk self.old.files a disks → IsBegun D.Disk a file name.number disk disks
            → ComesWritten F.names F.moment F.left_since D.Disk self.old.files a disks name.number recorder self.new.files) }
        ensures unopened { OnErr result (F.is_honest self.old.files.folder → (a : Account CommandOf) (file : NewestOf CommandOf)
            (disks : ℕ → D) → AreAt F.names D.Disk self.old.files a disks → IsBegun D.Disk a file name.number disk disks
            → ComesFree F.names F.moment F.left_since D.Disk self.old.files a disks self.new.files) }
        ensures honest { F.is_honest self.old.files.folder ↔ F.is_honest self.new.files.folder }
        ensures rules { self.new.rules ≡ self.old.rules }
    {
        // For the proof alone.
        files_lead_on::<D, F>();
        if !self.files.is_out(name.number) {
            return Err(ArchiveFault::Folder);
        }
        match first_recorder(self.alloc, &mut self.files, name, disk, self.rules.most) {
            Ok(recorder) => Ok(recorder),
            Err(fault) => {
                if self.make_room(beside) {
                    self.next_recorder(beside)
                } else {
                    Err(fault)
                }
            }
        }
    }

    /// The same, on a file that was given back since there was no room.
    fn next_recorder<B: Beside>(&mut self, beside: &mut B) -> Result<Recorder<D>, ArchiveFault>
        ensures works { IfOk result (λ recorder. (recorder.held ≡ 0) × (recorder.file.failed ≡ false)) }
        // Events of the law lead on: the recorder writes the newest file. After a fault it may be opened again.
        ensures leads { IfOk result (λ r. F.is_honest self.old.files.folder → (a : Account CommandOf) (newest : NewestOf CommandOf)
            (disks : ℕ → D) → AreAt F.names D.Disk self.old.files a disks → IsAtHand F.file D.Disk self.old.files.folder a newest disks
            → ComesWritten F.names F.moment F.left_since D.Disk self.old.files a disks newest.name.number r self.new.files) }
        ensures unopened { OnErr result (F.is_honest self.old.files.folder → (a : Account CommandOf) (newest : NewestOf CommandOf)
            (disks : ℕ → D) → AreAt F.names D.Disk self.old.files a disks → IsAtHand F.file D.Disk self.old.files.folder a newest disks
            → ComesBack F.names F.moment F.left_since D.Disk F.file self.old.files a disks newest.name.number self.new.files) }
        ensures honest { F.is_honest self.old.files.folder ↔ F.is_honest self.new.files.folder }
        ensures rules { self.new.rules ≡ self.old.rules }
    {
        match self.open_again(beside) {
            Ok(recorder) => Ok(recorder),
            Err(Damage::Open(OpenFault::Memory)) => Err(ArchiveFault::Memory),
            Err(_) => Err(ArchiveFault::Folder),
        }
    }

    /// Ends a file: it is cut to its pages and given back, and nothing writes it again. If no room is left for that, the
    /// oldest files go. Returns whether it is cut: not if its disk has failed, or a command waits, which is lost then.
    pub fn end<B: Beside>(&mut self, name: FileName, recorder: Recorder<D>, beside: &mut B) -> bool
        ensures failed { recorder.file.failed ≡ true → result ≡ false }
        ensures waits { 0 < recorder.held → result ≡ false }
        ensures free { self.old.files.out ≡ Some name.number → self.new.files.out ≡ None }
        // Only a file that is handed out is cut.
        ensures out { result ≡ true → self.old.files.out ≡ Some name.number }
        // If no file goes for want of room, one that has ended has its committed bytes, whatever stops, and nothing else.
        ensures ended { result ≡ true → self.old.rules.keeping.bytes ≡ None → F.is_honest self.old.files.folder
            → D.is_honest recorder.file.disk
            → HasExactly D.Disk (F.file self.new.files.folder) name.number (committed D.state recorder) }
        // Events of the law lead on: no file is written.
        ensures leads { F.is_honest self.old.files.folder → (a : Account CommandOf) (file : NewestOf CommandOf) (disks : ℕ → D)
            → AreAt F.names D.Disk self.old.files a disks → IsWritten D.Disk a file name.number recorder disks
            → ComesFree F.names F.moment F.left_since D.Disk self.old.files a disks self.new.files }
        ensures honest { F.is_honest self.old.files.folder ↔ F.is_honest self.new.files.folder }
    {
        // For the proof alone.
        files_lead_on::<D, F>();
        let end = recorder.end();
        if !self.files.is_out(name.number) {
            beside.damaged(name, Damage::Open(OpenFault::Disk));
            return false;
        }
        let is_cut = self.end_out(name, recorder, beside);
        if is_cut {
            beside.ended(name, end);
        } else {
            beside.damaged(name, Damage::Open(OpenFault::Disk));
        }
        is_cut
    }

    /// Ends a file that is handed out. If no room is left for that, and nothing in it is lost, the oldest files go.
    fn end_out<B: Beside>(&mut self, name: FileName, recorder: Recorder<D>, beside: &mut B) -> bool
        requires { self.old.files.out ≡ Some name.number }
        ensures failed { recorder.file.failed ≡ true → result ≡ false }
        ensures waits { 0 < recorder.held → result ≡ false }
        ensures none { self.new.files.out ≡ None }
        ensures ended { result ≡ true → self.old.rules.keeping.bytes ≡ None → F.is_honest self.old.files.folder
            → D.is_honest recorder.file.disk
            → HasExactly D.Disk (F.file self.new.files.folder) name.number (committed D.state recorder) }
        // Events of the law lead on: no file is written.
        ensures leads { F.is_honest self.old.files.folder → (a : Account CommandOf) (file : NewestOf CommandOf) (disks : ℕ → D)
            → AreAt F.names D.Disk self.old.files a disks → IsWritten D.Disk a file name.number recorder disks
            → ComesFree F.names F.moment F.left_since D.Disk self.old.files a disks self.new.files }
        ensures honest { F.is_honest self.old.files.folder ↔ F.is_honest self.new.files.folder }
    {
        // For the proof alone.
        files_lead_on::<D, F>();
        // What is lost isn't in the file that is opened again.
        if recorder.is_failed() || recorder.held() > 0 {
            end_file(&mut self.files, name, recorder);
            return false;
        }
        if end_file(&mut self.files, name, recorder) {
            return true;
        }
        self.end_again(name, beside)
    }

    /// Commits what waits in a file and ends it, with two syncs in all: it is cut to its pages and given back, and nothing
    /// writes it again. Its last line of times is written, which says where the link is joined that is open, if one is.
    /// After a fault the recorder is handed back, which has failed, and what waited is lost.
    pub fn end_group<B: Beside>(
        &mut self,
        name: FileName,
        recorder: Recorder<D>,
        join: Option<Join>,
        now: u64,
        beside: &mut B,
    ) -> Result<(), Recorder<D>>
        ensures failed { self.old.files.out ≡ Some name.number → IfErr result (λ back. back.file.failed ≡ true) }
        // What was kept before is kept, and every stop leaves what waited as a whole or not at all.
        ensures front { D.is_honest recorder.file.disk → IfErr result (λ back. committed D.state back ≡ committed D.state recorder) }
        // A file that has ended has what was committed and what waited, whatever stops, and nothing else.
        ensures ended { OnOk result (F.is_honest self.old.files.folder → D.is_honest recorder.file.disk
            → HasExactly D.Disk (F.file self.new.files.folder) name.number (committed D.state recorder ++ staged D.state recorder)) }
        // Events of the law lead there: what waited is kept, the file is sealed, it has ended, and it is given back. After a
        // fault the recorder that is handed back writes it.
        ensures leads { OnOk result (F.is_honest self.old.files.folder → (a : Account CommandOf) (file : NewestOf CommandOf) (disks : ℕ → D)
            → AreAt F.names D.Disk self.old.files a disks → IsWritten D.Disk a file name.number recorder disks
            → ComesFree F.names F.moment F.left_since D.Disk self.old.files a disks self.new.files) }
        ensures unended { IfErr result (λ back. (a : Account CommandOf) (file : NewestOf CommandOf) (disks : ℕ → D)
            → AreAt F.names D.Disk self.old.files a disks → IsWritten D.Disk a file name.number recorder disks
            → self.old.files.out ≡ Some name.number
            → ComesWritten F.names F.moment F.left_since D.Disk self.old.files a disks name.number back self.new.files) }
        ensures honest { F.is_honest self.old.files.folder ↔ F.is_honest self.new.files.folder }
        ensures free { OnOk result (self.new.files.out ≡ None) }
        ensures rules { self.new.rules ≡ self.old.rules }
        ensures same { OnErr result (self.new ≡ self.old) }
    {
        // For the proof alone.
        files_lead_on::<D, F>();
        let end = recorder.length();
        if !self.files.is_out(name.number) {
            return Err(recorder);
        }
        match end_group(&mut self.files, name, recorder) {
            Ok(()) => {}
            Err(recorder) => return Err(recorder),
        }
        self.tell_time(end, join, now, beside);
        beside.ended(name, end);
        Ok(())
    }

    /// Ends the newest file, which was given back, as long as that fails for want of room alone, and files are left that
    /// may go. Returns whether it is the one of this name, and is cut.
    fn end_again<B: Beside>(&mut self, name: FileName, beside: &mut B) -> bool
        requires { self.old.files.out ≡ None }
        // Events of the law lead on: no file is written.
        ensures leads { F.is_honest self.old.files.folder → (a : Account CommandOf) (newest : NewestOf CommandOf) (disks : ℕ → D)
            → AreAt F.names D.Disk self.old.files a disks → IsAtHand F.file D.Disk self.old.files.folder a newest disks
            → ComesFree F.names F.moment F.left_since D.Disk self.old.files a disks self.new.files }
        ensures honest { F.is_honest self.old.files.folder ↔ F.is_honest self.new.files.folder }
        ensures none { self.new.files.out ≡ None }
        ensures bound { self.old.rules.keeping.bytes ≡ None → result ≡ false }
    {
        // For the proof alone.
        files_lead_on::<D, F>();
        for _ in 0..self.tries() {
            if !self.make_room(beside) {
                return false;
            }
            if let Some(number) = end_last(self.alloc, &mut self.files) {
                return number == name.number;
            }
        }
        false
    }

    /// Gives the newest file back as its disk stands. Nothing is written to it.
    pub fn give_back(&mut self, name: FileName, disk: D)
        ensures free { self.old.files.out ≡ Some name.number → self.new.files.out ≡ None }
        // Events of the law lead on: the file may be opened again.
        ensures leads { F.is_honest self.old.files.folder → (a : Account CommandOf) (file : NewestOf CommandOf) (disks : ℕ → D)
            (recorder : RecorderState D) → AreAt F.names D.Disk self.old.files a disks
            → IsWritten D.Disk a file name.number recorder disks → recorder.file.disk ≡ disk → self.old.files.out ≡ Some name.number
            → ComesBack F.names F.moment F.left_since D.Disk F.file self.old.files a disks name.number self.new.files }
        ensures honest { F.is_honest self.old.files.folder ↔ F.is_honest self.new.files.folder }
        ensures files { self.new.files.files ≡ self.old.files.files }
        ensures rules { self.new.rules ≡ self.old.rules }
    {
        // For the proof alone.
        files_lead_on::<D, F>();
        give_back(&mut self.files, name, disk);
    }

    /// A recorder on the newest file, which was given back. If no room is left to open it, the oldest files go. After a
    /// fault it is with the folder, and is left as it is.
    pub fn open_again<B: Beside>(&mut self, beside: &mut B) -> Result<Recorder<D>, Damage>
        // Nothing waits in it.
        ensures fresh { IfOk result (λ r. (r.file.failed ≡ false) × (r.held ≡ 0)) }
        // Events of the law lead on: the recorder writes the newest file. After a fault it may be opened again.
        ensures leads { IfOk result (λ r. F.is_honest self.old.files.folder → (a : Account CommandOf) (newest : NewestOf CommandOf)
            (disks : ℕ → D) → AreAt F.names D.Disk self.old.files a disks → IsAtHand F.file D.Disk self.old.files.folder a newest disks
            → ComesWritten F.names F.moment F.left_since D.Disk self.old.files a disks newest.name.number r self.new.files) }
        ensures unopened { OnErr result (F.is_honest self.old.files.folder → (a : Account CommandOf) (newest : NewestOf CommandOf)
            (disks : ℕ → D) → AreAt F.names D.Disk self.old.files a disks → IsAtHand F.file D.Disk self.old.files.folder a newest disks
            → ComesBack F.names F.moment F.left_since D.Disk F.file self.old.files a disks newest.name.number self.new.files) }
        ensures honest { F.is_honest self.old.files.folder ↔ F.is_honest self.new.files.folder }
        ensures rules { self.new.rules ≡ self.old.rules }
    {
        // For the proof alone.
        files_lead_on::<D, F>();
        for _ in 0..self.tries() {
            match open_last(self.alloc, &mut self.files) {
                Ok((_, recorder)) => {
                    let mut recorder = recorder;
                    recorder.group(self.rules.most.clamp(1, 1024));
                    return Ok(recorder);
                }
                Err(why) => {
                    if !self.make_room(beside) {
                        return Err(why);
                    }
                }
            }
        }
        Err(Damage::Unreadable)
    }

    /// The newest file was opened, of which this many bytes are committed: its times are gone on with.
    pub fn opened<B: Beside>(&mut self, name: FileName, committed: u64, beside: &mut B)
        ensures files { self.new.files ≡ self.old.files }
        ensures rules { self.new.rules ≡ self.old.rules }
    {
        self.last = beside.opened(name, committed);
    }

    /// Whether a commit is told: the last line of times is a second old, or none tells yet of the link that is open.
    pub fn is_time_due(&self, join: Option<Join>, now: u64) -> bool
        ensures { IsTrue result ↔ (IsDue self.now.written now ⊎ IsUntold self.now.last join) }
    {
        is_due(self.written, now) || is_untold(self.last, join)
    }

    /// A line of times is written, if the bytes that are committed say more than the last one. It says where the link is
    /// joined that is open, if one is. Of a file in which nothing is committed none is written, so that the first commit's
    /// comes at once.
    pub fn tell_time<B: Beside>(
        &mut self,
        committed: u64,
        join: Option<Join>,
        now: u64,
        beside: &mut B,
    )
        ensures nothing { committed ≡ 0 → (self.new ≡ self.old) × (beside.new ≡ beside.old) }
        ensures files { self.new.files ≡ self.old.files }
        ensures rest { self.new ≡ record self.old { last = self.new.last; written = self.new.written } }
    {
        if committed == 0 {
            return;
        }
        if let Some(line) = Line::after(self.last, committed, now, join) {
            beside.timed(line);
            self.last = Some(line);
            self.written = Some(now);
        }
    }
}
