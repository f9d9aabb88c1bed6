//! The files of a folder: they are begun, handed out, given back and thrown away.
ghost use Rattle.std.specs.Prelude.{◌≡◌, ◌≢◌, ◌⊎◌, ◌↔◌, ◌+◌, ◌<◌, ◌≤◌, ◌^◌, ◌∷◌, ◌++◌, [], ℕ, length, true, false, Contains, IfOk, IfErr, IfSome, IfNone, SomeIff, OnOk, OnErr, Option, Some, None, Ok, Err, vec_len, vec_capacity};
ghost use Rattle.disk_model.specs.Image.{settled};
ghost use Rattle.disk_model.specs.Fault.{HasCause, Rises};
ghost use Rattle.archive_folder.specs.Names.{AreBelow, Kept, IsKept, Out, numbers_of, listed, made, removed, synced};
ghost use Rattle.archive_folder.specs.Clock.{MayHaveRemoved};
ghost use Rattle.archive_record.specs.Account.{LeadsTo, Stands};
ghost use Rattle.archive_record.specs.Files.{highest, AllKept, IsKnown, NoneOrBelow, without};
ghost use Rattle.ogg_command.specs.declared.command.Command.{Command as CommandOf};
ghost use Rattle.archive_history.specs.Archive.{Archive as Account, Making, Throwing, begun_by, names, with_new, Resolves};
ghost use Rattle.archive_history.specs.History.{IsNotNewest, LeavesNames, MayHaveBegun, with_disk};

use archive_folder::{FileFacts, FileName, Folder};
use archive_history::{begin_file, calls_lead_on, events_lead_on, throw_away};
use disk_model::{Disk, DiskFault, Memory};
use file_recorder::{Recorded, images_show_one_recording};
use std::alloc::Global;
use std::marker::Model;

/// Why no file is begun.
#[derive(Clone, Copy, Debug, PartialEq, Eq)]
pub enum BeginFault {
    /// Memory was refused, and the folder is as it was.
    Memory,
    /// No number is left above those of the files, and the folder is as it was.
    Numbers,
    /// The folder has failed. The file may be there, empty, and its number isn't used again.
    Folder,
}

/// The files of a folder that one program writes, of which at most one is handed out. A new file's number is above all.
#[derive(Drop)]
pub struct Files<F: Folder> {
    folder: F,
    // those that are there, in the order of their numbers
    files: Vec<FileName>,
    next: Option<u64>,
    out: Option<u64>,
}

impl<F: Folder> Model for Files<F> {
    ghost use Rattle.archive_record.specs.Files.{IsKnown};
    ghost use Rattle.archive_record.specs.FilesState.{FilesState, files_state};
    ghost use Rattle.archive_folder.specs.Names.{numbers_of};

    ghost Value = { FilesState F };

    ghost view = { λ f. files_state f.folder f.files.items f.next f.out };

    ghost invariant = { λ f. F.is_honest f.folder
        → IsKnown (F.names f.folder) (F.file f.folder) (numbers_of f.files.items) f.next f.out };
}

impl<F: Folder> Files<F> {
    ghost use Rattle.archive_record.specs.FilesState.{FilesState, files_state};

    /// Syncs a folder, of which nothing is handed out, and lists its files.
    pub fn open(alloc: Global, folder: F) -> Result<Files<F>, (DiskFault, F)>
        requires { F.is_honest folder → AllKept (F.names folder) (F.file folder) }
        ensures none { IfOk result (λ files. files.out ≡ None) }
        // All files are known, and no stop takes one away or brings another back.
        ensures all { IfOk result (λ files. F.is_honest folder
            → numbers_of files.files ≡ listed (F.names folder)) }
        ensures listed { IfOk result (λ files. F.is_honest folder
            → numbers_of files.files ≡ listed (F.names files.folder)) }
        ensures names { IfOk result (λ files. F.is_honest folder
            → F.names files.folder ≡ synced (F.names folder)) }
        ensures files { IfOk result (λ files. F.is_honest folder → F.file files.folder ≡ F.file folder) }
        ensures next { IfOk result (λ files. SomeIff files.next (highest (numbers_of files.files) + 1 < 2 ^ 64)
            (highest (numbers_of files.files) + 1)) }
        // Events of the law lead there, to an account of which no name is in doubt.
        ensures leads { IfOk result (λ files. F.is_honest folder → (a : Account CommandOf) (disks : ℕ → F.File)
            → F.names folder ≡ names a
            → (b : Account CommandOf) × Resolves a b × (F.names files.folder ≡ names b)
            × LeadsTo F.names F.moment F.left_since F.File.Disk a folder disks b files.folder disks) }
        ensures honest { IfOk result (λ files. F.is_honest folder ↔ F.is_honest files.folder) }
        ensures honest_err { IfErr result (λ e. F.is_honest folder ↔ F.is_honest e.1) }
        ensures cause { IfErr result (λ e. Rises (F.failures folder) (F.failures e.1)) }
    {
        let mut folder = folder;
        match list_synced(alloc, &mut folder) {
            Ok(files) => {
                let next = next_number(&files);
                Ok(Files {
                    folder,
                    files,
                    next,
                    out: None,
                })
            }
            Err(fault) => Err((fault, folder)),
        }
    }

    /// The files that are there, in the order of their numbers.
    pub fn names(&self) -> &[FileName]
        ensures { result.now ≡ self.now.files }
    {
        &self.files
    }

    /// The folder as it stands.
    pub fn into_folder(self) -> F
        ensures { result ≡ self.folder }
    {
        let Files { folder, .. } = self;
        folder
    }

    /// Whether the file with this number is handed out.
    pub fn is_out(&self, number: u64) -> bool
        ensures { (result ≡ true) ↔ (self.now.out ≡ Some number) }
    {
        is_number(self.out, number)
    }

    /// Whether no file is handed out.
    pub fn is_free(&self) -> bool
        ensures { (result ≡ true) ↔ (self.now.out ≡ None) }
    {
        match self.out {
            Some(_) => false,
            None => true,
        }
    }

    /// Makes the next file, empty, and syncs the folder: no stop takes away its name after that. It is handed out.
    pub fn begin(&mut self, begun: i64, goes_on: bool) -> Result<(FileName, F::File), BeginFault>
        requires { self.old.out ≡ None }
        ensures name { IfOk result (λ (name, disk). (self.old.next ≡ Some name.number) × (name.begun ≡ begun) × (name.goes_on ≡ goes_on)
            × (self.new.files ≡ self.old.files ++ name ∷ []) × (self.new.out ≡ Some name.number)) }
        ensures names { IfOk result (λ (name, disk). F.is_honest self.old.folder
            → F.names self.new.folder ≡ synced (made name.number (F.names self.old.folder))) }
        ensures empty { IfOk result (λ (name, disk). F.is_honest self.old.folder
            → F.File.is_honest disk × (F.File.state disk ≡ settled [])) }
        // Also in a folder that isn't honest the file is a new one.
        ensures fresh { IfOk result (λ (name, disk). F.File.is_honest disk → F.File.state disk ≡ settled []) }
        // After a fault nothing is handed out.
        ensures none { OnErr result ((self.new.files ≡ self.old.files) × (self.new.out ≡ None)) }
        ensures unused { (result ≡ Err BeginFault.Numbers) ↔ (self.old.next ≡ None) }
        ensures same { (result ≡ Err BeginFault.Memory) ⊎ (result ≡ Err BeginFault.Numbers) → self.new ≡ self.old }
        ensures failed { result ≡ Err BeginFault.Folder → F.is_honest self.old.folder → (n : ℕ) → self.old.next ≡ Some n
            → MayHaveBegun F.File.Disk n (F.names self.old.folder) (F.names self.new.folder) (F.file self.new.folder) }
        ensures others { F.is_honest self.old.folder → (n : ℕ) → self.old.next ≢ Some n
            → F.file self.new.folder n ≡ F.file self.old.folder n }
        // The folder stands as the account that has the new file, and its name stays.
        ensures begun { IfOk result (λ (name, disk). F.is_honest self.old.folder
            → (a : Account CommandOf) (disks : ℕ → F.File) → a.newest ≡ None
            → Stands F.names F.File.Disk a self.old.folder disks
            → Stands F.names F.File.Disk (with_new name.number a) self.new.folder (with_disk name.number disk disks)) }
        // After a fault the account may have it, empty.
        ensures unbegun { result ≡ Err BeginFault.Folder → F.is_honest self.old.folder → (n : ℕ) → self.old.next ≡ Some n
            → (a : Account CommandOf) (disks : ℕ → F.File) → a.newest ≡ None
            → Stands F.names F.File.Disk a self.old.folder disks
            → (b : Account CommandOf) × (after : ℕ → F.File) × Resolves (begun_by a (Making n)) b
            × Stands F.names F.File.Disk b self.new.folder after }
        // Events of the law lead there, and after a fault to an account in which no file is written.
        ensures leads { IfOk result (λ (name, disk). F.is_honest self.old.folder → (a : Account CommandOf) (disks : ℕ → F.File)
            → a.newest ≡ None → F.names self.old.folder ≡ names a
            → LeadsTo F.names F.moment F.left_since F.File.Disk a self.old.folder disks
            (with_new name.number a) self.new.folder (with_disk name.number disk disks)) }
        ensures unbegun_leads { result ≡ Err BeginFault.Folder → F.is_honest self.old.folder
            → (a : Account CommandOf) (disks : ℕ → F.File)
            → a.newest ≡ None → F.names self.old.folder ≡ names a
            → (b : Account CommandOf) × (after : ℕ → F.File) × (b.newest ≡ None)
            × LeadsTo F.names F.moment F.left_since F.File.Disk a self.old.folder disks b self.new.folder after }
        // A stop at any moment leaves what was there, without the new file or with it.
        ensures any_moment { F.is_honest self.old.folder → (n : ℕ) → self.old.next ≡ Some n → result ≢ Err BeginFault.Memory
            → LeavesNames F.moment F.left_since (made n (F.names self.old.folder)) self.old.folder self.new.folder }
        ensures honest { F.is_honest self.old.folder ↔ F.is_honest self.new.folder }
        ensures cause { result ≡ Err BeginFault.Folder
            → Rises (F.failures self.old.folder) (F.failures self.new.folder) }
    {
        let Some(number) = self.next else {
            return Err(BeginFault::Numbers);
        };
        if self.files.reserve(1).is_err() {
            return Err(BeginFault::Memory);
        }
        let name = FileName {
            number,
            begun,
            goes_on,
        };
        self.next = number.checked_add(1);
        // For the proof alone.
        images_show_one_recording();
        match begin_file::<F::File, F, Recorded>(&mut self.folder, name) {
            Ok(disk) => {
                self.files.push_reserved(name);
                self.out = Some(number);
                Ok((name, disk))
            }
            Err(DiskFault) => Err(BeginFault::Folder),
        }
    }

    /// Hands out the newest file, if there is one.
    pub fn open_newest(&mut self) -> Result<Option<(FileName, F::File)>, DiskFault>
        requires { self.old.out ≡ None }
        ensures opened { IfOk result (λ found. IfSome found (λ (name, disk). F.is_honest self.old.folder
            → F.file self.old.folder name.number ≡ Kept disk)) }
        ensures out { IfOk result (λ found. IfSome found (λ (name, disk). self.new.out ≡ Some name.number)) }
        ensures newest { IfOk result (λ found. IfSome found (λ (name, disk). (front : _) × (self.old.files ≡ front ++ name ∷ []))) }
        ensures none { IfOk result (λ found. IfNone found ((self.old.files ≡ []) × (self.new ≡ self.old))) }
        ensures failed { OnErr result (self.new.out ≡ None) }
        ensures files { self.new.files ≡ self.old.files }
        ensures next { self.new.next ≡ self.old.next }
        ensures names { F.is_honest self.old.folder → F.names self.new.folder ≡ F.names self.old.folder }
        // The file that is handed out isn't with the folder, and every other is where it was.
        ensures outs { F.is_honest self.old.folder → (n : ℕ) → self.new.out ≡ Some n → F.file self.new.folder n ≡ Out }
        ensures places { F.is_honest self.old.folder → (n : ℕ) (disk : F.File) → F.file self.new.folder n ≡ Kept disk
            → F.file self.old.folder n ≡ Kept disk }
        // An event of the law leads there, whatever the answer.
        ensures leads { F.is_honest self.old.folder → (a : Account CommandOf) (disks : ℕ → F.File)
            → F.names self.old.folder ≡ names a
            → LeadsTo F.names F.moment F.left_since F.File.Disk a self.old.folder disks a self.new.folder disks }
        ensures honest { F.is_honest self.old.folder ↔ F.is_honest self.new.folder }
        ensures cause { HasCause (F.failures self.old.folder) (F.failures self.new.folder) result }
    {
        // For the proof alone.
        calls_lead_on::<F::File, F, Recorded>();
        events_lead_on::<F::File, F, Recorded>();
        let [.., name] = self.files.as_slice() else {
            return Ok(None);
        };
        let name = *name;
        match self.folder.open(name) {
            Ok(disk) => {
                self.out = Some(name.number);
                Ok(Some((name, disk)))
            }
            Err(DiskFault) => Err(DiskFault),
        }
    }

    /// Takes the file back that is handed out.
    pub fn give_back(&mut self, number: u64, disk: F::File)
        requires { self.old.out ≡ Some number }
        ensures kept { F.is_honest self.old.folder → F.file self.new.folder number ≡ Kept disk }
        ensures none { self.new.out ≡ None }
        ensures files { self.new.files ≡ self.old.files }
        ensures next { self.new.next ≡ self.old.next }
        ensures names { F.is_honest self.old.folder → F.names self.new.folder ≡ F.names self.old.folder }
        ensures others { F.is_honest self.old.folder
            → (n : ℕ) → n ≢ number → F.file self.new.folder n ≡ F.file self.old.folder n }
        // An event of the law leads there, whatever the answer.
        ensures leads { F.is_honest self.old.folder → (a : Account CommandOf) (disks : ℕ → F.File)
            → F.names self.old.folder ≡ names a
            → LeadsTo F.names F.moment F.left_since F.File.Disk a self.old.folder disks a self.new.folder disks }
        ensures honest { F.is_honest self.old.folder ↔ F.is_honest self.new.folder }
    {
        // For the proof alone.
        calls_lead_on::<F::File, F, Recorded>();
        self.folder.give_back(number, disk);
        self.out = None;
    }

    /// Whether the folder's last call failed, or the file that was given back after it, as no room is left.
    pub fn is_full(&self) -> bool {
        self.folder.is_full()
    }

    /// What stands under a name. Nothing is promised of it.
    pub fn facts(&mut self, name: FileName) -> Result<FileFacts, DiskFault>
        ensures files { self.new.files ≡ self.old.files }
        ensures next { self.new.next ≡ self.old.next }
        ensures out { self.new.out ≡ self.old.out }
        ensures names { F.is_honest self.old.folder → F.names self.new.folder ≡ F.names self.old.folder }
        ensures places { F.is_honest self.old.folder → F.file self.new.folder ≡ F.file self.old.folder }
        // An event of the law leads there, whatever the answer.
        ensures leads { F.is_honest self.old.folder → (a : Account CommandOf) (disks : ℕ → F.File)
            → F.names self.old.folder ≡ names a
            → LeadsTo F.names F.moment F.left_since F.File.Disk a self.old.folder disks a self.new.folder disks }
        ensures honest { F.is_honest self.old.folder ↔ F.is_honest self.new.folder }
        ensures cause { HasCause (F.failures self.old.folder) (F.failures self.new.folder) result }
    {
        // For the proof alone.
        calls_lead_on::<F::File, F, Recorded>();
        self.folder.facts(name)
    }

    /// Throws away a file of the list, and says whether it did: not if it is the one that is handed out. It is forgotten,
    /// also after a fault: if it is there still, the next opening finds it.
    pub fn throw_away(&mut self, name: FileName) -> Result<bool, DiskFault>
        requires { Contains self.old.files name }
        ensures removed { result ≡ Ok true → F.is_honest self.old.folder
            → F.names self.new.folder ≡ removed name.number (F.names self.old.folder) }
        ensures stays { (result ≡ Ok false) ↔ (self.old.out ≡ Some name.number) }
        ensures same { result ≡ Ok false → self.new ≡ self.old }
        ensures failed { OnErr result (F.is_honest self.old.folder
            → MayHaveRemoved name.number (F.names self.old.folder) (F.names self.new.folder)) }
        ensures forgotten { self.old.out ≢ Some name.number → self.new.files ≡ without name.number self.old.files }
        ensures next { self.new.next ≡ self.old.next }
        ensures out { self.new.out ≡ self.old.out }
        ensures places { F.is_honest self.old.folder → F.file self.new.folder ≡ F.file self.old.folder }
        // The folder stands as the account in which this file was thrown away.
        ensures thrown { result ≡ Ok true → F.is_honest self.old.folder
            → (a : Account CommandOf) (disks : ℕ → F.File) → IsNotNewest name.number a.newest
            → Stands F.names F.File.Disk a self.old.folder disks
            → Stands F.names F.File.Disk (begun_by a (Throwing name.number)) self.new.folder disks }
        // After a fault it is there, or gone, or in doubt.
        ensures unthrown { OnErr result (F.is_honest self.old.folder
            → (a : Account CommandOf) (disks : ℕ → F.File) → IsNotNewest name.number a.newest
            → Stands F.names F.File.Disk a self.old.folder disks
            → (b : Account CommandOf) × Resolves (begun_by a (Throwing name.number)) b
            × Stands F.names F.File.Disk b self.new.folder disks) }
        // An event of the law leads there.
        ensures leads { result ≡ Ok true → F.is_honest self.old.folder → (a : Account CommandOf) (disks : ℕ → F.File)
            → IsNotNewest name.number a.newest → F.names self.old.folder ≡ names a
            → LeadsTo F.names F.moment F.left_since F.File.Disk a self.old.folder disks
            (begun_by a (Throwing name.number)) self.new.folder disks }
        ensures unthrown_leads { OnErr result (F.is_honest self.old.folder → (a : Account CommandOf) (disks : ℕ → F.File)
            → IsNotNewest name.number a.newest → F.names self.old.folder ≡ names a
            → (b : Account CommandOf) × (b.newest ≡ a.newest)
            × LeadsTo F.names F.moment F.left_since F.File.Disk a self.old.folder disks b self.new.folder disks) }
        // A stop at any moment leaves what was there, with this file or without it.
        ensures any_moment { F.is_honest self.old.folder → self.old.out ≢ Some name.number
            → LeavesNames F.moment F.left_since (removed name.number (F.names self.old.folder)) self.old.folder self.new.folder }
        ensures honest { F.is_honest self.old.folder ↔ F.is_honest self.new.folder }
        ensures cause { HasCause (F.failures self.old.folder) (F.failures self.new.folder) result }
    {
        if is_number(self.out, name.number) {
            return Ok(false);
        }
        forget(&mut self.files, name.number);
        // For the proof alone.
        images_show_one_recording();
        match throw_away::<F::File, F, Recorded>(&mut self.folder, name) {
            Ok(()) => Ok(true),
            Err(DiskFault) => Err(DiskFault),
        }
    }
}

/// Whether this number is the one that is handed out.
fn is_number(out: Option<u64>, number: u64) -> bool
    ensures { (result ≡ true) ↔ (out ≡ Some number) }
{
    match out {
        Some(out) => out == number,
        None => false,
    }
}

/// Takes the files of this number out of the list.
fn forget(files: &mut Vec<FileName>, number: u64)
    ensures { files.new.items ≡ without number files.old.items }
{
    files.retain(|file| file.number != number);
}

/// Syncs a folder and lists its files.
fn list_synced<F: Folder>(alloc: Global, folder: &mut F) -> Result<Vec<FileName>, DiskFault>
    ensures all { IfOk result (λ files. F.is_honest folder.old
        → numbers_of files.items ≡ listed (F.names folder.new)) }
    ensures names { OnOk result (F.is_honest folder.old
        → F.names folder.new ≡ synced (F.names folder.old)) }
    ensures files { F.is_honest folder.old → F.file folder.new ≡ F.file folder.old }
    ensures leads { OnOk result (F.is_honest folder.old → (a : Account CommandOf) (disks : ℕ → F.File)
        → F.names folder.old ≡ names a
        → (b : Account CommandOf) × Resolves a b × (F.names folder.new ≡ names b)
        × LeadsTo F.names F.moment F.left_since F.File.Disk a folder.old disks b folder.new disks) }
    ensures honest { F.is_honest folder.old ↔ F.is_honest folder.new }
    ensures cause { OnErr result (Rises (F.failures folder.old) (F.failures folder.new)) }
{
    // For the proof alone.
    calls_lead_on::<F::File, F, Recorded>();
    events_lead_on::<F::File, F, Recorded>();
    folder.sync()?;
    folder.list(alloc)
}

/// A number above those of all files, if one is left.
fn next_number(files: &[FileName]) -> Option<u64>
    ensures { SomeIff result (highest (numbers_of files.now) + 1 < 2 ^ 64) (highest (numbers_of files.now) + 1) }
{
    let mut highest = 0;
    for file in files {
        highest = file.number.max(highest);
    }
    highest.checked_add(1)
}
