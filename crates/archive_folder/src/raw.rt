//! A folder over any raw folder, whose list comes in any order.
ghost use Rattle.std.specs.Prelude.{◌≡◌, ◌≢◌, ◌⊎◌, ◌↔◌, ◌-◌, ◌^◌, ◌<◌, ◌≤◌, ℕ, List, [], Some, None, IfOk, OnOk, OnErr, IsPermutation, true};
ghost use Rattle.std.specs.List.{Contains};
ghost use Rattle.std.specs.List.Sorted.{IsNonDecreasingBy};
ghost use Rattle.disk_model.specs.Image.{settled};
ghost use Rattle.archive_folder.specs.declared.raw.FaultKind.{FaultKind as FaultKindOf};
ghost use Rattle.archive_folder.specs.Names.{Name, Place, Out, Kept, IsKept, numbers_of, listed, made, removed, synced, AreBelow};
ghost use Rattle.archive_folder.specs.Clock.{HasLeft, NamesPass, MayHaveMade, MayHaveRemoved};

use crate::folder::fail;
use crate::{FileFacts, FileName, Folder};
use disk_model::{Disk, DiskFault};
use std::alloc::Global;

/// Why a call failed, as far as it matters to what is done then.
#[derive(Clone, Copy, Debug, PartialEq, Eq)]
pub enum FaultKind {
    /// No room is left on the device, or in what its owner may use of it.
    Full,
    /// Memory was refused.
    Memory,
    /// Anything else that the system answers.
    Refused,
}

/// A folder of the system, as its calls are documented. What it says of names and files holds if it is honest.
pub trait RawFolder {
    /// A file, opened.
    type File: Disk;

    ghost names: { Self → List Name };

    ghost file: { Self → ℕ → Place Self.File };

    ghost is_honest: { Self → Type 0 };

    ghost moment: { Self → ℕ };

    ghost left_since: { Self → ℕ → List ℕ → Type 0 };

    /// The names of ours that are there, in any order.
    fn entries(&mut self, alloc: Global) -> Result<Vec<FileName>, FaultKind>
        ensures listed { IfOk result (λ files. is_honest self.old
            → IsPermutation (numbers_of files.items) (listed (names self.old))) }
        ensures same { is_honest self.old → names self.new ≡ names self.old }
        ensures files { is_honest self.old → file self.new ≡ file self.old }
        ensures time { is_honest self.old → NamesPass (moment self.old) (moment self.new)
            (left_since self.old) (left_since self.new) (names self.old) }
        ensures honest { is_honest self.old ↔ is_honest self.new };

    /// What stands under a name. Nothing is promised of it: it is for what is thrown away.
    fn facts(&mut self, name: FileName) -> Result<FileFacts, FaultKind>
        ensures same { is_honest self.old → names self.new ≡ names self.old }
        ensures files { is_honest self.old → file self.new ≡ file self.old }
        ensures time { is_honest self.old → NamesPass (moment self.old) (moment self.new)
            (left_since self.old) (left_since self.new) (names self.old) }
        ensures honest { is_honest self.old ↔ is_honest self.new };

    /// Makes an empty file where none is, and hands it out.
    fn create_new(&mut self, name: FileName) -> Result<Self::File, FaultKind>
        requires { is_honest self.old → AreBelow name.number (names self.old) }
        ensures made { OnOk result (is_honest self.old
            → names self.new ≡ made name.number (names self.old)) }
        ensures empty { IfOk result (λ disk. is_honest self.old
            → Self.File.is_honest disk × (Self.File.state disk ≡ settled [])) }
        // Also in a folder that isn't honest the file is a new one.
        ensures fresh { IfOk result (λ disk. Self.File.is_honest disk → Self.File.state disk ≡ settled []) }
        ensures out { OnOk result (is_honest self.old → file self.new name.number ≡ Out) }
        ensures failed { OnErr result (is_honest self.old
            → (names self.new ≡ names self.old)
            ⊎ (MayHaveMade name.number (names self.old) (names self.new)
            × ((disk : Self.File) × (file self.new name.number ≡ Kept disk)
            × Self.File.is_honest disk × (Self.File.state disk ≡ settled [])))) }
        ensures others { is_honest self.old
            → (n : ℕ) → n ≢ name.number → file self.new n ≡ file self.old n }
        ensures time { is_honest self.old → NamesPass (moment self.old) (moment self.new)
            (left_since self.old) (left_since self.new) (made name.number (names self.old)) }
        ensures honest { is_honest self.old ↔ is_honest self.new };

    /// Hands a file out as it stands.
    fn open(&mut self, name: FileName) -> Result<Self::File, FaultKind>
        requires there { is_honest self.old → Contains (listed (names self.old)) name.number }
        requires kept { is_honest self.old → IsKept (file self.old name.number) }
        ensures opened { IfOk result (λ disk. is_honest self.old → file self.old name.number ≡ Kept disk) }
        ensures out { OnOk result (is_honest self.old → file self.new name.number ≡ Out) }
        ensures failed { OnErr result (is_honest self.old → file self.new name.number ≡ file self.old name.number) }
        ensures others { is_honest self.old
            → (n : ℕ) → n ≢ name.number → file self.new n ≡ file self.old n }
        ensures same { is_honest self.old → names self.new ≡ names self.old }
        ensures time { is_honest self.old → NamesPass (moment self.old) (moment self.new)
            (left_since self.old) (left_since self.new) (names self.old) }
        ensures honest { is_honest self.old ↔ is_honest self.new };

    /// Takes a file back that was handed out under this number. What it returns is why the file failed last, unless that
    /// was returned before.
    fn take_back(&mut self, number: u64, disk: Self::File) -> Option<FaultKind>
        requires { is_honest self.old → file self.old number ≡ Out }
        ensures kept { is_honest self.old → file self.new number ≡ Kept disk }
        ensures others { is_honest self.old
            → (n : ℕ) → n ≢ number → file self.new n ≡ file self.old n }
        ensures same { is_honest self.old → names self.new ≡ names self.old }
        ensures time { is_honest self.old → NamesPass (moment self.old) (moment self.new)
            (left_since self.old) (left_since self.new) (names self.old) }
        ensures honest { is_honest self.old ↔ is_honest self.new };

    /// Removes a file, and what stands beside it.
    fn remove_file(&mut self, name: FileName) -> Result<(), FaultKind>
        requires there { is_honest self.old → Contains (listed (names self.old)) name.number }
        requires kept { is_honest self.old → IsKept (file self.old name.number) }
        ensures removed { OnOk result (is_honest self.old
            → names self.new ≡ removed name.number (names self.old)) }
        ensures failed { OnErr result (is_honest self.old
            → MayHaveRemoved name.number (names self.old) (names self.new)) }
        ensures files { is_honest self.old → file self.new ≡ file self.old }
        ensures time { is_honest self.old → NamesPass (moment self.old) (moment self.new)
            (left_since self.old) (left_since self.new) (removed name.number (names self.old)) }
        ensures honest { is_honest self.old ↔ is_honest self.new };

    /// Puts on the device which names are there.
    fn sync_all(&mut self) -> Result<(), FaultKind>
        ensures synced { OnOk result (is_honest self.old
            → names self.new ≡ synced (names self.old)) }
        ensures failed { OnErr result (is_honest self.old → names self.new ≡ names self.old) }
        ensures files { is_honest self.old → file self.new ≡ file self.old }
        ensures time { is_honest self.old → NamesPass (moment self.old) (moment self.new)
            (left_since self.old) (left_since self.new) (names self.old) }
        ensures honest { is_honest self.old ↔ is_honest self.new };

    /// The same as of a `Folder`.
    ghost laws: { (folder : Self) → is_honest folder
        → HasLeft (names folder) (moment folder) (left_since folder) };
}

/// Puts names in the order of their numbers.
fn sort_by_number(files: &mut Vec<FileName>)
    ensures same { IsPermutation files.old.items files.new.items }
    ensures sorted { IsNonDecreasingBy (λ (file : FileName). file.number) files.new.items }
{
    files.sort_unstable_by_key(|file| file.number);
}

/// A folder over a raw one. It keeps why its last call failed, or that of a file that was given back after it.
#[derive(Drop)]
pub struct FileFolder<R: RawFolder> {
    raw: R,
    last: Option<FaultKind>,
    failures: u64,
}

impl<R: RawFolder> FileFolder<R> {
    ghost use Rattle.archive_folder.specs.FileFolder.{raw_of, last_of, failures_of};

    /// A folder over this one, which hasn't failed.
    pub fn over(raw: R) -> FileFolder<R>
        ensures raw { raw_of result ≡ raw }
        ensures last { last_of result ≡ None }
        ensures failures { failures_of result ≡ 0 }
    {
        FileFolder {
            raw,
            last: None,
            failures: 0,
        }
    }

    /// Why the last call of the folder failed, or of the file that was given back after it, if one did.
    pub fn last_fault(&self) -> Option<FaultKind>
        ensures { result ≡ last_of self.now }
    {
        self.last
    }

    /// The raw folder as it stands.
    pub fn into_inner(self) -> R
        ensures { result ≡ raw_of self }
    {
        let FileFolder { raw, .. } = self;
        raw
    }
}

/// Counts a failure, and keeps why.
fn note(last: &mut Option<FaultKind>, failures: &mut u64, kind: FaultKind) -> DiskFault
    ensures last { last.new ≡ Some kind }
    ensures rises { (failures.old < failures.new) ⊎ (failures.new ≡ 2 ^ 64 - 1) }
    ensures later { failures.old ≤ failures.new }
{
    *last = Some(kind);
    fail(failures)
}

impl<R: RawFolder> Folder for FileFolder<R> {
    ghost use Rattle.archive_folder.specs.FileFolder.{last_of};

    type File = R::File;

    ghost names = { λ f. R.names f.raw };

    ghost file = { λ f. R.file f.raw };

    ghost is_honest = { λ f. R.is_honest f.raw };

    ghost moment = { λ f. R.moment f.raw };

    ghost left_since = { λ f. R.left_since f.raw };

    ghost failures = { λ f. f.failures };

    ghost laws = { λ f. R.laws f.raw };

    fn list(&mut self, alloc: Global) -> Result<Vec<FileName>, DiskFault> {
        match self.raw.entries(alloc) {
            Ok(files) => {
                let mut files = files;
                sort_by_number(&mut files);
                self.last = None;
                Ok(files)
            }
            Err(kind) => Err(note(&mut self.last, &mut self.failures, kind)),
        }
    }

    fn facts(&mut self, name: FileName) -> Result<FileFacts, DiskFault> {
        match self.raw.facts(name) {
            Ok(facts) => {
                self.last = None;
                Ok(facts)
            }
            Err(kind) => Err(note(&mut self.last, &mut self.failures, kind)),
        }
    }

    fn make(&mut self, name: FileName) -> Result<R::File, DiskFault> {
        match self.raw.create_new(name) {
            Ok(disk) => {
                self.last = None;
                Ok(disk)
            }
            Err(kind) => Err(note(&mut self.last, &mut self.failures, kind)),
        }
    }

    fn open(&mut self, name: FileName) -> Result<R::File, DiskFault> {
        match self.raw.open(name) {
            Ok(disk) => {
                self.last = None;
                Ok(disk)
            }
            Err(kind) => Err(note(&mut self.last, &mut self.failures, kind)),
        }
    }

    fn give_back(&mut self, number: u64, disk: R::File) {
        if let Some(kind) = self.raw.take_back(number, disk) {
            self.last = Some(kind);
        }
    }

    fn remove(&mut self, name: FileName) -> Result<(), DiskFault> {
        match self.raw.remove_file(name) {
            Ok(()) => {
                self.last = None;
                Ok(())
            }
            Err(kind) => Err(note(&mut self.last, &mut self.failures, kind)),
        }
    }

    fn sync(&mut self) -> Result<(), DiskFault> {
        match self.raw.sync_all() {
            Ok(()) => {
                self.last = None;
                Ok(())
            }
            Err(kind) => Err(note(&mut self.last, &mut self.failures, kind)),
        }
    }

    fn is_full(&self) -> bool
        ensures full { (result ≡ true) ↔ (last_of self.now ≡ Some FaultKindOf.Full) }
    {
        match self.last {
            Some(FaultKind::Full) => true,
            _ => false,
        }
    }
}
