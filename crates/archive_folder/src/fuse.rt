//! A folder that fails at a chosen call, or from one on.
ghost use Rattle.std.specs.Prelude.{◌≡◌, ◌≢◌, ◌⊎◌, ◌↔◌, ◌+◌, ◌-◌, ◌^◌, ◌<◌, ◌≤◌, ℕ, min, IfOk, OnOk, OnErr, IsErr, IsTrue, []};
ghost use Rattle.std.specs.List.{Contains};
ghost use Rattle.disk_model.specs.Image.{settled};
ghost use Rattle.disk_model.specs.Fault.{HasCause};
ghost use Rattle.archive_folder.specs.Names.{Out, Kept, IsKept, numbers_of, listed, made, removed, synced, AreBelow};
ghost use Rattle.archive_folder.specs.Clock.{NamesPass, MayHaveMade, MayHaveRemoved};
ghost use Rattle.archive_folder.specs.Fuse.{is_among, call_after};

use crate::folder::fail;
use crate::{FileFacts, FileName, Folder};
use disk_model::DiskFault;
use std::alloc::Global;

/// A folder whose calls with some numbers fail and do nothing. They are counted from 1; a file that is given back isn't
/// one of them.
#[derive(Drop)]
pub struct FuseFolder<F: Folder> {
    folder: F,
    first: u64,
    last: u64,
    made: u64,
    failures: u64,
}

impl<F: Folder> FuseFolder<F> {
    ghost use Rattle.archive_folder.specs.FuseFolder.{folder_of, first_of, last_of, calls_made, own_failures};

    /// Every call after the first `calls` fails.
    pub fn stop_after(folder: F, calls: u64) -> FuseFolder<F>
        ensures folder { folder_of result ≡ folder }
        ensures first { first_of result ≡ min (calls + 1) (2 ^ 64 - 1) }
        ensures last { last_of result ≡ 2 ^ 64 - 1 }
        ensures made { calls_made result ≡ 0 }
        ensures failures { own_failures result ≡ 0 }
    {
        FuseFolder::over(folder, calls.saturating_add(1), u64::MAX)
    }

    /// One call fails.
    pub fn fail_once(folder: F, call: u64) -> FuseFolder<F>
        ensures folder { folder_of result ≡ folder }
        ensures first { first_of result ≡ call }
        ensures last { last_of result ≡ call }
        ensures made { calls_made result ≡ 0 }
        ensures failures { own_failures result ≡ 0 }
    {
        FuseFolder::over(folder, call, call)
    }

    /// No call is made yet.
    fn over(folder: F, first: u64, last: u64) -> FuseFolder<F>
        ensures folder { folder_of result ≡ folder }
        ensures first { first_of result ≡ first }
        ensures last { last_of result ≡ last }
        ensures made { calls_made result ≡ 0 }
        ensures failures { own_failures result ≡ 0 }
    {
        FuseFolder {
            folder,
            first,
            last,
            made: 0,
            failures: 0,
        }
    }

    /// The folder as it stands.
    pub fn into_inner(self) -> F
        ensures { result ≡ folder_of self }
    {
        let FuseFolder { folder, .. } = self;
        folder
    }
}

/// Counts a call, and fails if its number is from `first` up to `last`.
fn spend(first: u64, last: u64, made: &mut u64, failures: &mut u64) -> Result<(), DiskFault>
    ensures blown { IsErr result ↔ IsTrue (is_among first last (call_after made.old)) }
    ensures made { made.new ≡ call_after made.old }
    ensures later { failures.old ≤ failures.new }
    ensures rises { OnErr result ((failures.old < failures.new) ⊎ (failures.new ≡ 2 ^ 64 - 1)) }
    ensures same { OnOk result (failures.new ≡ failures.old) }
{
    *made = made.saturating_add(1);
    if first <= *made && *made <= last {
        return Err(fail(failures));
    }
    Ok(())
}

impl<F: Folder> Folder for FuseFolder<F> {
    ghost use Rattle.archive_folder.specs.FuseFolder.{folder_of, failures_of, Spends, IsSameFuse};

    type File = F::File;

    ghost names = { λ f. F.Folder.names f.folder };

    ghost file = { λ f. F.Folder.file f.folder };

    ghost is_honest = { λ f. F.Folder.is_honest f.folder };

    ghost moment = { λ f. F.Folder.moment f.folder };

    ghost left_since = { λ f. F.Folder.left_since f.folder };

    ghost failures = { failures_of F.Folder.failures };

    ghost laws = { λ f. F.Folder.laws f.folder };

    fn list(&mut self, alloc: Global) -> Result<Vec<FileName>, DiskFault>
        ensures listed { IfOk result (λ files. F.is_honest (folder_of self.old)
            → numbers_of files.items ≡ listed (F.names (folder_of self.old))) }
        ensures same { F.is_honest (folder_of self.old) → F.names (folder_of self.new) ≡ F.names (folder_of self.old) }
        ensures files { F.is_honest (folder_of self.old) → F.file (folder_of self.new) ≡ F.file (folder_of self.old) }
        ensures time { F.is_honest (folder_of self.old) → NamesPass (F.moment (folder_of self.old)) (F.moment (folder_of self.new))
            (F.left_since (folder_of self.old)) (F.left_since (folder_of self.new)) (F.names (folder_of self.old)) }
        ensures honest { F.is_honest (folder_of self.old) ↔ F.is_honest (folder_of self.new) }
        ensures cause { HasCause (failures_of F.failures self.old) (failures_of F.failures self.new) result }
        ensures spends { Spends F.failures self.old self.new result }
    {
        spend(self.first, self.last, &mut self.made, &mut self.failures)?;
        self.folder.list(alloc)
    }

    fn facts(&mut self, name: FileName) -> Result<FileFacts, DiskFault>
        ensures same { F.is_honest (folder_of self.old) → F.names (folder_of self.new) ≡ F.names (folder_of self.old) }
        ensures files { F.is_honest (folder_of self.old) → F.file (folder_of self.new) ≡ F.file (folder_of self.old) }
        ensures time { F.is_honest (folder_of self.old) → NamesPass (F.moment (folder_of self.old)) (F.moment (folder_of self.new))
            (F.left_since (folder_of self.old)) (F.left_since (folder_of self.new)) (F.names (folder_of self.old)) }
        ensures honest { F.is_honest (folder_of self.old) ↔ F.is_honest (folder_of self.new) }
        ensures cause { HasCause (failures_of F.failures self.old) (failures_of F.failures self.new) result }
        ensures spends { Spends F.failures self.old self.new result }
    {
        spend(self.first, self.last, &mut self.made, &mut self.failures)?;
        self.folder.facts(name)
    }

    fn make(&mut self, name: FileName) -> Result<F::File, DiskFault>
        requires { F.is_honest (folder_of self.old) → AreBelow name.number (F.names (folder_of self.old)) }
        ensures made { OnOk result (F.is_honest (folder_of self.old)
            → F.names (folder_of self.new) ≡ made name.number (F.names (folder_of self.old))) }
        ensures empty { IfOk result (λ disk. F.is_honest (folder_of self.old)
            → F.File.is_honest disk × (F.File.state disk ≡ settled [])) }
        ensures fresh { IfOk result (λ disk. F.File.is_honest disk → F.File.state disk ≡ settled []) }
        ensures out { OnOk result (F.is_honest (folder_of self.old) → F.file (folder_of self.new) name.number ≡ Out) }
        ensures failed { OnErr result (F.is_honest (folder_of self.old)
            → (F.names (folder_of self.new) ≡ F.names (folder_of self.old))
            ⊎ (MayHaveMade name.number (F.names (folder_of self.old)) (F.names (folder_of self.new))
            × ((disk : F.File) × (F.file (folder_of self.new) name.number ≡ Kept disk)
            × F.File.is_honest disk × (F.File.state disk ≡ settled [])))) }
        ensures others { F.is_honest (folder_of self.old)
            → (n : ℕ) → n ≢ name.number → F.file (folder_of self.new) n ≡ F.file (folder_of self.old) n }
        ensures time { F.is_honest (folder_of self.old) → NamesPass (F.moment (folder_of self.old)) (F.moment (folder_of self.new))
            (F.left_since (folder_of self.old)) (F.left_since (folder_of self.new)) (made name.number (F.names (folder_of self.old))) }
        ensures honest { F.is_honest (folder_of self.old) ↔ F.is_honest (folder_of self.new) }
        ensures cause { HasCause (failures_of F.failures self.old) (failures_of F.failures self.new) result }
        ensures spends { Spends F.failures self.old self.new result }
    {
        spend(self.first, self.last, &mut self.made, &mut self.failures)?;
        self.folder.make(name)
    }

    fn open(&mut self, name: FileName) -> Result<F::File, DiskFault>
        requires there { F.is_honest (folder_of self.old) → Contains (listed (F.names (folder_of self.old))) name.number }
        requires kept { F.is_honest (folder_of self.old) → IsKept (F.file (folder_of self.old) name.number) }
        ensures opened { IfOk result (λ disk. F.is_honest (folder_of self.old) → F.file (folder_of self.old) name.number ≡ Kept disk) }
        ensures out { OnOk result (F.is_honest (folder_of self.old) → F.file (folder_of self.new) name.number ≡ Out) }
        ensures failed { OnErr result (F.is_honest (folder_of self.old)
            → F.file (folder_of self.new) name.number ≡ F.file (folder_of self.old) name.number) }
        ensures others { F.is_honest (folder_of self.old)
            → (n : ℕ) → n ≢ name.number → F.file (folder_of self.new) n ≡ F.file (folder_of self.old) n }
        ensures same { F.is_honest (folder_of self.old) → F.names (folder_of self.new) ≡ F.names (folder_of self.old) }
        ensures time { F.is_honest (folder_of self.old) → NamesPass (F.moment (folder_of self.old)) (F.moment (folder_of self.new))
            (F.left_since (folder_of self.old)) (F.left_since (folder_of self.new)) (F.names (folder_of self.old)) }
        ensures honest { F.is_honest (folder_of self.old) ↔ F.is_honest (folder_of self.new) }
        ensures cause { HasCause (failures_of F.failures self.old) (failures_of F.failures self.new) result }
        ensures spends { Spends F.failures self.old self.new result }
    {
        spend(self.first, self.last, &mut self.made, &mut self.failures)?;
        self.folder.open(name)
    }

    fn give_back(&mut self, number: u64, disk: F::File)
        requires { F.is_honest (folder_of self.old) → F.file (folder_of self.old) number ≡ Out }
        ensures kept { F.is_honest (folder_of self.old) → F.file (folder_of self.new) number ≡ Kept disk }
        ensures others { F.is_honest (folder_of self.old)
            → (n : ℕ) → n ≢ number → F.file (folder_of self.new) n ≡ F.file (folder_of self.old) n }
        ensures same { F.is_honest (folder_of self.old) → F.names (folder_of self.new) ≡ F.names (folder_of self.old) }
        ensures time { F.is_honest (folder_of self.old) → NamesPass (F.moment (folder_of self.old)) (F.moment (folder_of self.new))
            (F.left_since (folder_of self.old)) (F.left_since (folder_of self.new)) (F.names (folder_of self.old)) }
        ensures honest { F.is_honest (folder_of self.old) ↔ F.is_honest (folder_of self.new) }
        ensures later { failures_of F.failures self.old ≤ failures_of F.failures self.new }
        ensures fuse { IsSameFuse self.old self.new }
    {
        self.folder.give_back(number, disk);
    }

    fn remove(&mut self, name: FileName) -> Result<(), DiskFault>
        requires there { F.is_honest (folder_of self.old) → Contains (listed (F.names (folder_of self.old))) name.number }
        requires kept { F.is_honest (folder_of self.old) → IsKept (F.file (folder_of self.old) name.number) }
        ensures removed { OnOk result (F.is_honest (folder_of self.old)
            → F.names (folder_of self.new) ≡ removed name.number (F.names (folder_of self.old))) }
        ensures failed { OnErr result (F.is_honest (folder_of self.old)
            → MayHaveRemoved name.number (F.names (folder_of self.old)) (F.names (folder_of self.new))) }
        ensures files { F.is_honest (folder_of self.old) → F.file (folder_of self.new) ≡ F.file (folder_of self.old) }
        ensures time { F.is_honest (folder_of self.old) → NamesPass (F.moment (folder_of self.old)) (F.moment (folder_of self.new))
            (F.left_since (folder_of self.old)) (F.left_since (folder_of self.new)) (removed name.number (F.names (folder_of self.old))) }
        ensures honest { F.is_honest (folder_of self.old) ↔ F.is_honest (folder_of self.new) }
        ensures cause { HasCause (failures_of F.failures self.old) (failures_of F.failures self.new) result }
        ensures spends { Spends F.failures self.old self.new result }
    {
        spend(self.first, self.last, &mut self.made, &mut self.failures)?;
        self.folder.remove(name)
    }

    fn sync(&mut self) -> Result<(), DiskFault>
        ensures synced { OnOk result (F.is_honest (folder_of self.old)
            → F.names (folder_of self.new) ≡ synced (F.names (folder_of self.old))) }
        ensures failed { OnErr result (F.is_honest (folder_of self.old) → F.names (folder_of self.new) ≡ F.names (folder_of self.old)) }
        ensures files { F.is_honest (folder_of self.old) → F.file (folder_of self.new) ≡ F.file (folder_of self.old) }
        ensures time { F.is_honest (folder_of self.old) → NamesPass (F.moment (folder_of self.old)) (F.moment (folder_of self.new))
            (F.left_since (folder_of self.old)) (F.left_since (folder_of self.new)) (F.names (folder_of self.old)) }
        ensures honest { F.is_honest (folder_of self.old) ↔ F.is_honest (folder_of self.new) }
        ensures cause { HasCause (failures_of F.failures self.old) (failures_of F.failures self.new) result }
        ensures spends { Spends F.failures self.old self.new result }
    {
        spend(self.first, self.last, &mut self.made, &mut self.failures)?;
        self.folder.sync()
    }

    /// Whether the folder was full that it passes calls on to.
    fn is_full(&self) -> bool {
        self.folder.is_full()
    }
}
