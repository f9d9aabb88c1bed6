//! A folder as its callers see it.
ghost use Rattle.std.specs.Prelude.{◌≡◌, ◌≢◌, ◌⊎◌, ◌↔◌, ◌-◌, ◌^◌, ◌<◌, ◌≤◌, ℕ, List, [], IfOk, OnOk, OnErr};
ghost use Rattle.std.specs.List.{Contains};
ghost use Rattle.disk_model.specs.Image.{settled};
ghost use Rattle.disk_model.specs.Fault.{HasCause};
ghost use Rattle.archive_folder.specs.Names.{Name, Place, Out, Kept, IsKept, numbers_of, listed, made, removed, synced, AreBelow};
ghost use Rattle.archive_folder.specs.Clock.{HasLeft, NamesPass, MayHaveMade, MayHaveRemoved};

use crate::{FileFacts, FileName};
use disk_model::{Disk, DiskFault};
use std::alloc::Global;

/// A folder of files under numbers. What it says of names and files holds if it is honest; that a fault has a cause
/// holds always. A file that is handed out is its holder's alone until it is given back.
pub trait Folder {
    /// A file, opened.
    type File: Disk;

    /// What is known of each name, in the order of the numbers.
    ghost names: { Self → List Name };

    /// Where the file is that belongs to a number.
    ghost file: { Self → ℕ → Place Self.File };

    ghost is_honest: { Self → Type 0 };

    /// The moment, as a number that doesn't fall.
    ghost moment: { Self → ℕ };

    /// What stops since a moment may have left of the names, inside a call or between two.
    ghost left_since: { Self → ℕ → List ℕ → Type 0 };

    /// How often it has failed.
    ghost failures: { Self → ℕ };

    /// The files that are there, in the order of their numbers.
    fn list(&mut self, alloc: Global) -> Result<Vec<FileName>, DiskFault>
        ensures listed { IfOk result (λ files. is_honest self.old
            → numbers_of files.items ≡ listed (names self.old)) }
        ensures same { is_honest self.old → names self.new ≡ names self.old }
        ensures files { is_honest self.old → file self.new ≡ file self.old }
        ensures time { is_honest self.old → NamesPass (moment self.old) (moment self.new)
            (left_since self.old) (left_since self.new) (names self.old) }
        ensures honest { is_honest self.old ↔ is_honest self.new }
        ensures cause { HasCause (failures self.old) (failures self.new) result };

    /// What stands under a name. Nothing is promised of it: it is for what is thrown away.
    fn facts(&mut self, name: FileName) -> Result<FileFacts, DiskFault>
        ensures same { is_honest self.old → names self.new ≡ names self.old }
        ensures files { is_honest self.old → file self.new ≡ file self.old }
        ensures time { is_honest self.old → NamesPass (moment self.old) (moment self.new)
            (left_since self.old) (left_since self.new) (names self.old) }
        ensures honest { is_honest self.old ↔ is_honest self.new }
        ensures cause { HasCause (failures self.old) (failures self.new) result };

    /// Makes an empty file, and hands it out. Its name may be lost in a stop until the folder is synced.
    fn make(&mut self, name: FileName) -> Result<Self::File, DiskFault>
        requires { is_honest self.old → AreBelow name.number (names self.old) }
        ensures made { OnOk result (is_honest self.old
            → names self.new ≡ made name.number (names self.old)) }
        ensures empty { IfOk result (λ disk. is_honest self.old
            → Self.File.is_honest disk × (Self.File.state disk ≡ settled [])) }
        // Also in a folder that isn't honest the file is a new one.
        ensures fresh { IfOk result (λ disk. Self.File.is_honest disk → Self.File.state disk ≡ settled []) }
        ensures out { OnOk result (is_honest self.old → file self.new name.number ≡ Out) }
        ensures failed { OnErr result (is_honest self.old
            → (names self.new ≡ names self.old)
            ⊎ (MayHaveMade name.number (names self.old) (names self.new)
            × ((disk : Self.File) × (file self.new name.number ≡ Kept disk)
            × Self.File.is_honest disk × (Self.File.state disk ≡ settled [])))) }
        ensures others { is_honest self.old
            → (n : ℕ) → n ≢ name.number → file self.new n ≡ file self.old n }
        ensures time { is_honest self.old → NamesPass (moment self.old) (moment self.new)
            (left_since self.old) (left_since self.new) (made name.number (names self.old)) }
        ensures honest { is_honest self.old ↔ is_honest self.new }
        ensures cause { HasCause (failures self.old) (failures self.new) result };

    /// Hands a file out as it stands.
    fn open(&mut self, name: FileName) -> Result<Self::File, DiskFault>
        requires there { is_honest self.old → Contains (listed (names self.old)) name.number }
        requires kept { is_honest self.old → IsKept (file self.old name.number) }
        ensures opened { IfOk result (λ disk. is_honest self.old → file self.old name.number ≡ Kept disk) }
        ensures out { OnOk result (is_honest self.old → file self.new name.number ≡ Out) }
        ensures failed { OnErr result (is_honest self.old → file self.new name.number ≡ file self.old name.number) }
        ensures others { is_honest self.old
            → (n : ℕ) → n ≢ name.number → file self.new n ≡ file self.old n }
        ensures same { is_honest self.old → names self.new ≡ names self.old }
        ensures time { is_honest self.old → NamesPass (moment self.old) (moment self.new)
            (left_since self.old) (left_since self.new) (names self.old) }
        ensures honest { is_honest self.old ↔ is_honest self.new }
        ensures cause { HasCause (failures self.old) (failures self.new) result };

    /// Takes a file back that was handed out under this number.
    fn give_back(&mut self, number: u64, disk: Self::File)
        requires { is_honest self.old → file self.old number ≡ Out }
        ensures kept { is_honest self.old → file self.new number ≡ Kept disk }
        ensures others { is_honest self.old
            → (n : ℕ) → n ≢ number → file self.new n ≡ file self.old n }
        ensures same { is_honest self.old → names self.new ≡ names self.old }
        ensures time { is_honest self.old → NamesPass (moment self.old) (moment self.new)
            (left_since self.old) (left_since self.new) (names self.old) }
        ensures honest { is_honest self.old ↔ is_honest self.new }
        ensures later { failures self.old ≤ failures self.new };

    /// Removes a file that isn't handed out. A stop may bring it back until the folder is synced.
    fn remove(&mut self, name: FileName) -> Result<(), DiskFault>
        requires there { is_honest self.old → Contains (listed (names self.old)) name.number }
        requires kept { is_honest self.old → IsKept (file self.old name.number) }
        ensures removed { OnOk result (is_honest self.old
            → names self.new ≡ removed name.number (names self.old)) }
        ensures failed { OnErr result (is_honest self.old
            → MayHaveRemoved name.number (names self.old) (names self.new)) }
        ensures files { is_honest self.old → file self.new ≡ file self.old }
        ensures time { is_honest self.old → NamesPass (moment self.old) (moment self.new)
            (left_since self.old) (left_since self.new) (removed name.number (names self.old)) }
        ensures honest { is_honest self.old ↔ is_honest self.new }
        ensures cause { HasCause (failures self.old) (failures self.new) result };

    /// After a sync that succeeds every name that is there stays, and none comes back. One that fails leaves no
    /// further names.
    fn sync(&mut self) -> Result<(), DiskFault>
        ensures synced { OnOk result (is_honest self.old
            → names self.new ≡ synced (names self.old)) }
        ensures failed { OnErr result (is_honest self.old → names self.new ≡ names self.old) }
        ensures files { is_honest self.old → file self.new ≡ file self.old }
        ensures time { is_honest self.old → NamesPass (moment self.old) (moment self.new)
            (left_since self.old) (left_since self.new) (names self.old) }
        ensures honest { is_honest self.old ↔ is_honest self.new }
        ensures cause { HasCause (failures self.old) (failures self.new) result };

    /// Whether the last call of the folder, or of the file that was given back last, failed as no room is left. Nothing is
    /// promised of it: it is for what is thrown away.
    fn is_full(&self) -> bool;

    /// What stops may leave of an honest folder's names at each moment, whatever its calls.
    ghost laws: { (folder : Self) → is_honest folder
        → HasLeft (names folder) (moment folder) (left_since folder) };
}

/// Counts a failure.
pub(crate) fn fail(failures: &mut u64) -> DiskFault
    ensures rises { (failures.old < failures.new) ⊎ (failures.new ≡ 2 ^ 64 - 1) }
    ensures later { failures.old ≤ failures.new }
{
    *failures = failures.saturating_add(1);
    DiskFault
}
