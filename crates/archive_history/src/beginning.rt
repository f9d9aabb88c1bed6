//! How a file is begun.
ghost use Rattle.std.specs.Prelude.{◌≡◌, ◌≢◌, ◌↔◌, [], None, ℕ, IfOk, OnOk, OnErr};
ghost use Rattle.disk_model.specs.Fault.{HasCause};
ghost use Rattle.disk_model.specs.Image.{settled};
ghost use Rattle.archive_folder.specs.Names.{AreBelow, Out, made, synced};
ghost use Rattle.archive_history.specs.Archive.{Archive, Making, begun_by, names, with_new, Resolves};
ghost use Rattle.archive_history.specs.Accounted.{StandsAs};
ghost use Rattle.archive_history.specs.History.{Point, point, with_disk, LeavesNames, MayHaveBegun};
ghost use Rattle.archive_history.specs.Leading.{Leads};

use crate::folders_stand_as_their_account;
use archive_folder::{FileName, Folder};
use disk_model::{Disk, DiskFault};
use history::Recordings;

/// Makes an empty file, and syncs the folder: no stop takes away the file's name after that, so that what is written
/// in it may be acknowledged. After a fault the file may be there, empty and with the folder, and this number isn't free.
pub fn begin_file<D: Disk, F: Folder<File = D>, B: Recordings>(
    folder: &mut F,
    name: FileName,
) -> Result<D, DiskFault>
    requires { F.is_honest folder.old → AreBelow name.number (F.names folder.old) }

    // The folder stands as an account says that has the new file, and its name stays.
    ensures begun { IfOk result (λ disk. F.is_honest folder.old
        → (first : B.State) (a : Archive B.Command) (disks : ℕ → D)
        → B.shows [] first → a.newest ≡ None
        → StandsAs F.names D.Disk B.shows B.next first a (point folder.old disks)
        → StandsAs F.names D.Disk B.shows B.next first (with_new name.number a)
        (point folder.new (with_disk name.number disk disks))) }
    ensures empty { IfOk result (λ disk. F.is_honest folder.old
        → D.is_honest disk × (D.state disk ≡ settled [])) }
    // Also in a folder that isn't honest the file is a new one.
    ensures fresh { IfOk result (λ disk. D.is_honest disk → D.state disk ≡ settled []) }
    ensures out { OnOk result (F.is_honest folder.old → F.file folder.new name.number ≡ Out) }
    ensures names { OnOk result (F.is_honest folder.old
        → F.names folder.new ≡ synced (made name.number (F.names folder.old))) }

    // After a fault it stands as an account says that may have the new file, empty.
    ensures failed { OnErr result (F.is_honest folder.old
        → (first : B.State) (a : Archive B.Command) (disks : ℕ → D)
        → B.shows [] first → a.newest ≡ None
        → StandsAs F.names D.Disk B.shows B.next first a (point folder.old disks)
        → (b : Archive B.Command) × (after : ℕ → D) × Resolves (begun_by a (Making name.number)) b
        × StandsAs F.names D.Disk B.shows B.next first b (point folder.new after)) }

    ensures kept { OnErr result (F.is_honest folder.old
        → MayHaveBegun D.Disk name.number (F.names folder.old) (F.names folder.new) (F.file folder.new)) }

    // Events of the law lead there, and after a fault to an account in which no file is written.
    ensures leads { IfOk result (λ disk. F.is_honest folder.old
        → (first : B.State) (a : Archive B.Command) (disks : ℕ → D)
        → a.newest ≡ None → F.names folder.old ≡ names a
        → Leads F.names F.moment F.left_since D.Disk B.shows B.accepts B.next
        first a (point folder.old disks)
        (with_new name.number a) (point folder.new (with_disk name.number disk disks))) }
    ensures failed_leads { OnErr result (F.is_honest folder.old
        → (first : B.State) (a : Archive B.Command) (disks : ℕ → D)
        → a.newest ≡ None → F.names folder.old ≡ names a
        → (b : Archive B.Command) × (after : ℕ → D) × (b.newest ≡ None)
        × Leads F.names F.moment F.left_since D.Disk B.shows B.accepts B.next
        first a (point folder.old disks) b (point folder.new after)) }

    // A stop at any moment leaves what was there, without the new file or with it.
    ensures any_moment { F.is_honest folder.old
        → LeavesNames F.moment F.left_since (made name.number (F.names folder.old)) folder.old folder.new }
    ensures others { F.is_honest folder.old
        → (n : ℕ) → n ≢ name.number → F.file folder.new n ≡ F.file folder.old n }
    ensures honest { F.is_honest folder.old ↔ F.is_honest folder.new }
    ensures cause { HasCause (F.failures folder.old) (F.failures folder.new) result }
{
    folders_stand_as_their_account::<D, F, B>();
    match folder.make(name) {
        Ok(disk) => match folder.sync() {
            Ok(()) => Ok(disk),
            Err(fault) => {
                folder.give_back(name.number, disk);
                Err(fault)
            }
        },
        Err(fault) => Err(fault),
    }
}
