//! How a file is thrown away.
ghost use Rattle.std.specs.Prelude.{◌≡◌, ◌↔◌, [], ℕ, OnOk, OnErr};
ghost use Rattle.disk_model.specs.Fault.{HasCause};
ghost use Rattle.archive_folder.specs.Clock.{MayHaveRemoved};
ghost use Rattle.std.specs.List.{Contains};
ghost use Rattle.archive_folder.specs.Names.{IsKept, listed, removed};
ghost use Rattle.archive_history.specs.Archive.{Archive, Throwing, begun_by, names, Resolves};
ghost use Rattle.archive_history.specs.Accounted.{StandsAs};
ghost use Rattle.archive_history.specs.History.{point, IsNotNewest, LeavesNames};
ghost use Rattle.archive_history.specs.Leading.{Leads};

use crate::folders_stand_as_their_account;
use archive_folder::{FileName, Folder};
use disk_model::{Disk, DiskFault};
use history::Recordings;

/// Removes a file that isn't the newest. Until the folder is synced a stop may bring it back, whole.
pub fn throw_away<D: Disk, F: Folder<File = D>, B: Recordings>(
    folder: &mut F,
    name: FileName,
) -> Result<(), DiskFault>
    requires there { F.is_honest folder.old → Contains (listed (F.names folder.old)) name.number }
    requires kept { F.is_honest folder.old → IsKept (F.file folder.old name.number) }

    // The folder stands as an account says in which this file was thrown away.
    ensures thrown { OnOk result (F.is_honest folder.old
        → (first : B.State) (a : Archive B.Command) (disks : ℕ → D)
        → B.shows [] first
        → StandsAs F.names D.Disk B.shows B.next first a (point folder.old disks)
        → IsNotNewest name.number a.newest
        → StandsAs F.names D.Disk B.shows B.next first (begun_by a (Throwing name.number)) (point folder.new disks)) }
    ensures names { OnOk result (F.is_honest folder.old
        → F.names folder.new ≡ removed name.number (F.names folder.old)) }

    // After a fault it is there, or gone, or in doubt.
    ensures failed { OnErr result (F.is_honest folder.old
        → (first : B.State) (a : Archive B.Command) (disks : ℕ → D)
        → B.shows [] first
        → StandsAs F.names D.Disk B.shows B.next first a (point folder.old disks)
        → IsNotNewest name.number a.newest
        → (b : Archive B.Command) × Resolves (begun_by a (Throwing name.number)) b
        × StandsAs F.names D.Disk B.shows B.next first b (point folder.new disks)) }
    ensures failed_names { OnErr result (F.is_honest folder.old
        → MayHaveRemoved name.number (F.names folder.old) (F.names folder.new)) }

    // An event of the law leads there.
    ensures leads { OnOk result (F.is_honest folder.old
        → (first : B.State) (a : Archive B.Command) (disks : ℕ → D)
        → IsNotNewest name.number a.newest → F.names folder.old ≡ names a
        → Leads F.names F.moment F.left_since D.Disk B.shows B.accepts B.next
        first a (point folder.old disks) (begun_by a (Throwing name.number)) (point folder.new disks)) }
    ensures failed_leads { OnErr result (F.is_honest folder.old
        → (first : B.State) (a : Archive B.Command) (disks : ℕ → D)
        → IsNotNewest name.number a.newest → F.names folder.old ≡ names a
        → (b : Archive B.Command) × (b.newest ≡ a.newest)
        × Leads F.names F.moment F.left_since D.Disk B.shows B.accepts B.next
        first a (point folder.old disks) b (point folder.new disks)) }

    // A stop at any moment leaves what was there, with this file or without it.
    ensures any_moment { F.is_honest folder.old
        → LeavesNames F.moment F.left_since (removed name.number (F.names folder.old)) folder.old folder.new }
    ensures files { F.is_honest folder.old → F.file folder.new ≡ F.file folder.old }
    ensures honest { F.is_honest folder.old ↔ F.is_honest folder.new }
    ensures cause { HasCause (F.failures folder.old) (F.failures folder.new) result }
{
    folders_stand_as_their_account::<D, F, B>();
    match folder.remove(name) {
        Ok(()) => Ok(()),
        Err(fault) => Err(fault),
    }
}
