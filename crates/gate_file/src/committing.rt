//! Pages are committed: the one byte that decides is written once they lie on the disk.
ghost use Rattle.std.specs.Prelude.{◌≡◌, ◌≢◌, ◌↔◌, ◌+◌, ◌-◌, ◌^◌, ◌<◌, length, take, OnOk, IsErr};
ghost use Rattle.disk_model.specs.Leaving.{LeavesOnly};
ghost use Rattle.disk_model.specs.Frame.{Frame};
ghost use Rattle.gate_file.specs.Commit.{CommitsToEither};
ghost use Rattle.gate_file.specs.Gate.{IsAppend, IsReadyAt, IsStaged, IsStagedWhole, HasGrown, pages_in, staged_in};

use crate::steps::{CAPTURE, settle, write_synced};
use disk_model::{Disk, DiskFault};

/// Commits pages. In the slice one byte 00 follows them. The first `end` bytes are committed.
pub(crate) fn append_pages<D: Disk>(disk: &mut D, end: u64, bytes: &[u8]) -> Result<(), DiskFault>
    requires pages { IsAppend bytes.now }
    requires end { end < 2 ^ 63 }
    requires ready { D.is_honest disk.old → IsReadyAt end (D.state disk.old) }
    ensures grown { OnOk result (D.is_honest disk.old
        → HasGrown end (length bytes.now - 1) (pages_in bytes.now) (D.state disk.old) (D.state disk.new)) }
    ensures short { OnOk result (end + length bytes.now < 2 ^ 63) }
    ensures front { D.is_honest disk.old
        → take end (D.state disk.new).contents ≡ take end (D.state disk.old).contents }
    ensures any_moment { D.is_honest disk.old → LeavesOnly D.Disk disk.old disk.new
        (CommitsToEither (take end (D.state disk.old).contents) (pages_in bytes.now)) }
    ensures frame { Frame D.Disk disk.old disk.new (IsErr result) }
{
    // The pages lie on the disk after the closed byte before it is opened.
    write_synced(disk, end + 1, &bytes[1..])?;
    write_synced(disk, end, &[CAPTURE])
}

/// Commits what is staged after the first `end` bytes.
pub(crate) fn commit_staged<D: Disk>(disk: &mut D, end: u64, staged: u64) -> Result<(), DiskFault>
    requires short { end + staged < 2 ^ 63 }
    requires staged { D.is_honest disk.old → IsStaged end staged (D.state disk.old) }
    requires whole { D.is_honest disk.old → IsStagedWhole end staged (D.state disk.old) }
    ensures grown { OnOk result (D.is_honest disk.old → HasGrown end staged
        (staged_in end staged (D.state disk.old).contents) (D.state disk.old) (D.state disk.new)) }
    ensures front { D.is_honest disk.old
        → take end (D.state disk.new).contents ≡ take end (D.state disk.old).contents }
    ensures any_moment { D.is_honest disk.old → LeavesOnly D.Disk disk.old disk.new
        (CommitsToEither (take end (D.state disk.old).contents)
        (staged_in end staged (D.state disk.old).contents)) }
    ensures frame { Frame D.Disk disk.old disk.new (IsErr result) }
{
    settle(disk)?;
    write_synced(disk, end, &[CAPTURE])
}
