//! A file is cut to its committed bytes.
ghost use Rattle.std.specs.Prelude.{◌≡◌, ◌≢◌, ◌↔◌, ◌+◌, ◌^◌, ◌<◌, ◌≤◌, ◌++◌, length, take, OnOk, IsErr};
ghost use Rattle.disk_model.specs.Image.{IsSettled};
ghost use Rattle.disk_model.specs.Leaving.{LeavesOnly};
ghost use Rattle.disk_model.specs.Frame.{Frame};
ghost use Rattle.gate_file.specs.Commit.{CommitsTo, CommitsToEither};
ghost use Rattle.gate_file.specs.Gate.{EachImage, IsReadyAt, IsStaged, IsStagedWhole, staged_in};

use crate::steps::{CAPTURE, cut_synced, write_synced};
use disk_model::{Disk, DiskFault};

/// Cuts what stands after the first `end` bytes, which are committed, and syncs.
pub(crate) fn cut_behind<D: Disk>(disk: &mut D, end: u64) -> Result<(), DiskFault>
    requires { D.is_honest disk.old → IsReadyAt end (D.state disk.old) }
    ensures ok { OnOk result (D.is_honest disk.old → IsSettled (D.state disk.new)
        × ((D.state disk.new).contents ≡ take end (D.state disk.old).contents)) }
    ensures front { D.is_honest disk.old
        → take end (D.state disk.new).contents ≡ take end (D.state disk.old).contents }
    ensures any_moment { D.is_honest disk.old → LeavesOnly D.Disk disk.old disk.new
        (CommitsTo (take end (D.state disk.old).contents)) }
    ensures frame { Frame D.Disk disk.old disk.new (IsErr result) }
{
    disk.cut(end)?;
    disk.sync()
}

/// Commits what is staged after the first `end` bytes, if anything is, and leaves nothing after it.
pub(crate) fn commit_cut<D: Disk>(disk: &mut D, end: u64, staged: u64) -> Result<(), DiskFault>
    requires short { end + staged < 2 ^ 63 }
    requires staged { D.is_honest disk.old → IsStaged end staged (D.state disk.old) }
    requires whole { staged ≢ 0 → D.is_honest disk.old → IsStagedWhole end staged (D.state disk.old) }
    ensures ok { OnOk result (D.is_honest disk.old → IsSettled (D.state disk.new)
        × ((D.state disk.new).contents ≡ take end (D.state disk.old).contents
        ++ staged_in end staged (D.state disk.old).contents)) }
    ensures only { OnOk result (D.is_honest disk.old → EachImage (D.state disk.new)
        (CommitsTo (take end (D.state disk.old).contents ++ staged_in end staged (D.state disk.old).contents))) }
    ensures front { D.is_honest disk.old
        → take end (D.state disk.new).contents ≡ take end (D.state disk.old).contents }
    ensures any_moment { D.is_honest disk.old → LeavesOnly D.Disk disk.old disk.new
        (CommitsToEither (take end (D.state disk.old).contents)
        (staged_in end staged (D.state disk.old).contents)) }
    ensures frame { Frame D.Disk disk.old disk.new (IsErr result) }
{
    if staged == 0 {
        cut_behind(disk, end)
    } else {
        commit_some(disk, end, staged)
    }
}

/// Commits what is staged, and leaves nothing after it. What stands behind is cut before the one byte is written, so that
/// the cut is synced with the pages, and the file has ended with that byte.
fn commit_some<D: Disk>(disk: &mut D, end: u64, staged: u64) -> Result<(), DiskFault>
    requires some { 0 < staged }
    requires short { end + staged < 2 ^ 63 }
    requires staged { D.is_honest disk.old → IsStaged end staged (D.state disk.old) }
    requires whole { D.is_honest disk.old → IsStagedWhole end staged (D.state disk.old) }
    ensures ok { OnOk result (D.is_honest disk.old → IsSettled (D.state disk.new)
        × ((D.state disk.new).contents ≡ take end (D.state disk.old).contents
        ++ staged_in end staged (D.state disk.old).contents)) }
    ensures front { D.is_honest disk.old
        → take end (D.state disk.new).contents ≡ take end (D.state disk.old).contents }
    ensures any_moment { D.is_honest disk.old → LeavesOnly D.Disk disk.old disk.new
        (CommitsToEither (take end (D.state disk.old).contents)
        (staged_in end staged (D.state disk.old).contents)) }
    ensures frame { Frame D.Disk disk.old disk.new (IsErr result) }
{
    cut_synced(disk, end + 1, end + staged)?;
    write_synced(disk, end, &[CAPTURE])
}
