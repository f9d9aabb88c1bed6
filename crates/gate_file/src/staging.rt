//! Pages are staged: they lie on the disk after a closed byte, and no stop shows them.
ghost use Rattle.std.specs.Prelude.{◌≡◌, ◌≢◌, ◌↔◌, ◌+◌, ◌-◌, ◌^◌, ◌<◌, ◌≤◌, ◌++◌, [], length, take, OnOk, IsErr};
ghost use Rattle.disk_model.specs.Leaving.{LeavesOnly};
ghost use Rattle.disk_model.specs.Frame.{Frame};
ghost use Rattle.gate_file.specs.Commit.{CommitsTo, ArePages};
ghost use Rattle.gate_file.specs.Gate.{IsAppend, IsStaged, IsStagedWhole, HasStaged, LiesBehind, pages_in, staged_in};

use crate::steps::write_behind;
use disk_model::{Disk, DiskFault};

/// Stages pages after those that are staged.
pub(crate) fn stage_pages<D: Disk>(
    disk: &mut D,
    end: u64,
    staged: u64,
    pages: &[u8],
) -> Result<(), DiskFault>
    requires pages { ArePages pages.now }
    requires some { pages.now ≢ [] }
    requires short { end + staged < 2 ^ 63 }
    requires staged { D.is_honest disk.old → IsStaged end staged (D.state disk.old) }
    ensures staged { OnOk result (D.is_honest disk.old
        → HasStaged end staged (length pages.now) pages.now (D.state disk.old) (D.state disk.new)) }
    ensures short { OnOk result (end + staged + length pages.now < 2 ^ 63) }
    ensures front { D.is_honest disk.old
        → take end (D.state disk.new).contents ≡ take end (D.state disk.old).contents }
    ensures any_moment { D.is_honest disk.old → LeavesOnly D.Disk disk.old disk.new
        (CommitsTo (take end (D.state disk.old).contents)) }
    ensures frame { Frame D.Disk disk.old disk.new (IsErr result) }
{
    write_next(disk, end, staged, pages)
}

/// Stages the last pages. In the slice, and on the disk, one byte 00 follows them.
pub(crate) fn stage_last_pages<D: Disk>(
    disk: &mut D,
    end: u64,
    staged: u64,
    bytes: &[u8],
) -> Result<(), DiskFault>
    requires pages { IsAppend bytes.now }
    requires short { end + staged < 2 ^ 63 }
    requires staged { D.is_honest disk.old → IsStaged end staged (D.state disk.old) }
    ensures staged { OnOk result (D.is_honest disk.old → HasStaged end staged (length bytes.now - 1)
        (pages_in bytes.now) (D.state disk.old) (D.state disk.new)) }
    ensures whole { OnOk result (D.is_honest disk.old
        → IsStagedWhole end (staged + (length bytes.now - 1)) (D.state disk.new)) }
    ensures short { OnOk result (end + staged + length bytes.now < 2 ^ 63) }
    ensures front { D.is_honest disk.old
        → take end (D.state disk.new).contents ≡ take end (D.state disk.old).contents }
    ensures any_moment { D.is_honest disk.old → LeavesOnly D.Disk disk.old disk.new
        (CommitsTo (take end (D.state disk.old).contents)) }
    ensures frame { Frame D.Disk disk.old disk.new (IsErr result) }
{
    write_next(disk, end, staged, bytes)
}

/// Writes after what is staged, over the closed byte if one follows it. The first of all staged bytes is left out: in
/// its place stands the closed byte after the committed ones.
#[inline(always)]
fn write_next<D: Disk>(disk: &mut D, end: u64, staged: u64, bytes: &[u8]) -> Result<(), DiskFault>
    requires some { 0 < length bytes.now }
    requires short { end + staged < 2 ^ 63 }
    requires staged { D.is_honest disk.old → IsStaged end staged (D.state disk.old) }
    ensures written { OnOk result (D.is_honest disk.old → LiesBehind (take end (D.state disk.old).contents)
        (staged_in end staged (D.state disk.old).contents ++ bytes.now) (D.state disk.new)) }
    ensures short { OnOk result (end + staged + length bytes.now < 2 ^ 63) }
    ensures front { D.is_honest disk.old
        → take end (D.state disk.new).contents ≡ take end (D.state disk.old).contents }
    ensures any_moment { D.is_honest disk.old → LeavesOnly D.Disk disk.old disk.new
        (CommitsTo (take end (D.state disk.old).contents)) }
    ensures frame { Frame D.Disk disk.old disk.new (IsErr result) }
{
    if staged == 0 {
        write_behind(disk, end + 1, end + 1, &bytes[1..])
    } else {
        write_behind(disk, end + 1, end + staged, bytes)
    }
}
