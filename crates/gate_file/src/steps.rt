//! A few device calls in a row.
ghost use Rattle.std.specs.Prelude.{◌≡◌, ◌↔◌, ◌+◌, ◌^◌, ◌<◌, ◌≤◌, length, take, OnOk, OnErr, IsErr};
ghost use Rattle.disk_model.specs.Image.{IsImage, IsSettled, overwritten};
ghost use Rattle.disk_model.specs.Leaving.{LeavesOnly};
ghost use Rattle.disk_model.specs.Torn.{IsTorn, KeepsFront};
ghost use Rattle.disk_model.specs.Frame.{Frame};

use disk_model::{Disk, DiskFault};

/// The first byte of a page.
pub(crate) const CAPTURE: u8 = b'O';

/// Syncs a disk of which nothing is known. The images stay among those that there were.
pub(crate) fn settle<D: Disk>(disk: &mut D) -> Result<(), DiskFault>
    ensures ok { OnOk result (D.is_honest disk.old → IsSettled (D.state disk.new)
        × ((D.state disk.new).contents ≡ (D.state disk.old).contents)) }
    ensures any_moment { D.is_honest disk.old → LeavesOnly D.Disk disk.old disk.new
        (IsImage (D.state disk.old)) }
    ensures frame { Frame D.Disk disk.old disk.new (IsErr result) }
{
    disk.sync()
}

/// Writes, and syncs.
pub(crate) fn write_synced<D: Disk>(disk: &mut D, at: u64, bytes: &[u8]) -> Result<(), DiskFault>
    requires at { D.is_honest disk.old → at ≤ length (D.state disk.old).contents }
    requires settled { D.is_honest disk.old → IsSettled (D.state disk.old) }
    ensures written { OnOk result (D.is_honest disk.old → IsSettled (D.state disk.new)
        × ((D.state disk.new).contents ≡ overwritten (D.state disk.old).contents at bytes.now)) }
    // No disk takes more, honest or not.
    ensures short { OnOk result (at + length bytes.now < 2 ^ 63) }
    ensures any_moment { D.is_honest disk.old → LeavesOnly D.Disk disk.old disk.new
        (IsTorn at (length bytes.now) (D.state disk.old).contents) }
    ensures frame { Frame D.Disk disk.old disk.new (IsErr result) }
{
    disk.write_at(at, bytes)?;
    disk.sync()
}

/// Cuts, and syncs. Every image begins with the first `kept` bytes.
pub(crate) fn cut_synced<D: Disk>(disk: &mut D, kept: u64, to: u64) -> Result<(), DiskFault>
    requires behind { kept ≤ to }
    requires to { D.is_honest disk.old → to ≤ length (D.state disk.old).contents }
    requires keeps { D.is_honest disk.old
        → KeepsFront kept (take kept (D.state disk.old).synced) (D.state disk.old) }
    ensures ok { OnOk result (D.is_honest disk.old → IsSettled (D.state disk.new)
        × ((D.state disk.new).contents ≡ take to (D.state disk.old).contents)) }
    ensures any_moment { D.is_honest disk.old → LeavesOnly D.Disk disk.old disk.new
        (λ image. take kept image ≡ take kept (D.state disk.old).synced) }
    ensures frame { Frame D.Disk disk.old disk.new (IsErr result) }
{
    disk.cut(to)?;
    disk.sync()
}

/// Writes after bytes that every image begins with. Further such writes may follow, and then a sync.
pub(crate) fn write_behind<D: Disk>(
    disk: &mut D,
    kept: u64,
    at: u64,
    bytes: &[u8],
) -> Result<(), DiskFault>
    requires behind { kept ≤ at }
    requires at { D.is_honest disk.old → at ≤ length (D.state disk.old).contents }
    requires keeps { D.is_honest disk.old
        → KeepsFront kept (take kept (D.state disk.old).synced) (D.state disk.old) }
    ensures written { OnOk result (D.is_honest disk.old
        → (D.state disk.new).contents ≡ overwritten (D.state disk.old).contents at bytes.now) }
    ensures keeps { D.is_honest disk.old
        → KeepsFront kept (take kept (D.state disk.old).synced) (D.state disk.new) }
    ensures short { OnOk result (at + length bytes.now < 2 ^ 63) }
    ensures any_moment { D.is_honest disk.old → LeavesOnly D.Disk disk.old disk.new
        (λ image. take kept image ≡ take kept (D.state disk.old).synced) }
    ensures frame { Frame D.Disk disk.old disk.new (IsErr result) }
{
    disk.write_at(at, bytes)
}
