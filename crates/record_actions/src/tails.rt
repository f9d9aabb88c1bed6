//! What follows a file's pages, where no stop has left it.
ghost use Rattle.std.specs.Prelude.{◌≡◌, ◌+◌, ◌^◌, ◌<◌, IfOk, IfErr, IfSome, length, drop};
ghost use Rattle.disk_model.specs.Frame.{Frame};
ghost use Rattle.disk_model.specs.Image.{IsImage};
ghost use Rattle.disk_model.specs.Leaving.{LeavesOnly};
ghost use Rattle.record_actions.specs.Tail.{HasTail, IsTailOf, IsUnfound};

use disk_model::{Disk, DiskFault};
use gate_file::{GateFile, OpenFault};
use std::alloc::Global;

/// What follows the last whole page of a file.
#[derive(Clone, Copy, Debug, PartialEq, Eq)]
pub struct Tail {
    /// Where it begins.
    pub offset: u64,
    /// How many bytes it has.
    pub bytes: u64,
}

/// The same disk, synced, and what follows its last whole page, unless a stop may have left that: nothing, one byte, or
/// what begins with 00. Nothing is written.
///
/// Its faults are those of `GateFile::find`, after which the disk is given back.
pub fn find_tail<D: Disk + Drop>(
    alloc: Global,
    disk: D,
) -> Result<(D, Option<Tail>), (OpenFault, D)>
    ensures same { IfOk result (λ (same, tail). D.is_honest disk → (D.state same).contents ≡ (D.state disk).contents) }
    ensures found { IfOk result (λ (same, tail). D.is_honest disk → HasTail (D.state disk).contents tail) }
    ensures short { IfOk result (λ (same, tail). IfSome tail (λ tail. tail.offset + tail.bytes < 2 ^ 63)) }
    // Every image since the call began is one of those at its start.
    ensures any_moment { IfOk result (λ (same, tail). D.is_honest disk → LeavesOnly D.Disk disk same (IsImage (D.state disk))) }
    ensures any_moment_err { IfErr result (λ (fault, back). D.is_honest disk → LeavesOnly D.Disk disk back (IsImage (D.state disk))) }
    ensures frame { IfOk result (λ (same, tail). Frame D.Disk disk same ⊥) }
    ensures unfound { IfErr result (λ (fault, back). IsUnfound D.Disk disk fault back) }
{
    match GateFile::find(alloc, disk) {
        Ok(found) => {
            let tail = Tail {
                offset: found.end(),
                bytes: found.tail(),
            };
            unless_sound(found.give_back(), tail)
        }
        Err((fault, disk)) => Err((fault, disk)),
    }
}

/// The same disk, and the tail that it has, unless a stop may have left it.
fn unless_sound<D: Disk + Drop>(disk: D, tail: Tail) -> Result<(D, Option<Tail>), (OpenFault, D)>
    requires tail { D.is_honest disk → IsTailOf (D.state disk).contents tail }
    requires short { tail.offset + tail.bytes < 2 ^ 63 }
    ensures same { IfOk result (λ (same, tail). D.is_honest disk → D.state same ≡ D.state disk) }
    ensures found { IfOk result (λ (same, tail). D.is_honest disk → HasTail (D.state disk).contents tail) }
    ensures short { IfOk result (λ (same, tail). IfSome tail (λ tail. tail.offset + tail.bytes < 2 ^ 63)) }
    ensures any_moment { IfOk result (λ (same, tail). D.is_honest disk → LeavesOnly D.Disk disk same (IsImage (D.state disk))) }
    ensures any_moment_err { IfErr result (λ (fault, back). D.is_honest disk → LeavesOnly D.Disk disk back (IsImage (D.state disk))) }
    ensures frame { IfOk result (λ (same, tail). Frame D.Disk disk same ⊥) }
    ensures unfound { IfErr result (λ (fault, back). IsUnfound D.Disk disk fault back) }
{
    if tail.bytes < 2 {
        return Ok((disk, None));
    }
    let mut disk = disk;
    let mut first = [0; 1];
    match disk.read_at(tail.offset, &mut first) {
        Ok(()) if first[0] == 0 => Ok((disk, None)),
        Ok(()) => Ok((disk, Some(tail))),
        Err(DiskFault) => Err((OpenFault::Disk, disk)),
    }
}
