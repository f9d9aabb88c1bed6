//! A tail that no stop has left is kept aside before anything is written over it.
ghost use Rattle.std.specs.Prelude.{◌≡◌, ◌≢◌, ◌⊎◌, ◌+◌, ◌^◌, ◌<◌, IfOk, IfErr};
ghost use Rattle.gate_file.specs.declared.fault.OpenFault.{OpenFault as OpenFaultOf};
ghost use Rattle.record_actions.specs.Opening.{IsCopyFault, IsOpenFault};
ghost use Rattle.record_actions.specs.Tail.{HoldsTail, IsKeptAside, IsTailOf, OnlyRead};

use crate::copying::fill;
use crate::tails::{Tail, find_tail};
use disk_model::{Disk, DiskFault};
use fault_lines::Fault;
use std::alloc::Global;

/// How many copies are tried. A copy that holds other bytes is left alone.
const MOST: u32 = 9;

/// The disks that tails are copied to.
pub trait Asides {
    /// A copy.
    type Copy: Disk + Drop;

    /// Opens the copy with this number, from 1 on, of what begins at this offset. An empty one is made if there is none,
    /// so that no stop takes its name away.
    ///
    /// It is `Memory` if memory is refused, and `File` if the system refuses anything else.
    fn open(&mut self, offset: u64, number: u32) -> Result<Self::Copy, Fault>
        ensures why { IfErr result IsCopyFault };

    /// The copy with this number holds the tail, and is synced. Nothing was written over the tail so far.
    fn tell(&mut self, tail: Tail, number: u32);
}

/// A tail that is kept aside.
#[derive(Drop)]
pub struct Aside<C> {
    /// The tail.
    pub tail: Tail,
    /// What holds it.
    pub copy: C,
}

/// The same disk, whose tail is kept aside unless a stop may have left it. Nothing is written to the disk.
///
/// It is `Open`, with what `GateFile::find` has met, if the end of its pages isn't found. Otherwise it is a fault of
/// `Asides::open`, or `File` if a copy can't be written, or the disk can't be read, or all copies hold something else.
/// The disk is given back.
pub(crate) fn keep_tail<D: Disk + Drop, A: Asides>(
    alloc: Global,
    disk: D,
    asides: &mut A,
) -> Result<(D, Option<Aside<A::Copy>>), (Fault, D)>
    ensures same { IfOk result (λ (same, aside). D.is_honest disk → D.is_honest same
        × ((D.state same).contents ≡ (D.state disk).contents)) }
    ensures kept { IfOk result (λ (same, aside). D.is_honest disk → IsKeptAside A.Copy.Disk (D.state disk).contents aside) }
    ensures left { IfErr result (λ (fault, back). fault ≢ Fault.Open OpenFaultOf.Disk → D.is_honest disk
        → (D.state back).contents ≡ (D.state disk).contents) }
    ensures why { IfErr result (λ (fault, back). IsCopyFault fault ⊎ IsOpenFault fault) }
{
    match find_tail(alloc, disk) {
        Ok((disk, tail)) => match tail {
            Some(tail) => match keep_this(disk, tail, asides) {
                Ok((disk, aside)) => Ok((disk, Some(aside))),
                Err(left) => Err(left),
            },
            None => Ok((disk, None)),
        },
        Err((fault, disk)) => Err((Fault::Open(fault), disk)),
    }
}

/// The same disk, whose tail is kept aside, and what keeps it.
fn keep_this<D: Disk + Drop, A: Asides>(
    disk: D,
    tail: Tail,
    asides: &mut A,
) -> Result<(D, Aside<A::Copy>), (Fault, D)>
    requires tail { D.is_honest disk → IsTailOf (D.state disk).contents tail }
    requires short { tail.offset + tail.bytes < 2 ^ 63 }
    ensures read { IfOk result (λ (same, aside). OnlyRead D.Disk disk same) }
    ensures tail { IfOk result (λ (same, aside). aside.tail ≡ tail) }
    ensures kept { IfOk result (λ (same, aside). D.is_honest disk → A.Copy.is_honest aside.copy
        → HoldsTail A.Copy.Disk (D.state disk).contents tail aside.copy) }
    ensures left { IfErr result (λ (fault, back). OnlyRead D.Disk disk back) }
    ensures why { IfErr result (λ (fault, back). IsCopyFault fault) }
{
    let mut disk = disk;
    match copy_aside(&mut disk, tail, asides) {
        Ok(copy) => Ok((disk, Aside { tail, copy })),
        Err(fault) => Err((fault, disk)),
    }
}

/// Copies the tail to the first copy that holds nothing else, and tells it.
fn copy_aside<D: Disk, A: Asides>(
    disk: &mut D,
    tail: Tail,
    asides: &mut A,
) -> Result<A::Copy, Fault>
    requires tail { D.is_honest disk.old → IsTailOf (D.state disk.old).contents tail }
    requires short { tail.offset + tail.bytes < 2 ^ 63 }
    ensures holds { IfOk result (λ copy. D.is_honest disk.old → A.Copy.is_honest copy
        → HoldsTail A.Copy.Disk (D.state disk.old).contents tail copy) }
    ensures read { OnlyRead D.Disk disk.old disk.new }
    ensures why { IfErr result IsCopyFault }
{
    for number in 1..=MOST {
        let mut copy = asides.open(tail.offset, number)?;
        match fill(disk, tail, &mut copy) {
            Ok(true) => {
                asides.tell(tail, number);
                return Ok(copy);
            }
            Ok(false) => {}
            Err(DiskFault) => return Err(Fault::File),
        }
    }
    Err(Fault::File)
}
