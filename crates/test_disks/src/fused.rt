//! Disks in memory whose calls fail.
use disk_model::{Disk, FuseDisk, MemDisk};
use std::alloc::Global;
use std::test::Fail;

/// Which calls of a disk fail. The first call has the number 1.
#[derive(Clone, Copy)]
pub enum Fuse {
    /// None.
    Whole,
    /// All after this number of calls.
    StopAfter(u64),
    /// The call with this number.
    FailOnce(u64),
}

/// The disk, with calls that fail so.
pub fn over<D: Disk>(disk: D, fuse: Fuse) -> FuseDisk<D> {
    match fuse {
        Fuse::Whole => FuseDisk::fail_once(disk, 0),
        Fuse::StopAfter(calls) => FuseDisk::stop_after(disk, calls),
        Fuse::FailOnce(call) => FuseDisk::fail_once(disk, call),
    }
}

/// A disk with these bytes, whose calls fail so.
pub fn fused(alloc: Global, bytes: &[u8], fuse: Fuse) -> Result<FuseDisk<MemDisk>, Fail> {
    Ok(over(MemDisk::of(alloc, bytes)?, fuse))
}
