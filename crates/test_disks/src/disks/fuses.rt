//! Fuses, and fuses within fuses.

use crate::fused::{Fuse, fused, over};
use disk_model::{Disk, MemDisk};
use std::alloc::Global;
use std::test::Fail;

/// Five calls that any disk takes, and which of them succeeded.
fn five_calls<D: Disk>(disk: &mut D) -> [bool; 5] {
    [
        disk.write_at(0, &[7]).is_ok(),
        disk.sync().is_ok(),
        disk.read_at(0, &mut []).is_ok(),
        disk.cut(0).is_ok(),
        disk.len().is_ok(),
    ]
}

/// The fuse of a disk with the byte 1, and the fuse over that one.
#[derive(Clone, Copy)]
struct Row {
    inner: Fuse,
    outer: Fuse,
    /// Which of the five calls succeed, as often as they are made.
    calls: &'static [[bool; 5]],
    /// Whether a further call succeeds.
    goes_on: bool,
    /// What the disk then holds.
    contents: &'static [u8],
    /// Bytes, and whether a stop may leave them.
    images: &'static [(&'static [u8], bool)],
}

const ROWS: &[Row] = &[
    // A fuse stops all calls after a number of them.
    Row {
        outer: Fuse::StopAfter(0),
        calls: &[[false; 5], [false; 5]],
        contents: &[1],
        ..STOPPED
    },
    Row {
        outer: Fuse::StopAfter(1),
        calls: &[[true, false, false, false, false], [false; 5]],
        contents: &[7],
        ..STOPPED
    },
    Row {
        outer: Fuse::StopAfter(3),
        calls: &[[true, true, true, false, false], [false; 5]],
        contents: &[7],
        ..STOPPED
    },
    Row {
        outer: Fuse::StopAfter(4),
        calls: &[[true, true, true, true, false], [false; 5]],
        ..STOPPED
    },
    Row {
        outer: Fuse::StopAfter(5),
        calls: &[[true; 5], [false; 5]],
        ..STOPPED
    },
    // A fuse fails one call.
    Row {
        outer: Fuse::FailOnce(0),
        calls: &[[true; 5]],
        ..FAILED
    },
    Row {
        outer: Fuse::FailOnce(1),
        calls: &[[false, true, true, true, true]],
        ..FAILED
    },
    Row {
        outer: Fuse::FailOnce(4),
        calls: &[[true, true, true, false, true]],
        contents: &[7],
        ..FAILED
    },
    Row {
        outer: Fuse::FailOnce(5),
        calls: &[[true, true, true, true, false]],
        ..FAILED
    },
    Row {
        outer: Fuse::FailOnce(6),
        calls: &[[true; 5]],
        goes_on: false,
        ..FAILED
    },
    // A fuse makes no call of its own: the inner one takes five calls, and no more.
    Row {
        inner: Fuse::StopAfter(5),
        outer: Fuse::StopAfter(6),
        calls: &[[true; 5]],
        ..STOPPED
    },
    // A call that the outer fuse fails isn't counted by the inner one.
    Row {
        inner: Fuse::StopAfter(3),
        outer: Fuse::FailOnce(2),
        calls: &[[true, false, true, true, false]],
        ..STOPPED
    },
    // A call that the inner fuse fails is counted by the outer one. The sync that failed has settled nothing.
    Row {
        inner: Fuse::FailOnce(2),
        outer: Fuse::StopAfter(3),
        calls: &[[true, false, true, false, false]],
        contents: &[7],
        images: &[(&[1], true), (&[7], true), (&[200], true), (&[], false)],
        ..STOPPED
    },
];

/// No further call succeeds.
const STOPPED: Row = Row {
    inner: Fuse::Whole,
    outer: Fuse::Whole,
    calls: &[],
    goes_on: false,
    contents: &[],
    images: &[],
};

/// A further call succeeds.
const FAILED: Row = Row {
    goes_on: true,
    ..STOPPED
};

/// Whether the calls succeed as the row says.
fn succeed_as_told<D: Disk>(disk: &mut D, row: &Row) -> bool {
    for succeeded in row.calls {
        if five_calls(disk) != *succeeded {
            return false;
        }
    }
    disk.len().is_ok() == row.goes_on
}

/// Whether the disk is left as the row says.
fn is_left_as_told(disk: &MemDisk, row: &Row) -> bool {
    let has_images = |&(image, is): &(&[u8], bool)| disk.is_image(image) == is;
    disk.contents() == row.contents && row.images.iter().all(has_images)
}

/// Whether the fuses are as the row says.
fn is_as_told(alloc: Global, row: &Row) -> Result<bool, Fail> {
    let mut disk = over(fused(alloc, &[1], row.inner)?, row.outer);
    let succeed = succeed_as_told(&mut disk, row);
    Ok(succeed && is_left_as_told(&disk.into_inner().into_inner(), row))
}

#[test]
fn calls_fail_as_the_fuses_say(rt: HostRuntime) -> Result<(), Fail> {
    for row in ROWS {
        assert!(rt; is_as_told(rt.alloc(), row)?);
    }
    Ok(())
}
