//! A disk in memory, by hand.

use disk_model::{Disk, DiskFault, MemDisk};
use std::process::Abort;
use std::test::Fail;

/// Bytes, and whether they are an image after 9 9 was written after `[1, 2, 3]`.
const AFTER_WRITE: [(&[u8], bool); 7] = [
    (&[1, 2, 3], true),
    (&[1, 2, 3, 9, 9], true),
    (&[1, 2, 3, 7], true),
    (&[1, 2, 3, 0, 255], true),
    (&[1, 2, 4], false),
    (&[1, 2], false),
    (&[1, 2, 3, 9, 9, 9], false),
];

/// The same, after a cut to one byte too.
const AFTER_CUT: [(&[u8], bool); 6] = [
    (&[1], true),
    (&[1, 2], true),
    (&[1, 2, 3, 7, 7], true),
    (&[], false),
    (&[2], false),
    (&[1, 3], false),
];

/// The same, after a sync too.
const AFTER_SYNC: [(&[u8], bool); 4] = [
    (&[1], true),
    (&[1, 2], false),
    (&[], false),
    (&[2], false),
];

/// Asks the disk for each row's bytes.
fn check_images<R: Abort>(rt: &R, disk: &MemDisk, rows: &[(&[u8], bool)]) {
    for (image, is) in rows {
        assert!(rt; disk.is_image(image) == *is);
    }
}

#[test]
fn images_follow_the_calls(rt: HostRuntime) -> Result<(), Fail> {
    let mut disk = MemDisk::of(rt.alloc(), &[1, 2, 3])?;
    check_images(&rt, &disk, &[(&[1, 2, 3], true), (&[1, 2, 4], false)]);
    assert!(rt; disk.write_at(3, &[9, 9]) == Ok(()));
    assert!(rt; disk.contents() == [1, 2, 3, 9, 9].as_slice());
    check_images(&rt, &disk, &AFTER_WRITE);
    assert!(rt; disk.cut(1) == Ok(()));
    assert!(rt; disk.contents() == [1].as_slice());
    check_images(&rt, &disk, &AFTER_CUT);
    assert!(rt; disk.sync() == Ok(()));
    check_images(&rt, &disk, &AFTER_SYNC);
    Ok(())
}

/// Writes two bytes after two, again if the first call is refused.
fn write_twice<R: Abort>(rt: &R, disk: &mut MemDisk) {
    assert!(rt; disk.contents() == [1, 2].as_slice());
    if disk.write_at(2, &[3, 4]) == Err(DiskFault) {
        assert!(rt; disk.contents() == [1, 2].as_slice());
        assert!(rt; !disk.is_image(&[1, 2, 3]));
        assert!(rt; disk.contents().len() == 2 && disk.write_at(2, &[3, 4]) == Ok(()));
    }
    assert!(rt; disk.contents() == [1, 2, 3, 4].as_slice());
}

/// The same for a cut to one byte.
fn cut_twice<R: Abort>(rt: &R, disk: &mut MemDisk) {
    assert!(rt; !disk.contents().is_empty());
    if disk.cut(1) == Err(DiskFault) {
        assert!(rt; disk.contents() == [1, 2, 3, 4].as_slice());
        assert!(rt; !disk.is_image(&[1]));
        assert!(rt; !disk.contents().is_empty() && disk.cut(1) == Ok(()));
    }
}

/// The same for a sync.
fn sync_twice<R: Abort>(rt: &R, disk: &mut MemDisk) {
    if disk.sync() == Err(DiskFault) {
        assert!(rt; disk.contents() == [1].as_slice());
        assert!(rt; disk.is_image(&[1, 2]));
        assert!(rt; disk.sync() == Ok(()));
    }
    assert!(rt; !disk.is_image(&[1, 2]));
}

/// Each call that needs memory is made again if memory was refused, and then succeeds. The script runs it with the
/// nth allocation failing.
#[test]
fn refused_growth_is_a_failure_that_changes_nothing(rt: HostRuntime) -> Result<(), Fail> {
    let mut disk = match MemDisk::of(rt.alloc(), &[1, 2]) {
        Ok(disk) => disk,
        Err(_) => MemDisk::of(rt.alloc(), &[1, 2])?,
    };
    write_twice(&rt, &mut disk);
    cut_twice(&rt, &mut disk);
    sync_twice(&rt, &mut disk);
    assert!(rt; disk.len() == Ok(1));
    let mut buffer = [0];
    assert!(rt; disk.contents().len() == 1 && disk.read_at(0, &mut buffer) == Ok(()));
    assert!(rt; buffer == [1]);
    Ok(())
}
