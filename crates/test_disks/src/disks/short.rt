//! A raw file whose reads and writes fall short.
ghost use Rattle.std.specs.Prelude.{ℕ, []};
ghost use Rattle.disk_model.specs.Image.{settled};

use disk_model::{Disk, DiskFault, FileDisk, MemDisk, RawFile};
use std::alloc::Global;
use std::test::Fail;

/// Each read and each write takes at most `most` bytes. The disk's call number `bad` fails; the first call has the
/// number 1.
#[derive(Drop)]
struct ShortFile {
    disk: MemDisk,
    most: usize,
    bad: u64,
    calls: u64,
}

impl ShortFile {
    fn new(disk: MemDisk, most: usize, bad: u64) -> ShortFile {
        ShortFile {
            disk,
            most,
            bad,
            calls: 0,
        }
    }

    /// Counts a call of the disk.
    fn call(&mut self) -> Result<(), DiskFault> {
        self.calls = self.calls.saturating_add(1);
        if self.calls == self.bad {
            Err(DiskFault)
        } else {
            Ok(())
        }
    }
}

impl RawFile for ShortFile {
    ghost state = { λ _. settled [] };

    // It promises nothing: the tests say what it does.
    ghost is_honest = { λ _. ⊥ };

    ghost moment = { λ _. 0 };

    ghost images_since = { λ _ _ _. ⊥ };

    ghost laws = { λ _ honest. absurd honest };

    fn size(&mut self) -> Result<u64, DiskFault> {
        self.call()?;
        self.disk.len()
    }

    fn read_some(&mut self, at: u64, buffer: &mut [u8]) -> Result<usize, DiskFault> {
        let length = self.size()?;
        if length <= at {
            return Ok(0);
        }
        self.call()?;
        let left = (length - at) as usize;
        let count = buffer.len().min(self.most).min(left);
        let length = self.disk.contents().len();
        if at > length as u64 || count > length - at as usize {
            return Err(DiskFault);
        }
        self.disk.read_at(at, &mut buffer[..count])?;
        Ok(count)
    }

    fn write_some(&mut self, at: u64, bytes: &[u8]) -> Result<usize, DiskFault> {
        self.call()?;
        let count = bytes.len().min(self.most);
        if at > self.disk.contents().len() as u64 {
            return Err(DiskFault);
        }
        self.disk.write_at(at, &bytes[..count])?;
        Ok(count)
    }

    fn set_size(&mut self, to: u64) -> Result<(), DiskFault> {
        self.call()?;
        if to > self.disk.contents().len() as u64 {
            return Err(DiskFault);
        }
        self.disk.cut(to)
    }

    fn sync_data(&mut self) -> Result<(), DiskFault> {
        self.call()?;
        self.disk.sync()
    }
}

/// A disk over the file with these bytes.
fn short(alloc: Global, bytes: &[u8], most: usize, bad: u64) -> Result<FileDisk<ShortFile>, Fail> {
    Ok(FileDisk::over(ShortFile::new(MemDisk::of(alloc, bytes)?, most, bad)))
}

#[test]
fn short_reads_and_writes_go_on(rt: HostRuntime) -> Result<(), Fail> {
    for most in [1, 2, 3, 4, 9] {
        let mut disk = short(rt.alloc(), b"ab", most, 0)?;
        assert!(rt; disk.write_at(1, b"hello") == Ok(()));
        let mut bytes = [0; 5];
        assert!(rt; disk.read_at(0, &mut bytes) == Ok(()));
        assert!(rt; &bytes == b"ahell");
        assert!(rt; disk.cut(3) == Ok(()));
        assert!(rt; disk.sync() == Ok(()));
        assert!(rt; disk.len() == Ok(3));
        let ShortFile { disk, .. } = disk.into_inner();
        assert!(rt; disk.contents() == b"ahe".as_slice());
        assert!(rt; !disk.is_image(b"ab"));
    }
    Ok(())
}

/// A read of three bytes, two at a time, asks the disk for its length and for bytes twice.
#[test]
fn a_read_that_failed_is_not_tried_again(rt: HostRuntime) -> Result<(), Fail> {
    for call in 1..=4 {
        let mut disk = short(rt.alloc(), b"abc", 2, call)?;
        let mut bytes = [0; 3];
        assert!(rt; disk.read_at(0, &mut bytes) == Err(DiskFault));

        // The next read finds all as it was.
        assert!(rt; disk.read_at(0, &mut bytes) == Ok(()));
        assert!(rt; &bytes == b"abc");
    }
    Ok(())
}

#[test]
fn a_file_that_takes_nothing_fails(rt: HostRuntime) -> Result<(), Fail> {
    let mut disk = short(rt.alloc(), b"ab", 0, 0)?;
    assert!(rt; disk.write_at(0, b"x") == Err(DiskFault));
    assert!(rt; disk.read_at(0, &mut [0]) == Err(DiskFault));
    assert!(rt; disk.write_at(0, b"") == Ok(()));
    assert!(rt; disk.read_at(0, &mut []) == Ok(()));
    Ok(())
}

/// What stands after a write of `hello` over `.....`, two bytes at a time, whose nth raw write fails.
const TORN: [(u64, &[u8], bool); 4] = [
    (1, b".....", false),
    (2, b"he...", false),
    (3, b"hell.", false),
    (4, b"hello", true),
];

#[test]
fn a_write_that_fails_has_written_a_part(rt: HostRuntime) -> Result<(), Fail> {
    for &(call, contents, written) in &TORN {
        let mut disk = short(rt.alloc(), b".....", 2, call)?;
        assert!(rt; disk.write_at(0, b"hello").is_ok() == written);
        let ShortFile { disk, .. } = disk.into_inner();
        assert!(rt; disk.contents() == contents);
    }
    Ok(())
}
