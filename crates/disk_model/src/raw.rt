//! A disk over any raw file, whose reads and writes may fall short.
ghost use Rattle.std.specs.Prelude.{◌≡◌, ◌⊎◌, ◌↔◌, ◌+◌, ◌-◌, ◌^◌, ◌<◌, ◌≤◌, ℕ, List, length, take, drop, IfOk, OnOk, OnErr, IsErr};
ghost use Rattle.disk_model.specs.Image.{DiskState, IsWithin, overwritten, after_write, after_cut, settled};
ghost use Rattle.disk_model.specs.Clock.{Elapses, HasImages};

use crate::disk::{MAX_LENGTH, fail};
use crate::{Disk, DiskFault};
use std::fs::File;

/// A file of the system, as its calls are documented. What it says of contents and images holds if it is honest.
pub trait RawFile {
    ghost state: { Self → DiskState };

    ghost is_honest: { Self → Type 0 };

    ghost moment: { Self → ℕ };

    ghost images_since: { Self → ℕ → List ℕ → Type 0 };

    fn size(&mut self) -> Result<u64, DiskFault>
        ensures size { IfOk result (λ n. is_honest self.old
            → n ≡ length (state self.old).contents) }
        ensures same { is_honest self.old → state self.new ≡ state self.old }
        ensures time { is_honest self.old
            → Elapses moment images_since self.old self.new (state self.old) }
        ensures honest { is_honest self.old ↔ is_honest self.new };

    /// Reads into a front of the buffer, and returns how long the front is.
    fn read_some(&mut self, at: u64, buffer: &mut [u8]) -> Result<usize, DiskFault>
        ensures count { IfOk result (λ n. n ≤ length buffer.old) }
        ensures read { IfOk result (λ n. is_honest self.old
            → take n buffer.new ≡ take n (drop at (state self.old).contents)) }
        ensures same { is_honest self.old → state self.new ≡ state self.old }
        ensures time { is_honest self.old
            → Elapses moment images_since self.old self.new (state self.old) }
        ensures honest { is_honest self.old ↔ is_honest self.new };

    /// Writes a front of the bytes, and returns how long the front is. After a fault any of the bytes may be written.
    fn write_some(&mut self, at: u64, bytes: &[u8]) -> Result<usize, DiskFault>
        requires { is_honest self.old → at ≤ length (state self.old).contents }
        ensures count { IfOk result (λ n. n ≤ length bytes.now) }
        ensures written { IfOk result (λ n. is_honest self.old → (state self.new).contents
            ≡ overwritten (state self.old).contents at (take n bytes.now)) }
        ensures images { is_honest self.old
            → IsWithin (state self.new) (after_write at (length bytes.now) (state self.old)) }
        ensures time { is_honest self.old → Elapses moment images_since self.old self.new
            (after_write at (length bytes.now) (state self.old)) }
        ensures honest { is_honest self.old ↔ is_honest self.new };

    /// Shortens the file to this length.
    fn set_size(&mut self, to: u64) -> Result<(), DiskFault>
        requires { is_honest self.old → to ≤ length (state self.old).contents }
        ensures cut { OnOk result (is_honest self.old
            → (state self.new).contents ≡ take to (state self.old).contents) }
        ensures images { is_honest self.old
            → IsWithin (state self.new) (after_cut to (state self.old)) }
        ensures time { is_honest self.old → Elapses moment images_since self.old self.new
            (after_cut to (state self.old)) }
        ensures honest { is_honest self.old ↔ is_honest self.new };

    /// Puts what was written, and the length, on the device.
    fn sync_data(&mut self) -> Result<(), DiskFault>
        ensures same { OnOk result (is_honest self.old
            → (state self.new).contents ≡ (state self.old).contents) }
        ensures settled { OnOk result (is_honest self.old
            → IsWithin (state self.new) (settled (state self.old).contents)) }
        ensures images { OnErr result (is_honest self.old
            → IsWithin (state self.new) (state self.old)) }
        ensures time { is_honest self.old
            → Elapses moment images_since self.old self.new (state self.old) }
        ensures honest { is_honest self.old ↔ is_honest self.new };

    /// The same as of a `Disk`.
    ghost laws: { (file : Self) → is_honest file
        → HasImages (state file) (moment file) (images_since file) };
}

/// Writes all the bytes, or fails.
fn write_all<F: RawFile>(file: &mut F, at: u64, bytes: &[u8]) -> Result<(), DiskFault>
    requires at { F.is_honest file.old → at ≤ length (F.state file.old).contents }
    requires room { at + length bytes.now < 2 ^ 63 }
    ensures written { OnOk result (F.is_honest file.old
        → (F.state file.new).contents ≡ overwritten (F.state file.old).contents at bytes.now) }
    ensures images { F.is_honest file.old
        → IsWithin (F.state file.new) (after_write at (length bytes.now) (F.state file.old)) }
    ensures time { F.is_honest file.old → Elapses F.moment F.images_since file.old file.new
        (after_write at (length bytes.now) (F.state file.old)) }
    ensures honest { F.is_honest file.old ↔ F.is_honest file.new }
{
    let mut done = 0;
    while done < bytes.len() {
        let rest = &bytes[done..];
        match file.write_some(at + done as u64, rest) {
            // A device that takes no byte of some would be asked for ever.
            Ok(0) | Err(_) => return Err(DiskFault),
            Ok(count) => done += count,
        }
    }
    Ok(())
}

/// Fills the buffer, or fails.
fn read_all<F: RawFile>(file: &mut F, at: u64, buffer: &mut [u8]) -> Result<(), DiskFault>
    requires room { at + length buffer.old < 2 ^ 63 }
    ensures read { OnOk result (F.is_honest file.old
        → buffer.new ≡ take (length buffer.old) (drop at (F.state file.old).contents)) }
    ensures same { F.is_honest file.old → F.state file.new ≡ F.state file.old }
    ensures time { F.is_honest file.old
        → Elapses F.moment F.images_since file.old file.new (F.state file.old) }
    ensures honest { F.is_honest file.old ↔ F.is_honest file.new }
{
    let mut done = 0;
    while done < buffer.len() {
        match file.read_some(at + done as u64, &mut buffer[done..]) {
            Ok(0) | Err(_) => return Err(DiskFault),
            Ok(count) => done += count,
        }
    }
    Ok(())
}

/// A disk over a raw file. Without a parameter `FileDisk` is over a file of the system.
#[derive(Drop)]
pub struct FileDisk<F: RawFile = File> {
    file: F,
    failures: u64,
}

impl<F: RawFile> FileDisk<F> {
    ghost use Rattle.disk_model.specs.FileDisk.{file_of, failures_of};

    /// A disk over this file.
    pub fn over(file: F) -> FileDisk<F>
        ensures file { file_of result ≡ file }
        ensures failures { failures_of result ≡ 0 }
    {
        FileDisk { file, failures: 0 }
    }

    /// The file as it stands.
    pub fn into_inner(self) -> F
        ensures { result ≡ file_of self }
    {
        let FileDisk { file, .. } = self;
        file
    }
}

impl<F: RawFile> Disk for FileDisk<F> {
    ghost state = { λ d. F.state d.file };

    ghost is_honest = { λ d. F.is_honest d.file };

    ghost moment = { λ d. F.moment d.file };

    ghost images_since = { λ d. F.images_since d.file };

    ghost failures = { λ d. d.failures };

    ghost laws = { λ d. F.laws d.file };

    fn len(&mut self) -> Result<u64, DiskFault> {
        match self.file.size() {
            Ok(size) if size <= MAX_LENGTH => Ok(size),
            _ => Err(fail(&mut self.failures)),
        }
    }

    fn read_at(&mut self, at: u64, buffer: &mut [u8]) -> Result<(), DiskFault> {
        // No disk is longer, so there is nothing to read, and the places below fit.
        if at > MAX_LENGTH || buffer.len() as u64 > MAX_LENGTH - at {
            return Err(fail(&mut self.failures));
        }
        match read_all(&mut self.file, at, buffer) {
            Ok(()) => Ok(()),
            Err(_) => Err(fail(&mut self.failures)),
        }
    }

    fn write_at(&mut self, at: u64, bytes: &[u8]) -> Result<(), DiskFault> {
        if at > MAX_LENGTH || bytes.len() as u64 > MAX_LENGTH - at {
            return Err(fail(&mut self.failures));
        }
        match write_all(&mut self.file, at, bytes) {
            Ok(()) => Ok(()),
            Err(_) => Err(fail(&mut self.failures)),
        }
    }

    fn cut(&mut self, to: u64) -> Result<(), DiskFault> {
        match self.file.set_size(to) {
            Ok(()) => Ok(()),
            Err(_) => Err(fail(&mut self.failures)),
        }
    }

    fn sync(&mut self) -> Result<(), DiskFault> {
        match self.file.sync_data() {
            Ok(()) => Ok(()),
            Err(_) => Err(fail(&mut self.failures)),
        }
    }
}
