//! A file of the system. That it is honest is a premise: no contract can give it.
ghost use Rattle.std.specs.Prelude.{◌≡◌, ◌≢◌, [], true, Err, IfOk};
ghost use Rattle.disk_model.specs.Image.{settled};

use crate::{DiskFault, FileDisk, RawFile};
use std::alloc::Alloc;
use std::fs::{self, File, OpenOptions, TryLockError};
use std::io::{self, ErrorKind};
use std::os::unix::fs::FileExt;
use std::rt::Files;
use thiserror::Error;

/// How a file is opened. None of them makes it shorter. In a mode that writes, the file is locked while it is open.
#[derive(Clone, Copy, Debug, PartialEq, Eq)]
pub enum FileMode {
    /// To read and to write; an empty file is made if there is none.
    Create,
    /// To read and to write.
    ReadWrite,
    /// To read.
    ReadOnly,
}

/// Why a file wasn't opened.
#[derive(Clone, Copy, Debug, PartialEq, Eq, Error)]
pub enum FileFault {
    /// Another program has it open in a mode that writes, and so has this one, if it has it open already.
    #[error("another program writes the file")]
    Locked,
    /// It can't be opened or locked, or it or its folder can't be synced.
    #[error("the file can't be opened")]
    Refused,
    /// Memory was refused.
    #[error("memory was refused")]
    Memory,
}

impl FileMode {
    ghost use Rattle.disk_model.specs.FileMode.{options_of, writes};

    /// Whether the file may be written.
    fn writes(self) -> bool
        ensures { result ≡ writes self }
    {
        !matches!(self, FileMode::ReadOnly)
    }

    fn options(self) -> OpenOptions
        ensures { result ≡ options_of self }
    {
        let mut options = OpenOptions::new();
        options.read(true);
        match self {
            FileMode::Create => {
                options.write(true);
                options.create(true);
            }
            FileMode::ReadWrite => {
                options.write(true);
            }
            FileMode::ReadOnly => {}
        }
        options
    }
}

impl FileDisk {
    ghost use Rattle.disk_model.specs.FileDisk.{failures_of};
    ghost use Rattle.disk_model.specs.FileMode.{writes};

    /// Opens the file, as `lock` does.
    pub fn open<R: Files<File = File> + Alloc>(
        rt: &R,
        path: &str,
        mode: FileMode,
    ) -> Result<FileDisk, DiskFault>
        ensures { IfOk result (λ disk. failures_of disk ≡ 0) }
    {
        match FileDisk::lock(rt, path, mode) {
            Ok(disk) => Ok(disk),
            Err(_) => Err(DiskFault),
        }
    }

    /// Opens the file, which is made only if the mode says so. In a mode that writes it is locked until the disk is
    /// dropped, so that of the programs that take the lock one writes it. In the mode that makes it, all that the system
    /// keeps of it is synced, and its folder, so that its name outlives a stop. After `Locked` nothing was changed; after
    /// `Refused` and `Memory` the file may have been made, and is empty.
    pub fn lock<R: Files<File = File> + Alloc>(
        rt: &R,
        path: &str,
        mode: FileMode,
    ) -> Result<FileDisk, FileFault>
        ensures failures { IfOk result (λ disk. failures_of disk ≡ 0) }
        ensures locked { result ≡ Err FileFault.Locked → writes mode ≡ true }
    {
        let file = match mode.options().open(rt, path) {
            Ok(file) => file,
            Err(error) => return Err(fault_of(&error)),
        };
        if mode.writes() {
            lock_file(&file)?;
        }
        if mode == FileMode::Create {
            sync_whole(&file)?;
            sync_folder(rt, path)?;
        }
        Ok(FileDisk::over(file))
    }
}

/// Locks the file for as long as it is open. Other programs are kept out only if they ask for the lock too.
fn lock_file(file: &File) -> Result<(), FileFault> {
    match file.try_lock() {
        Ok(()) => Ok(()),
        Err(TryLockError::WouldBlock) => Err(FileFault::Locked),
        Err(TryLockError::Error(_)) => Err(FileFault::Refused),
    }
}

/// Why a file wasn't opened, if not for a lock.
fn fault_of(error: &io::Error) -> FileFault
    ensures { result ≢ FileFault.Locked }
{
    if error.kind() == ErrorKind::OutOfMemory {
        FileFault::Memory
    } else {
        FileFault::Refused
    }
}

/// Syncs a file that may be new, with its owner and its rights. The syncs of a disk leave these out. Of what can't be
/// synced, such as a pipe, nothing is kept; the calls of the disk tell that.
fn sync_whole(file: &File) -> Result<(), FileFault>
    ensures { result ≢ Err FileFault.Locked }
{
    match file.sync_all() {
        Ok(()) => Ok(()),
        // EINVAL of fsync(2)
        Err(error) if error.kind() == ErrorKind::InvalidInput => Ok(()),
        Err(error) => Err(fault_of(&error)),
    }
}

/// Syncs the folder that a file lies in, once its path has been followed.
fn sync_folder<R: Files<File = File> + Alloc>(rt: &R, path: &str) -> Result<(), FileFault>
    ensures { result ≢ Err FileFault.Locked }
{
    let whole = match fs::canonicalize(rt, path) {
        Ok(whole) => whole,
        Err(error) => return Err(fault_of(&error)),
    };
    let Some(folder) = whole.parent() else {
        return Err(FileFault::Refused);
    };
    match File::open(rt, folder) {
        Ok(folder) if folder.sync_all().is_ok() => Ok(()),
        _ => Err(FileFault::Refused),
    }
}

impl RawFile for File {
    ghost state = { λ _. settled [] };

    ghost is_honest = { λ _. ⊥ };

    ghost moment = { λ _. 0 };

    ghost images_since = { λ _ _ _. ⊥ };

    ghost laws = { λ _ honest. absurd honest };

    fn size(&mut self) -> Result<u64, DiskFault> {
        let answer = self.metadata();
        match answer {
            Ok(metadata) => Ok(metadata.len()),
            Err(_) => Err(DiskFault),
        }
    }

    fn read_some(&mut self, at: u64, buffer: &mut [u8]) -> Result<usize, DiskFault> {
        match FileExt::read_at(self, buffer, at) {
            Ok(count) => Ok(count),
            Err(_) => Err(DiskFault),
        }
    }

    fn write_some(&mut self, at: u64, bytes: &[u8]) -> Result<usize, DiskFault> {
        match FileExt::write_at(self, bytes, at) {
            Ok(count) => Ok(count),
            Err(_) => Err(DiskFault),
        }
    }

    fn set_size(&mut self, to: u64) -> Result<(), DiskFault> {
        match self.set_len(to) {
            Ok(()) => Ok(()),
            Err(_) => Err(DiskFault),
        }
    }

    fn sync_data(&mut self) -> Result<(), DiskFault> {
        match File::sync_data(self) {
            Ok(()) => Ok(()),
            Err(_) => Err(DiskFault),
        }
    }
}
