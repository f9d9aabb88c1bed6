//! Files that were opened by their name to be recorded into: each is locked first.
ghost use Rattle.std.specs.Prelude.{◌≡◌, ◌⊎◌, true, IfOk, IfErr, OnErr, Err};
ghost use Rattle.disk_model.specs.FileMode.{writes};

use disk_model::{Disk, FileDisk, FileFault, FileMode};
use disk_tail::TailDisk;
use fault_lines::Fault;
use std::alloc::Global;
use std::marker::Model;

/// A file that was opened to be recorded into, and is locked for as long as this is kept. `lock_file` alone makes one,
/// and `open_recorder` alone gets a recorder from it: so no file is recorded into before it is locked.
#[derive(Drop)]
pub struct LockedFile<D: Disk> {
    pub(crate) disk: D,
}

/// What becomes of a name that no file has.
#[derive(Clone, Copy, Debug, PartialEq, Eq)]
pub enum Missing {
    /// An empty file is made.
    Made,
    /// It is a fault.
    Refused,
}

impl<D: Disk> Model for LockedFile<D> {
    ghost Value = { D };

    ghost view = { λ file. file.disk };
}

impl Missing {
    /// The mode that the file is opened in.
    fn mode(self) -> FileMode
        ensures writes { writes result ≡ true }
    {
        match self {
            Missing::Made => FileMode::Create,
            Missing::Refused => FileMode::ReadWrite,
        }
    }
}

/// Opens a file, and locks it for as long as it is open. Its bytes stay as they are.
///
/// It is `Locked` if another program has locked it, `Memory` if memory is refused, and `File` if the system refuses
/// anything else.
pub fn lock_file(
    rt: &HostRuntime,
    file: &str,
    missing: Missing,
) -> Result<LockedFile<FileDisk>, Fault>
    ensures why { IfErr result (λ fault. (fault ≡ Fault.Locked) ⊎ (fault ≡ Fault.Memory) ⊎ (fault ≡ Fault.File)) }
{
    match FileDisk::lock(rt, file, missing.mode()) {
        Ok(disk) => Ok(LockedFile { disk }),
        Err(FileFault::Locked) => Err(Fault::Locked),
        Err(FileFault::Refused) => Err(Fault::File),
        Err(FileFault::Memory) => Err(Fault::Memory),
    }
}

impl<D: Disk + Drop> LockedFile<D> {
    /// The same file, of which the last bytes that are written are kept in memory, as many as `room` at most.
    ///
    /// It is `Memory` if memory is refused; the file is let go then.
    pub fn heard(self, alloc: Global, room: usize) -> Result<LockedFile<TailDisk<D>>, Fault>
        ensures same { IfOk result (λ heard. heard.disk ≡ self) }
        ensures memory { OnErr result (result ≡ Err Fault.Memory) }
    {
        match TailDisk::new(alloc, self.disk, room) {
            Ok(disk) => Ok(LockedFile { disk }),
            Err(_) => Err(Fault::Memory),
        }
    }
}
