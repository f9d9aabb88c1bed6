//! A stream that is recorded into a folder, file after file.
ghost use Rattle.archive_record.specs.Files.{AllKept};

use crate::archiving::{ArchiveOptions, record_stream};
use crate::keeping::Keeper;
use crate::recording::FolderRecording;
use archive_folder::{Folder, SystemFolder};
use archive_names::{Keeping, Limits};
use archive_record::{ArchiveNames, Rules};
use disk_model::{Disk, FileDisk};
use fault_lines::Fault;
use import_record::RecordFault;
use record_actions::{LockedFile, Missing, Told, lock_file};
use std::alloc::{AllocError, Global};
use std::fs::{self, Metadata, ReadDir};
use std::os::unix::fs::{DirEntryExt, MetadataExt};
use std::time::SystemTime;

/// How many seconds a file's period has, if nothing else is said.
const HOUR: u64 = 3600;

/// How the files of a folder are begun and kept: what was asked for.
#[derive(Clone, Copy)]
pub struct Filing {
    /// A file has the commands of one period of this many seconds.
    pub every: Option<u64>,
    /// A file that has this many bytes gets no further command.
    pub most_bytes: Option<u64>,
    /// A file goes this many seconds after its last command.
    pub keep: Option<u64>,
    /// The oldest goes while all files together have more bytes.
    pub keep_bytes: Option<u64>,
}

impl Filing {
    /// Whether anything was asked for.
    fn is_asked(self) -> bool {
        self.every.is_some()
            || self.most_bytes.is_some()
            || self.keep.is_some()
            || self.keep_bytes.is_some()
    }

    /// The rules of an archive, of which so many commands may share a commit.
    pub fn rules(self, most: u32) -> Rules {
        Rules {
            limits: Limits {
                every: self.every.unwrap_or(HOUR).max(1),
                most_bytes: self.most_bytes,
            },
            keeping: Keeping {
                span: match self.keep {
                    Some(seconds) => Some(seconds.saturating_mul(1000)),
                    None => None,
                },
                bytes: self.keep_bytes,
            },
            most,
        }
    }
}

/// The path of standard input.
const INPUT: &str = "/dev/stdin";

/// Whether a path is meant as a folder: it is one, it ends in a slash, or something is asked for that a file hasn't.
pub fn is_folder(rt: &HostRuntime, path: &str, filing: Filing) -> bool {
    if path.ends_with('/') || filing.is_asked() {
        return true;
    }
    match fs::metadata(rt, path) {
        Ok(metadata) => metadata.is_dir(),
        Err(_) => false,
    }
}

/// The milliseconds since 1970, or 0 if the clock can't be read.
pub fn now(rt: &HostRuntime) -> u64 {
    let Ok(now) = SystemTime::now(rt) else {
        return 0;
    };
    match now.duration_since(SystemTime::UNIX_EPOCH) {
        Ok(since) => u64::try_from(since.as_millis()).unwrap_or(u64::MAX),
        Err(_) => 0,
    }
}

/// Records the Ogg stream on standard input into the folder, which is made if there is none.
///
/// It is `Archive` if standard input is a file of the folder, which isn't opened then. It is `Locked` if another program
/// records into it, `File` if it can't be read or written, `Memory`, `Failed` if the disk has failed three times and
/// nothing was kept between, and otherwise as for a file.
pub(crate) fn archive_folder(
    rt: &HostRuntime,
    path: &str,
    filing: Filing,
    options: ArchiveOptions,
) -> Result<(), Fault> {
    let folder = with_slash(rt.alloc(), path)?;
    let folder = folder.as_str();
    if is_input_in(rt, folder) {
        return Err(Fault::Archive(RecordFault::Read));
    }
    let _lock = lock_folder(rt, folder)?;
    let files = granted(SystemFolder::at(rt.alloc(), rt, ArchiveNames, folder))?;
    let keeper = Keeper::new(rt, folder, Told::new(rt, options.strict, 0));
    record_into(rt, files, keeper, filing.rules(options.most), options)
}

/// Locks the folder, whose path has a slash at its end. It is made if there is none.
pub fn lock_folder(rt: &HostRuntime, folder: &str) -> Result<LockedFile<FileDisk>, Fault> {
    if fs::metadata(rt, folder).is_err() {
        // If it can't be made, its lock can't either.
        let _ = fs::create_dir(rt, folder);
    }
    let lock = joined(rt.alloc(), folder, "lock")?;
    lock_file(rt, lock.as_str(), Missing::Made)
}

/// Records the stream into the files of this folder.
fn record_into<D: Disk + Drop, F: Folder<File = D> + Drop>(
    rt: &HostRuntime,
    folder: F,
    keeper: Keeper<'_>,
    rules: Rules,
    options: ArchiveOptions,
) -> Result<(), Fault>
    requires { F.is_honest folder → AllKept (F.names folder) (F.file folder) }
{
    let mut recording = FolderRecording::open(rt, folder, keeper, rules)?;
    record_stream(rt, &mut recording, options.skeletons)?;
    recording.seal(options.seal)
}

/// Whether standard input is a file of this folder. A run that read what it writes would never end.
pub fn is_input_in(rt: &HostRuntime, folder: &str) -> bool {
    let (Ok(input), Ok(within)) = (fs::metadata(rt, INPUT), fs::metadata(rt, folder)) else {
        return false;
    };
    if !input.is_file() || input.dev() != within.dev() {
        return false;
    }
    // A file with one name stands where that name does: others may stand in any folder.
    if input.nlink() == 1 {
        if let Some(above) = folder_of(rt, INPUT) {
            return above.dev() == within.dev() && above.ino() == within.ino();
        }
    }
    match fs::read_dir(rt, folder) {
        Ok(entries) => has_file(entries, input.ino()),
        Err(_) => false,
    }
}

/// The folder in which a path's file stands. None if it isn't known.
fn folder_of(rt: &HostRuntime, path: &str) -> Option<Metadata> {
    let path = fs::canonicalize(rt, path).ok()?;
    let folder = path.as_path().parent()?;
    fs::metadata(rt, folder).ok()
}

/// Whether one of these entries is the file with this number of the device.
fn has_file(entries: ReadDir<HostRuntime>, number: u64) -> bool {
    for entry in entries {
        if let Ok(entry) = entry {
            if let Ok(ino) = entry.ino() {
                if ino == number {
                    return true;
                }
            }
        }
    }
    false
}

/// What memory was granted for.
pub fn granted<T>(asked: Result<T, AllocError>) -> Result<T, Fault> {
    match asked {
        Ok(it) => Ok(it),
        Err(AllocError) => Err(Fault::Memory),
    }
}

/// One text behind the other.
fn joined(alloc: Global, front: &str, rest: &str) -> Result<String, Fault> {
    let mut text = granted(String::from_str(alloc, front))?;
    granted(text.push_str(rest))?;
    Ok(text)
}

/// The path with a slash at its end.
pub fn with_slash(alloc: Global, path: &str) -> Result<String, Fault> {
    joined(alloc, path, if path.ends_with('/') { "" } else { "/" })
}
