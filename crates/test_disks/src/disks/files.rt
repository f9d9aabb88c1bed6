//! Files of the system, in a folder made here.

use disk_model::{Disk, DiskFault, FileDisk, FileMode};
use std::path::PathBuf;
use std::test::Fail;
use std::{env, fs, process};

/// Makes a folder that no other test has.
fn new_folder(rt: &HostRuntime) -> Result<PathBuf, Fail> {
    let id = process::id(rt.process());
    let name = format!(in rt.alloc(); "disk_model-{id}")?;
    let folder = env::temp_dir(rt)?.join(rt.alloc(), name.as_str())?;
    fs::create_dir(rt, folder.as_path())?;
    Ok(folder)
}

/// What is opened.
#[derive(Clone, Copy)]
enum Place {
    /// A file with this name in the folder.
    Named(&'static str),
    /// The folder.
    Folder,
    /// A device that has no room, and so takes no byte.
    Full,
}

/// A call of a disk.
#[derive(Clone, Copy)]
enum Call {
    Write(u64, &'static [u8]),
    /// A read of up to five bytes, which are these.
    Read(u64, &'static [u8]),
    Cut(u64),
    Sync,
    /// The disk's length, which is this.
    Len(u64),
}

/// Calls, and whether each succeeds.
type Calls = &'static [(Call, bool)];

/// What is opened and how, and if it can be opened, calls of it.
const OPENED: [(Place, FileMode, Option<Calls>); 16] = [
    // Only one mode makes what isn't there.
    (Place::Named("a"), FileMode::ReadWrite, None),
    (Place::Named("a"), FileMode::ReadOnly, None),
    (
        Place::Named("a"),
        FileMode::Create,
        Some(&[
            (Call::Len(0), true),
            (Call::Write(0, b"hello world"), true),
            (Call::Write(6, b"there"), true),
            (Call::Sync, true),
        ]),
    ),
    // No mode shortens what is there.
    (Place::Named("a"), FileMode::Create, WRITES),
    (Place::Named("a"), FileMode::Create, WRITTEN_ANEW),
    (Place::Named("a"), FileMode::ReadWrite, WRITES),
    (Place::Named("a"), FileMode::Create, WRITTEN_ANEW),
    (
        Place::Named("a"),
        FileMode::ReadOnly,
        Some(&[
            (Call::Len(11), true),
            (Call::Read(6, b"there"), true),
            (Call::Write(6, b"w"), false),
            (Call::Cut(10), false),
        ]),
    ),
    (Place::Named("a"), FileMode::Create, WRITTEN_ANEW),
    // Past the end there is nothing to read, and no disk is longer than 2^63 - 1 bytes.
    (
        Place::Named("b"),
        FileMode::Create,
        Some(&[
            (Call::Write(0, b"hello"), true),
            (Call::Read(4, b"o?"), false),
            (Call::Write(i64::MAX as u64, b"x"), false),
            (Call::Write(u64::MAX, b"xy"), false),
            (Call::Len(5), true),
        ]),
    ),
    (Place::Named("missing/file"), FileMode::Create, None),
    // A folder can be opened, but not read.
    (Place::Folder, FileMode::ReadWrite, None),
    (
        Place::Folder,
        FileMode::ReadOnly,
        Some(&[(Call::Read(0, b"?"), false)]),
    ),
    (
        Place::Full,
        FileMode::ReadWrite,
        Some(&[(Call::Write(0, b"x"), false), (Call::Write(0, b""), true)]),
    ),
    // Both files stay.
    (Place::Named("a"), FileMode::ReadOnly, Some(&[])),
    (Place::Named("b"), FileMode::ReadOnly, Some(&[])),
];

const WRITES: Option<Calls> = Some(&[
    (Call::Len(11), true),
    (Call::Read(6, b"there"), true),
    (Call::Write(6, b"w"), true),
    (Call::Cut(10), true),
]);

const WRITTEN_ANEW: Option<Calls> = Some(&[
    (Call::Cut(10), true),
    (Call::Write(6, b"there"), true),
]);

/// Makes the call, and returns whether it found what it says.
fn made(disk: &mut FileDisk, call: Call) -> Result<bool, DiskFault> {
    match call {
        Call::Write(at, bytes) => disk.write_at(at, bytes)?,
        Call::Read(at, bytes) => {
            let mut room = [0; 5];
            let (buffer, _) = room.split_at_mut(bytes.len().min(5));
            disk.read_at(at, buffer)?;
            return Ok(&*buffer == bytes);
        }
        Call::Cut(to) => disk.cut(to)?,
        Call::Sync => disk.sync()?,
        Call::Len(length) => return Ok(disk.len()? == length),
    }
    Ok(true)
}

/// Whether each call succeeds or fails as it is told.
fn are_as_told(disk: &mut FileDisk, calls: Calls) -> bool {
    for (call, succeeds) in calls {
        let is_as_told = match made(disk, *call) {
            Ok(found) => *succeeds && found,
            Err(DiskFault) => !*succeeds,
        };
        if !is_as_told {
            return false;
        }
    }
    true
}

/// Opens the place, and makes the calls. It returns whether it can't be opened as it is told, or the calls end as
/// they are told.
fn is_as_told(rt: &HostRuntime, path: &str, mode: FileMode, calls: Option<Calls>) -> bool {
    match (FileDisk::open(rt, path, mode), calls) {
        (Ok(mut disk), Some(calls)) => are_as_told(&mut disk, calls),
        (Err(_), None) => true,
        _ => false,
    }
}

#[test]
fn files_are_opened_written_and_read_as_the_rows_say(rt: HostRuntime) -> Result<(), Fail> {
    let folder = new_folder(&rt)?;
    for &(place, mode, calls) in &OPENED {
        let is_told = match place {
            Place::Named(name) => {
                let file = folder.join(rt.alloc(), name)?;
                is_as_told(&rt, file.as_str(), mode, calls)
            }
            Place::Folder => is_as_told(&rt, folder.as_str(), mode, calls),
            Place::Full => is_as_told(&rt, "/dev/full", mode, calls),
        };
        assert!(rt; is_told);
    }
    for name in ["a", "b"] {
        fs::remove_file(&rt, folder.join(rt.alloc(), name)?.as_path())?;
    }
    fs::remove_dir(&rt, folder.as_path())?;
    Ok(())
}
