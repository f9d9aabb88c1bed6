//! A folder of the system, in a folder made here.
use crate::spelling::{Digits, named};
use archive_folder::{FaultKind, FileFacts, FileFolder, FileName, Folder, SystemFolder};
use disk_model::{Disk, DiskFault};
use std::alloc::Global;
use std::fs::File;
use std::path::PathBuf;
use std::test::Fail;
use std::{env, fs, process};

type Real<'a> = FileFolder<SystemFolder<File, &'a HostRuntime, Digits>>;

/// Makes a folder that no other test has.
fn new_folder(rt: &HostRuntime) -> Result<PathBuf, Fail> {
    let id = process::id(rt.process());
    let name = format!(in rt.alloc(); "archive_folder-{id}")?;
    let folder = env::temp_dir(rt)?.join(rt.alloc(), name.as_str())?;
    fs::create_dir(rt, folder.as_path())?;
    Ok(folder)
}

/// Makes a file beside those that the folder makes.
fn put(rt: &HostRuntime, folder: &PathBuf, name: &str, bytes: &[u8]) -> Result<(), Fail> {
    let path = folder.join(rt.alloc(), name)?;
    fs::write(rt, path.as_path(), bytes)?;
    Ok(())
}

fn is_there(rt: &HostRuntime, folder: &PathBuf, name: &str) -> Result<bool, Fail> {
    let path = folder.join(rt.alloc(), name)?;
    Ok(path.as_path().exists(rt))
}

/// Whether the folder lists these files.
fn lists(folder: &mut Real<'_>, alloc: Global, wanted: &[FileName]) -> bool {
    match folder.list(alloc) {
        Ok(files) => files.as_slice() == wanted,
        Err(_) => false,
    }
}

/// Makes file 100, and gives it back with seven bytes.
fn make(folder: &mut Real<'_>) -> Result<(), DiskFault> {
    let mut made = folder.make(named(100))?;
    made.write_at(0, b"hundred")?;
    made.sync()?;
    folder.give_back(100, made);
    folder.sync()
}

/// How long a file is that is opened.
fn opened_length(folder: &mut Real<'_>, number: u64) -> Result<u64, DiskFault> {
    folder.open(named(number))?.len()
}

#[test]
fn a_file_is_made_where_none_is_and_opened_as_it_stands(rt: HostRuntime) -> Result<(), Fail> {
    let path = new_folder(&rt)?;
    // Files of other names are left alone, and not listed.
    put(&rt, &path, "notes.txt", b"notes")?;
    put(&rt, &path, "12.ogg", b"twelve")?;
    put(&rt, &path, "12.times", b"times")?;
    let mut folder = SystemFolder::at(rt.alloc(), &rt, Digits, path.as_path().as_str())?;
    assert!(rt; lists(&mut folder, rt.alloc(), &[named(12)]));
    assert!(rt; make(&mut folder) == Ok(()));
    assert!(rt; folder.make(named(100)).is_err());
    assert!(rt; folder.last_fault() == Some(FaultKind::Refused));
    assert!(rt; lists(&mut folder, rt.alloc(), &[named(12), named(100)]));
    // The file that was given back is handed out again, and another one as it stands.
    assert!(rt; opened_length(&mut folder, 100) == Ok(7));
    assert!(rt; opened_length(&mut folder, 12) == Ok(6));
    assert!(rt; opened_length(&mut folder, 13) == Err(DiskFault));
    assert!(rt; is_removed(&rt, &path, &mut folder)?);
    fs::remove_dir_all(&rt, path.as_path())?;
    assert!(rt; folder.sync() == Err(DiskFault));
    assert!(rt; !lists(&mut folder, rt.alloc(), &[]));
    Ok(())
}

/// Whether what is removed goes with its times, and a mark beside a file is told.
fn is_removed(rt: &HostRuntime, path: &PathBuf, folder: &mut Real<'_>) -> Result<bool, Fail> {
    let free = folder.facts(named(12)) == Ok(facts(false));
    put(rt, path, "12.ogg.keep", b"")?;
    let held = folder.facts(named(12)) == Ok(facts(true));
    let gone = folder.remove(named(12)) == Ok(())
        && !is_there(rt, path, "12.ogg")?
        && !is_there(rt, path, "12.times")?;
    let left = is_there(rt, path, "notes.txt")? && is_there(rt, path, "12.ogg.keep")?;
    Ok(free && held && gone && left && folder.remove(named(12)) == Err(DiskFault))
}

/// What is to be told of a file of six bytes with five of times.
fn facts(is_held: bool) -> FileFacts {
    FileFacts { bytes: 11, is_held }
}
