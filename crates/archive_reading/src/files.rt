//! A folder of the system, read.
ghost use Rattle.std.specs.Prelude.{◌≡◌};

use crate::listed::{Entry, Listed, Seen, read_entries};
use crate::prefix::Prefix;
use crate::walking::end_from;
use crate::{Memory, ReadingFault};
use archive_names::{Kind, Name};
use archive_times::{LONGEST_LINE, Line, after_line_feed, last_line};
use disk_model::{Disk, FileDisk, FileMode};
use gate_file::{GateFile, OpenFault};
use ogg_page::PageSource;
use std::alloc::Global;
use std::fs;
use std::io::ErrorKind;

/// How many bytes of the end of a file of times are read for its last line: more than a torn line and a whole one.
const TAIL: usize = 4 * LONGEST_LINE;

/// The files of the folder. Names that aren't ours are passed over.
pub fn folder(rt: &HostRuntime, path: &str) -> Result<Seen, ReadingFault> {
    let mut entries = Vec::new(rt.alloc());
    let found = match fs::read_dir(rt, path) {
        Ok(found) => found,
        Err(error) if error.kind() == ErrorKind::OutOfMemory => return Err(ReadingFault::Memory),
        Err(_) => return Err(ReadingFault::File),
    };
    for entry in found {
        match entry {
            Ok(entry) => push_entry(&mut entries, entry.file_name().as_bytes())?,
            // A name that is no text isn't ours.
            Err(error) if error.kind() == ErrorKind::InvalidFilename => {}
            Err(error) if error.kind() == ErrorKind::OutOfMemory => return Err(
                ReadingFault::Memory,
            ),
            Err(_) => return Err(ReadingFault::File),
        }
    }
    match read_entries(rt.alloc(), entries) {
        Ok(seen) => Ok(seen),
        Err(Memory) => Err(ReadingFault::Memory),
    }
}

fn push_entry(entries: &mut Vec<Entry>, text: &[u8]) -> Result<(), ReadingFault> {
    let Some((name, kind)) = Name::read(text) else {
        return Ok(());
    };
    match entries.push(Entry { name, kind }) {
        Ok(()) => Ok(()),
        Err(_) => Err(ReadingFault::Memory),
    }
}

/// The path of what a name stands for in the folder.
pub fn path_of(alloc: Global, folder: &str, name: Name, kind: Kind) -> Result<String, Memory> {
    let mut path = String::from_str(alloc, folder)?;
    if !folder.ends_with('/') {
        path.push('/')?;
    }
    for byte in name.text(kind).as_slice() {
        path.push(char::from(*byte))?;
    }
    Ok(path)
}

/// How many bytes the file has.
pub fn length_of(rt: &HostRuntime, folder: &str, name: Name) -> Result<u64, ReadingFault> {
    let path = path_to(rt, folder, name, Kind::Pages)?;
    match fs::metadata(rt, path.as_str()) {
        Ok(metadata) => Ok(metadata.len()),
        Err(_) => Err(ReadingFault::File),
    }
}

fn path_to(rt: &HostRuntime, folder: &str, name: Name, kind: Kind) -> Result<String, ReadingFault> {
    match path_of(rt.alloc(), folder, name, kind) {
        Ok(path) => Ok(path),
        Err(Memory) => Err(ReadingFault::Memory),
    }
}

/// Opens what a name stands for, to be read.
fn open(rt: &HostRuntime, folder: &str, name: Name, kind: Kind) -> Result<FileDisk, ReadingFault> {
    let path = path_to(rt, folder, name, kind)?;
    match FileDisk::open(rt, path.as_str(), FileMode::ReadOnly) {
        Ok(disk) => Ok(disk),
        Err(_) => Err(ReadingFault::File),
    }
}

/// Bytes of a disk, from `from` on.
fn read_from(
    alloc: Global,
    disk: &mut FileDisk,
    from: u64,
    count: usize,
) -> Result<Vec<u8>, ReadingFault> {
    let mut bytes = Vec::new(alloc);
    let Ok(()) = bytes.resize(count, 0) else {
        return Err(ReadingFault::Memory);
    };
    match disk.read_at(from, bytes.as_mut_slice()) {
        Ok(()) => Ok(bytes),
        Err(_) => Err(ReadingFault::File),
    }
}

/// The text of the file's lines of times, as `archive_times` reads them. It is empty if none stands beside the file, or
/// if it can't be read.
pub fn times_of(rt: &HostRuntime, folder: &str, file: &Listed) -> Result<Vec<u8>, Memory> {
    match end_of_times(rt, folder, file, u64::MAX) {
        Ok((text, _)) => Ok(text),
        Err(ReadingFault::Memory) => Err(Memory),
        Err(_) => Ok(Vec::new(rt.alloc())),
    }
}

/// The last bytes of the text of the file's lines of times, and whether these are all.
fn end_of_times(
    rt: &HostRuntime,
    folder: &str,
    file: &Listed,
    most: u64,
) -> Result<(Vec<u8>, bool), ReadingFault> {
    if !file.has_times {
        return Ok((Vec::new(rt.alloc()), true));
    }
    let mut disk = open(rt, folder, file.name, Kind::Times)?;
    let Ok(length) = disk.len() else {
        return Err(ReadingFault::File);
    };
    let count = length.min(most);
    let Ok(size) = usize::try_from(count) else {
        return Err(ReadingFault::Memory);
    };
    let text = read_from(rt.alloc(), &mut disk, length - count, size)?;
    Ok((text, count == length))
}

/// The last of the file's lines of times that speaks of at most `bytes` bytes. It is read from the end of the lines;
/// only if none is found there are all of them read. There is none if they can't be read.
pub fn last_line_of(
    rt: &HostRuntime,
    folder: &str,
    file: &Listed,
    bytes: u64,
) -> Result<Option<Line>, Memory> {
    match end_of_times(rt, folder, file, TAIL as u64) {
        Ok((text, true)) => return Ok(last_line(text.as_slice(), None, bytes).0),
        Ok((text, false)) => {
            let lines = after_line_feed(text.as_slice());
            if let (Some(line), _) = last_line(lines, None, bytes) {
                return Ok(Some(line));
            }
        }
        Err(ReadingFault::Memory) => return Err(Memory),
        Err(_) => return Ok(None),
    }
    let text = times_of(rt, folder, file)?;
    Ok(last_line(text.as_slice(), None, bytes).0)
}

/// The committed bytes of the file, as a source of pages. From the offset of the line on pages are passed by their
/// heads; if they don't end in what may follow the committed bytes, or if there is no line, all pages are read from the
/// beginning. A file that is written just now may have been caught in a commit, so that is tried twice.
///
/// It is `File` if the file can't be opened, `Open` if its committed bytes can't be found, and `Memory` if memory is
/// refused.
pub fn committed(
    rt: &HostRuntime,
    folder: &str,
    name: Name,
    line: Option<Line>,
) -> Result<Prefix<FileDisk>, ReadingFault> {
    if let Some(line) = line {
        for _ in 0..2 {
            let mut bytes = whole(open(rt, folder, name, Kind::Pages)?)?;
            if let Ok(end) = end_from(&mut bytes, line.offset) {
                // Lines are advice: one may speak of a place within a page.
                if is_closed(&mut bytes, end) {
                    return Ok(bytes.up_to(end));
                }
            }
        }
    }
    match found(rt, folder, name) {
        Ok(bytes) => Ok(bytes),
        Err(ReadingFault::Open(OpenFault::Page(..))) => found(rt, folder, name),
        Err(fault) => Err(fault),
    }
}

/// Whether what follows this place is what our files have after their pages: nothing, a byte 00 and what comes after
/// it, or one byte.
fn is_closed(bytes: &mut Prefix<FileDisk>, end: u64) -> bool
    ensures { bytes.new.end ≡ bytes.old.end }
{
    let size = bytes.end();
    if end >= size {
        return true;
    }
    let mut byte = [0];
    match bytes.read_at(end, &mut byte) {
        Ok(()) => byte[0] == 0 || size - end == 1,
        Err(_) => false,
    }
}

/// All bytes of a disk.
fn whole(disk: FileDisk) -> Result<Prefix<FileDisk>, ReadingFault> {
    match Prefix::whole(disk) {
        Ok(bytes) => Ok(bytes),
        Err(_) => Err(ReadingFault::File),
    }
}

/// The committed bytes of the file, found from its beginning on.
fn found(rt: &HostRuntime, folder: &str, name: Name) -> Result<Prefix<FileDisk>, ReadingFault> {
    match GateFile::find(rt.alloc(), open(rt, folder, name, Kind::Pages)?) {
        Ok(found) => {
            let end = found.end();
            let bytes = whole(found.give_back())?;
            let all = bytes.end();
            Ok(bytes.up_to(end.min(all)))
        }
        Err((fault, _)) => Err(ReadingFault::Open(fault)),
    }
}
