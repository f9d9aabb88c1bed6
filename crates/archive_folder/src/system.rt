//! A folder of the system. That it is honest is a premise: no contract can give it.
ghost use Rattle.std.specs.Prelude.{◌≡◌, ℕ, List, [], None, Some, IfOk, IfErr, IfSome, string_bytes};
ghost use Rattle.archive_folder.specs.declared.names.FileName.{FileName as FileNameOf};
ghost use Rattle.disk_model.specs.Image.{settled};
ghost use Rattle.archive_folder.specs.Names.{Nowhere};

use crate::{FaultKind, FileFacts, FileFolder, FileName, RawFolder};
use disk_model::{DiskFault, FileDisk, Memory, RawFile};
use std::alloc::{Alloc, Global};
use std::fs::{self, File, OpenFile, OpenOptions};
use std::io::{self, ErrorKind};
use std::os::unix::fs::FileExt;
use std::rt::Files;

/// How the names of files are spelt.
pub trait Naming {
    /// The texts of a name.
    ghost spells: { FileNameOf → List ℕ → Type 0 };

    /// The names of which all that they say can be told.
    ghost is_told: { FileNameOf → Type 0 };

    /// What a name says, if it is one of ours.
    fn read(&self, text: &str) -> Option<FileName>
        ensures spelt { IfSome result (λ name. spells name text.now) }
        ensures each { (name : FileNameOf) → is_told name → spells name text.now → result ≡ Some name };

    /// The name's text, which ends in `.ogg`. After an error memory was refused.
    fn write(&self, alloc: Global, name: FileName) -> Result<String, FaultKind>
        ensures spelt { IfOk result (λ text. spells name (string_bytes text)) }
        ensures memory { IfErr result (λ kind. kind ≡ FaultKind.Memory) };
}

/// A folder of the system: `R` opens its files, and `N` spells their names.
#[derive(Drop)]
pub struct SystemFolder<F: OpenFile + FileExt + Drop, R: Files<File = F>, N: Naming> {
    rt: R,
    naming: N,
    alloc: Global,
    /// Its path, with a slash at the end.
    path: String,
    given_back: Option<(u64, FileDisk<SystemFile<F>>)>,
}

/// A file of the system that keeps why it failed last.
#[derive(Drop)]
pub struct SystemFile<F: OpenFile + FileExt + Drop> {
    file: F,
    /// Whether it may be that it was never synced.
    is_new: bool,
    last: Option<FaultKind>,
}

impl<F: OpenFile + FileExt + Drop> SystemFile<F> {
    /// A file that was opened. It may be that it was never synced.
    pub fn over(file: F) -> SystemFile<F> {
        SystemFile {
            file,
            is_new: true,
            last: None,
        }
    }
}

impl<
    F: OpenFile + FileExt + Drop,
    R: Files<File = F> + Alloc + Clone + Drop,
    N: Naming + Drop,
> SystemFolder<F, R, N> {
    ghost use Rattle.archive_folder.specs.FileFolder.{last_of, failures_of};

    /// The folder at a path. Nothing of it is looked at yet.
    pub fn at(
        alloc: Global,
        rt: R,
        naming: N,
        path: &str,
    ) -> Result<FileFolder<SystemFolder<F, R, N>>, Memory>
        ensures last { IfOk result (λ folder. last_of folder ≡ None) }
        ensures failures { IfOk result (λ folder. failures_of folder ≡ 0) }
    {
        let mut whole = String::from_str(alloc, path)?;
        if !path.ends_with('/') {
            whole.push('/')?;
        }
        Ok(FileFolder::over(SystemFolder {
            rt,
            naming,
            alloc,
            path: whole,
            given_back: None,
        }))
    }

    /// Whether the file with this number is open still.
    fn has_open(&self, number: u64) -> bool {
        match &self.given_back {
            Some((back, _)) => *back == number,
            None => false,
        }
    }

    /// The path of a file.
    fn path_of(&self, name: FileName) -> Result<String, FaultKind> {
        let text = self.naming.write(self.alloc, name)?;
        joined(self.alloc, self.path.as_str(), text.as_str())
    }
}

/// One text after the other.
fn joined(alloc: Global, front: &str, rest: &str) -> Result<String, FaultKind> {
    let Ok(mut text) = String::from_str(alloc, front) else {
        return Err(FaultKind::Memory);
    };
    match text.push_str(rest) {
        Ok(()) => Ok(text),
        Err(Memory) => Err(FaultKind::Memory),
    }
}

/// The path of the times that stand beside a file.
fn times_beside(alloc: Global, path: &str) -> Result<String, FaultKind> {
    joined(alloc, path.strip_suffix(".ogg").unwrap_or(path), ".times")
}

/// The path of the mark that keeps a file.
fn mark_beside(alloc: Global, path: &str) -> Result<String, FaultKind> {
    joined(alloc, path, ".keep")
}

/// How long a file is, if there is one.
fn length_of<R: Files>(rt: &R, path: &str) -> Result<Option<u64>, FaultKind> {
    match fs::metadata(rt, path) {
        Ok(metadata) => Ok(Some(metadata.len())),
        Err(error) if error.kind() == ErrorKind::NotFound => Ok(None),
        Err(error) => Err(kind_of(&error)),
    }
}

/// Removes a file, if there is one.
fn remove_if_there<R: Files>(rt: &R, path: &str) -> Result<(), FaultKind> {
    match fs::remove_file(rt, path) {
        Ok(()) => Ok(()),
        Err(error) if error.kind() == ErrorKind::NotFound => Ok(()),
        Err(error) => Err(kind_of(&error)),
    }
}

fn kind_of(error: &io::Error) -> FaultKind {
    match error.kind() {
        ErrorKind::StorageFull | ErrorKind::QuotaExceeded => FaultKind::Full,
        ErrorKind::OutOfMemory => FaultKind::Memory,
        _ => FaultKind::Refused,
    }
}

impl<
    F: OpenFile + FileExt + Drop,
    R: Files<File = F> + Alloc + Clone + Drop,
    N: Naming + Drop,
> RawFolder for SystemFolder<F, R, N> {
    type File = FileDisk<SystemFile<F>>;

    ghost names = { λ _. [] };

    ghost file = { λ _ _. Nowhere };

    ghost is_honest = { λ _. ⊥ };

    ghost moment = { λ _. 0 };

    ghost left_since = { λ _ _ _. ⊥ };

    ghost laws = { λ _ honest. absurd honest };

    fn entries(&mut self, alloc: Global) -> Result<Vec<FileName>, FaultKind> {
        let mut files = Vec::new(alloc);
        let entries = match fs::read_dir(&self.rt, self.path.as_str()) {
            Ok(entries) => entries,
            Err(error) => return Err(kind_of(&error)),
        };
        for entry in entries {
            match entry {
                Ok(entry) => {
                    if let Some(name) = self.naming.read(entry.file_name()) {
                        push_name(&mut files, name)?;
                    }
                }
                // A name that is no text isn't ours.
                Err(error) if error.kind() == ErrorKind::InvalidFilename => {}
                Err(error) => return Err(kind_of(&error)),
            }
        }
        Ok(files)
    }

    fn facts(&mut self, name: FileName) -> Result<FileFacts, FaultKind> {
        let path = self.path_of(name)?;
        let times = times_beside(self.alloc, path.as_str())?;
        let mark = mark_beside(self.alloc, path.as_str())?;
        let length = length_of(&self.rt, path.as_str())?.unwrap_or(0);
        let beside = length_of(&self.rt, times.as_str())?.unwrap_or(0);
        Ok(FileFacts {
            bytes: length.saturating_add(beside),
            is_held: length_of(&self.rt, mark.as_str())?.is_some(),
        })
    }

    fn create_new(&mut self, name: FileName) -> Result<FileDisk<SystemFile<F>>, FaultKind> {
        let path = self.path_of(name)?;
        match File::create_new(&self.rt, path.as_str()) {
            Ok(file) => Ok(FileDisk::over(SystemFile::over(file))),
            Err(error) => Err(kind_of(&error)),
        }
    }

    fn open(&mut self, name: FileName) -> Result<FileDisk<SystemFile<F>>, FaultKind> {
        if let Some((number, disk)) = self.given_back.take() {
            if number == name.number {
                return Ok(disk);
            }
        }
        let path = self.path_of(name)?;
        let mut options = OpenOptions::new();
        options.read(true);
        options.write(true);
        match options.open(&self.rt, path.as_str()) {
            Ok(file) => Ok(FileDisk::over(SystemFile::over(file))),
            Err(error) => Err(kind_of(&error)),
        }
    }

    fn take_back(&mut self, number: u64, disk: FileDisk<SystemFile<F>>) -> Option<FaultKind> {
        let mut file = disk.into_inner();
        let last = file.last.take();
        self.given_back = Some((number, FileDisk::over(file)));
        last
    }

    fn remove_file(&mut self, name: FileName) -> Result<(), FaultKind> {
        let path = self.path_of(name)?;
        let times = times_beside(self.alloc, path.as_str())?;
        // While a file is open its bytes stay on the device.
        if self.has_open(name.number) {
            self.given_back = None;
        }
        match fs::remove_file(&self.rt, path.as_str()) {
            Ok(()) => remove_if_there(&self.rt, times.as_str()),
            Err(error) => Err(kind_of(&error)),
        }
    }

    fn sync_all(&mut self) -> Result<(), FaultKind> {
        let folder = match File::open(&self.rt, self.path.as_str()) {
            Ok(folder) => folder,
            Err(error) => return Err(kind_of(&error)),
        };
        match OpenFile::sync_all(&folder) {
            Ok(()) => Ok(()),
            Err(error) => Err(kind_of(&error)),
        }
    }
}

fn push_name(files: &mut Vec<FileName>, name: FileName) -> Result<(), FaultKind> {
    match files.reserve(1) {
        Ok(()) => {
            files.push_reserved(name);
            Ok(())
        }
        Err(Memory) => Err(FaultKind::Memory),
    }
}

/// Keeps why a call of a file failed.
fn note(last: &mut Option<FaultKind>, error: &io::Error) -> DiskFault {
    *last = Some(kind_of(error));
    DiskFault
}

impl<F: OpenFile + FileExt + Drop> RawFile for SystemFile<F> {
    ghost state = { λ _. settled [] };

    ghost is_honest = { λ _. ⊥ };

    ghost moment = { λ _. 0 };

    ghost images_since = { λ _ _ _. ⊥ };

    ghost laws = { λ _ honest. absurd honest };

    fn size(&mut self) -> Result<u64, DiskFault> {
        let answer = OpenFile::metadata(&self.file);
        match answer {
            Ok(metadata) => Ok(metadata.len()),
            Err(error) => Err(note(&mut self.last, &error)),
        }
    }

    fn read_some(&mut self, at: u64, buffer: &mut [u8]) -> Result<usize, DiskFault> {
        match FileExt::read_at(&self.file, buffer, at) {
            Ok(count) => Ok(count),
            Err(error) => Err(note(&mut self.last, &error)),
        }
    }

    fn write_some(&mut self, at: u64, bytes: &[u8]) -> Result<usize, DiskFault> {
        match FileExt::write_at(&self.file, bytes, at) {
            Ok(count) => Ok(count),
            Err(error) => Err(note(&mut self.last, &error)),
        }
    }

    fn set_size(&mut self, to: u64) -> Result<(), DiskFault> {
        match OpenFile::set_len(&self.file, to) {
            Ok(()) => Ok(()),
            Err(error) => Err(note(&mut self.last, &error)),
        }
    }

    /// The first sync of a file that may be new is of all that the system keeps of it.
    fn sync_data(&mut self) -> Result<(), DiskFault> {
        let answer = if self.is_new {
            OpenFile::sync_all(&self.file)
        } else {
            OpenFile::sync_data(&self.file)
        };
        match answer {
            Ok(()) => {
                self.is_new = false;
                Ok(())
            }
            Err(error) => Err(note(&mut self.last, &error)),
        }
    }
}
