//! What a station is recorded into: a file, or the files of a folder.

use archive_folder::{FileName, Folder, SystemFile};
use archive_names::Kind;
use archive_reading::Prefix;
use archive_record::{ArchiveFault, Beside, text_of};
use archive_requests::{FileFacts, Shelf};
use disk_model::{Disk, FileDisk};
use fault_lines::Fault;
use gate_file::OpenFault;
use import_record::Answered;
use ogg_page::PageSource;
use serve_hub::Hub;
use station::Done;
use station_files::{Clocks, Filed, Readers, Stations};
use std::alloc::Global;
use std::fs::{File, OpenFile};
use std::os::unix::fs::FileExt;
use std::rt::Files as OpensFiles;

/// What a station is recorded into.
pub trait Recorded<D: Disk> {
    /// Before a step: the next file is begun, if that is due. It returns what was answered then.
    fn before<B: Beside>(
        &mut self,
        stations: &mut Stations<D>,
        clocks: Clocks,
        beside: &mut B,
    ) -> Result<Option<Answered>, Fault>;

    /// After a step. If the recording can't go on in this file, it goes on in another one. It returns what is to be told.
    fn after<B: Beside>(
        &mut self,
        done: Done,
        stations: &mut Stations<D>,
        clocks: Clocks,
        beside: &mut B,
    ) -> Result<Done, Fault>;
}

/// One file.
#[derive(Drop)]
pub struct OneFile;

impl<D: Disk> Recorded<D> for OneFile {
    fn before<B: Beside>(
        &mut self,
        _stations: &mut Stations<D>,
        _clocks: Clocks,
        _beside: &mut B,
    ) -> Result<Option<Answered>, Fault> {
        Ok(None)
    }

    fn after<B: Beside>(
        &mut self,
        done: Done,
        _stations: &mut Stations<D>,
        _clocks: Clocks,
        _beside: &mut B,
    ) -> Result<Done, Fault> {
        Ok(done)
    }
}

impl<D: Disk> Shelf<D> for OneFile {
    fn is_folder(&self) -> bool {
        false
    }

    fn file(&mut self, _number: u64, _committed: u64) -> Option<(FileFacts, Prefix<D>)> {
        None
    }

    fn newest(&self) -> u64 {
        0
    }
}

/// The files of a folder.
#[derive(Drop)]
pub struct Files<F: Folder, R> {
    pub filed: Filed<F>,
    pub readers: R,
}

impl<D: Disk + Drop, F: Folder<File = D> + Drop, R: Readers<D> + Drop> Recorded<D> for Files<F, R> {
    fn before<B: Beside>(
        &mut self,
        stations: &mut Stations<D>,
        clocks: Clocks,
        beside: &mut B,
    ) -> Result<Option<Answered>, Fault> {
        match self
            .filed
            .change_if_due(stations, &mut self.readers, clocks, beside)
        {
            Ok(answered) => Ok(answered),
            Err(fault) => Err(fault_of(fault)),
        }
    }

    fn after<B: Beside>(
        &mut self,
        done: Done,
        stations: &mut Stations<D>,
        clocks: Clocks,
        beside: &mut B,
    ) -> Result<Done, Fault> {
        let why = match done {
            Done::Lost(fault) => fault,
            Done::Failed => OpenFault::Disk,
            Done::Reopened(_) => {
                self.filed.opened(stations, clocks.day, beside);
                return Ok(done);
            }
            _ => {
                self.filed.stepped(stations, clocks.day, beside);
                return Ok(done);
            }
        };
        match self
            .filed
            .recover(stations, &mut self.readers, why, clocks, beside)
        {
            Ok(done) => Ok(done),
            Err(fault) => Err(fault_of(fault)),
        }
    }
}

impl<D: Disk + Drop, F: Folder<File = D> + Drop, R: Readers<D> + Drop> Shelf<D> for Files<F, R> {
    fn is_folder(&self) -> bool {
        true
    }

    fn file(&mut self, number: u64, committed: u64) -> Option<(FileFacts, Prefix<D>)> {
        let name = self.filed.named(number)?;
        let whole = Prefix::whole(self.readers.open(name)?).ok()?;
        let has_ended = name != self.filed.name();
        let bytes = if has_ended {
            whole.end()
        } else {
            whole.end().min(committed)
        };
        let file = FileFacts {
            number,
            bytes,
            has_ended,
        };
        Some((file, whole.up_to(bytes)))
    }

    fn newest(&self) -> u64 {
        self.filed.name().number
    }
}

impl<D: Disk + Drop, F: Folder<File = D> + Drop, R: Drop> Files<F, R> {
    /// The station has come to its end. Its newest file is cut to its pages, if that is asked for.
    pub fn close<B: Beside>(self, hub: Hub<D>, seal: bool, beside: &mut B) -> Result<(), Fault> {
        let Files { mut filed, .. } = self;
        match hub.into_recorder() {
            Ok(recorder) if seal => {
                if filed.close(recorder, beside) {
                    Ok(())
                } else {
                    Err(Fault::Seal)
                }
            }
            // There is no file left that could be sealed.
            Err(_) if seal => Err(Fault::Failed),
            _ => Ok(()),
        }
    }
}

/// The fault of a run whose archive has this one.
pub fn fault_of(fault: ArchiveFault) -> Fault {
    match fault {
        ArchiveFault::Folder => Fault::File,
        ArchiveFault::Memory => Fault::Memory,
        ArchiveFault::Numbers => Fault::File,
        ArchiveFault::Disk => Fault::Failed,
        ArchiveFault::Input(fault) => Fault::Archive(fault),
    }
}

/// Opens files of a folder of the system to read them.
#[derive(Drop)]
pub struct SystemReaders<'a, F: OpenFile + FileExt + Drop, R: OpensFiles<File = F>> {
    pub rt: R,
    pub alloc: Global,
    /// With a slash at the end.
    pub folder: &'a str,
}

impl<F: OpenFile + FileExt + Drop, R: OpensFiles<File = F>> Readers<FileDisk<SystemFile<F>>>
    for SystemReaders<'_, F, R> {
    fn open(&mut self, file: FileName) -> Option<FileDisk<SystemFile<F>>> {
        let Ok(name) = text_of(self.alloc, file, Kind::Pages) else {
            return None;
        };
        let Ok(mut path) = String::from_str(self.alloc, self.folder) else {
            return None;
        };
        if path.push_str(name.as_str()).is_err() {
            return None;
        }
        match File::open(&self.rt, path.as_str()) {
            Ok(file) => Some(FileDisk::over(SystemFile::over(file))),
            Err(_) => None,
        }
    }
}
