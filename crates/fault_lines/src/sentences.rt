//! Faults told to people: the line of a fault goes on with what it is about, and why.
ghost use Rattle.std.specs.Prelude.{◌≡◌, ◌≤◌, IfOk, IfErr};
ghost use Rattle.std.specs.Process.{exit_status};

use crate::fault::{Fault, line_of, status_of};
use gate_file::OpenFault;
use import_record::RecordFault;
use ogg_page::write_whole;
use std::alloc::AllocError;
use std::fs::{self, File, OpenOptions};
use std::io::ErrorKind;
use std::os::unix::fs::MetadataExt;
use std::process::ExitCode;

/// What a word works on.
#[derive(Clone, Copy, Debug, PartialEq, Eq)]
pub enum Place<'a> {
    File(&'a str),
    Folder(&'a str),
    /// A file or a folder.
    Either(&'a str),
}

impl<'a> Place<'a> {
    fn path(self) -> &'a str {
        match self {
            Place::File(path) | Place::Folder(path) | Place::Either(path) => path,
        }
    }
}

/// The status of a program that has ended so. A fault's line goes to standard error, and if it is about this place, or
/// about what comes on standard input, it goes on after a colon with a sentence.
pub fn status_about(rt: &HostRuntime, ended: Result<(), Fault>, place: Place<'_>) -> ExitCode
    ensures done { IfOk ended (λ done. exit_status result ≡ 0) }
    ensures fault { IfErr ended (λ fault. exit_status result ≡ 1) }
    ensures within { exit_status result ≤ 1 }
{
    let Err(fault) = ended else {
        return ExitCode::SUCCESS;
    };
    match sentence_of(rt, fault, place) {
        Ok(Some(sentence)) => told(rt, fault, sentence.as_str()),
        Ok(None) | Err(AllocError) => status_of(rt, Err(fault)),
    }
}

/// The status after a fault of this, for that reason, which its line goes on with.
pub fn told_about(rt: &HostRuntime, fault: Fault, about: &str, why: &str) -> ExitCode
    ensures { exit_status result ≡ 1 }
{
    match format!(in rt.alloc(); "{about}: {why}") {
        Ok(sentence) => told(rt, fault, sentence.as_str()),
        Err(AllocError) => status_of(rt, Err(fault)),
    }
}

/// The status after a fault whose line goes on with this sentence.
fn told(rt: &HostRuntime, fault: Fault, sentence: &str) -> ExitCode
    ensures { exit_status result ≡ 1 }
{
    match line_with(rt, fault, sentence) {
        Ok(line) => {
            let _ = write_whole(&mut rt.stderr(), line.as_slice());
            ExitCode::from(1)
        }
        Err(AllocError) => status_of(rt, Err(fault)),
    }
}

/// The line of the fault, with this sentence at its end.
fn line_with(rt: &HostRuntime, fault: Fault, sentence: &str) -> Result<Vec<u8>, AllocError> {
    let line = line_of(fault);
    let front = match line.as_slice() {
        [front @ .., _] => front,
        [] => &[],
    };
    let mut text = Vec::from_slice(rt.alloc(), front)?;
    text.extend_from_slice(b": ")?;
    text.extend_from_slice(sentence.as_bytes())?;
    text.push(b'\n')?;
    Ok(text)
}

/// What there is to say of a fault beside its line.
fn sentence_of(
    rt: &HostRuntime,
    fault: Fault,
    place: Place<'_>,
) -> Result<Option<String>, AllocError> {
    let alloc = rt.alloc();
    let path = place.path();
    let text = match fault {
        Fault::File => format!(in alloc; "{path}: {}", refusal_of(rt, place))?,
        Fault::Locked => format!(in alloc; "{path} is written by another program")?,
        Fault::Foreign => format!(in alloc; "{path} holds something else than a recording")?,
        Fault::Open(OpenFault::Page(offset, _) | OpenFault::Chain(offset, _)) => {
            format!(in alloc;
                "{path} is damaged at byte {offset}; archive NEW.ogg < {path} keeps what is good"
            )?
        }
        Fault::Open(OpenFault::Unfinished(_)) => {
            format!(in alloc;
                "{path} ends within a packet; archive NEW.ogg < {path} keeps what is whole"
            )?
        }
        Fault::Open(OpenFault::Disk) => format!(in alloc; "{path} can't be read, or not written")?,
        Fault::Archive(RecordFault::Read) => input_of(rt, place)?,
        Fault::NoPage => format!(in alloc; "no page of Ogg came on standard input")?,
        _ => return Ok(None),
    };
    Ok(Some(text))
}

/// Why standard input isn't read.
fn input_of(rt: &HostRuntime, place: Place<'_>) -> Result<String, AllocError> {
    let path = place.path();
    if is_input(rt, path) {
        format!(in rt.alloc(); "{path} is the input itself")
    } else {
        format!(in rt.alloc(); "standard input can't be read")
    }
}

/// Whether standard input is this file. A run that read what it writes would never end.
pub fn is_input(rt: &HostRuntime, file: &str) -> bool {
    let (Ok(input), Ok(output)) = (fs::metadata(rt, "/dev/stdin"), fs::metadata(rt, file)) else {
        return false;
    };
    input.dev() == output.dev() && input.ino() == output.ino()
}

/// Why the system refuses a file or a folder, as it says when it is asked once more.
fn refusal_of(rt: &HostRuntime, place: Place<'_>) -> &'static str {
    let path = place.path();
    let metadata = match fs::metadata(rt, path) {
        Ok(metadata) => metadata,
        Err(error) => return reason(error.kind()),
    };
    if let (Place::Folder(_), false) = (place, metadata.is_dir()) {
        return "it is no folder";
    }
    if let (Place::File(_), true) = (place, metadata.is_dir()) {
        return "it is a folder";
    }
    if let Err(error) = File::open(rt, path) {
        return reason(error.kind());
    }
    match OpenOptions::new().write(true).open(rt, path) {
        Ok(_) => "it can't be read, or not written",
        Err(error) => reason(error.kind()),
    }
}

/// What a refusal of the system says.
fn reason(kind: ErrorKind) -> &'static str {
    match kind {
        ErrorKind::NotFound => "no such file or folder",
        ErrorKind::PermissionDenied => "permission denied",
        ErrorKind::NotADirectory => "a part of this path is no folder",
        ErrorKind::IsADirectory => "it is a folder",
        ErrorKind::ReadOnlyFilesystem => "this file system can't be written",
        ErrorKind::StorageFull => "no room is left",
        _ => "the system refuses it",
    }
}
