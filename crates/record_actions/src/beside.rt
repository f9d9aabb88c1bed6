//! Copies of a file's tails, which stand beside it.
ghost use Rattle.std.specs.Prelude.{◌≡◌, IfOk, string_bytes};
ghost use Rattle.record_actions.specs.TailLine.{tail_line, tail_name};

use crate::asides::Asides;
use crate::tails::Tail;
use disk_model::{FileDisk, FileFault, FileMode, Memory};
use fault_lines::Fault;
use ogg_page::write_whole;
use std::alloc::Global;

/// The copies of a file's tails: files beside it, named for where the tail begins. Each is told by a line on standard
/// error.
#[derive(Drop)]
pub struct TailFiles<'a> {
    rt: &'a HostRuntime,
    file: &'a str,
}

impl<'a> TailFiles<'a> {
    /// Those of this file. None is opened yet.
    pub fn of(rt: &'a HostRuntime, file: &'a str) -> TailFiles<'a> {
        TailFiles { rt, file }
    }
}

impl Asides for TailFiles<'_> {
    type Copy = FileDisk;

    fn open(&mut self, offset: u64, number: u32) -> Result<FileDisk, Fault> {
        let Ok(name) = name_of(self.rt.alloc(), self.file, offset, number) else {
            return Err(Fault::Memory);
        };
        match FileDisk::lock(self.rt, name.as_str(), FileMode::Create) {
            Ok(disk) => Ok(disk),
            Err(FileFault::Memory) => Err(Fault::Memory),
            Err(FileFault::Locked | FileFault::Refused) => Err(Fault::File),
        }
    }

    fn tell(&mut self, tail: Tail, number: u32) {
        let Ok(name) = name_of(self.rt.alloc(), self.file, tail.offset, number) else {
            return;
        };
        if let Ok(line) = line_of(self.rt.alloc(), tail, name.as_str()) {
            let _ = write_whole(&mut self.rt.stderr(), line.as_bytes());
        }
    }
}

/// The name of the copy with this number of what begins at this offset.
fn name_of(alloc: Global, file: &str, offset: u64, number: u32) -> Result<String, Memory>
    ensures { IfOk result (λ name. string_bytes name ≡ tail_name file.now offset number) }
{
    let mut name = String::from_str(alloc, file)?;
    name.push_str(".tail-")?;
    name.push_str(offset.to_string(alloc)?.as_str())?;
    if number > 1 {
        name.push_str("-")?;
        name.push_str(number.to_string(alloc)?.as_str())?;
    }
    Ok(name)
}

/// The line that tells of the copy with this name.
fn line_of(alloc: Global, tail: Tail, name: &str) -> Result<String, Memory>
    ensures { IfOk result (λ line. string_bytes line ≡ tail_line tail name.now) }
{
    let mut line = String::from_str(alloc, "tail ")?;
    line.push_str(tail.offset.to_string(alloc)?.as_str())?;
    line.push_str(" ")?;
    line.push_str(tail.bytes.to_string(alloc)?.as_str())?;
    line.push_str(" ")?;
    line.push_str(name)?;
    line.push_str("\n")?;
    Ok(line)
}
