//! Faults and lines that are told of an archive's files.
ghost use Rattle.std.specs.Prelude.{◌≡◌};
ghost use Rattle.file_actions.specs.Checks.{is_memory};

use archive_reading::ReadingFault;
use fault_lines::{Fault, write_fault};
use gate_file::OpenFault;
use link_index::IndexFault;
use ogg_page::{Memory, write_whole};
use std::alloc::Global;
use std::time::SystemTime;

/// After how many bytes lines are written out.
const TOGETHER: usize = 65536;

/// The fault of the program.
pub(crate) fn fault_of(fault: ReadingFault) -> Fault {
    match fault {
        ReadingFault::File => Fault::File,
        ReadingFault::Memory => Fault::Memory,
        ReadingFault::Open(fault) => Fault::Open(fault),
    }
}

/// Whether memory was refused. That is no damage.
pub(crate) fn is_memory(fault: &Fault) -> bool
    ensures { result ≡ is_memory fault.now }
{
    match fault {
        Fault::Memory | Fault::Open(OpenFault::Memory) | Fault::Index(IndexFault::Memory) => true,
        _ => false,
    }
}

/// What the fault's line says after its first word.
pub(crate) fn what_of(alloc: Global, fault: &Fault) -> Result<Vec<u8>, Memory> {
    let mut text = Vec::new(alloc);
    let mut what = Vec::new(alloc);
    let Ok(()) = write_fault(fault, &mut text) else {
        return Err(Memory);
    };
    let text = text.as_slice();
    what.extend_from_slice(text.strip_prefix(b"fault ").unwrap_or(text))?;
    Ok(what)
}

/// Memory that is refused is a fault.
pub(crate) fn or_memory<T>(made: Result<T, Memory>) -> Result<T, Fault> {
    match made {
        Ok(value) => Ok(value),
        Err(Memory) => Err(Fault::Memory),
    }
}

/// Writes the lines to standard output, if they are many.
pub(crate) fn write_many(rt: &HostRuntime, lines: &mut Vec<u8>) -> Result<(), Fault> {
    if lines.len() >= TOGETHER {
        return write_all(rt, lines);
    }
    Ok(())
}

/// Writes the lines to standard output.
pub(crate) fn write_all(rt: &HostRuntime, lines: &mut Vec<u8>) -> Result<(), Fault> {
    match write_whole(&mut rt.stdout(), lines.as_slice()) {
        Ok(()) => {
            lines.clear();
            Ok(())
        }
        Err(_) => Err(Fault::Write),
    }
}

/// The milliseconds since 1970, or 0 if the clock can't be read.
pub(crate) fn now(rt: &HostRuntime) -> u64 {
    let Ok(now) = SystemTime::now(rt) else {
        return 0;
    };
    match now.duration_since(SystemTime::UNIX_EPOCH) {
        Ok(since) => u64::try_from(since.as_millis()).unwrap_or(u64::MAX),
        Err(_) => 0,
    }
}
