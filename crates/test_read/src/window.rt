//! Pages of a file, through a window that holds one of them at a time.
ghost use Rattle.std.specs.Prelude.{◌≡◌};

use crate::listing::Counted;
use ogg_page::{PageBuffer, PageSource, SourceFault, Window, WindowFault};
use std::fs::File;
use std::io::{self, Write};
use std::os::unix::fs::FileExt;

/// A file, as long as it was when it was opened. Nothing is known of what its reads return.
#[derive(Drop)]
pub struct FileSource {
    file: File,
    length: u64,
    failures: u64,
}

impl PageSource for FileSource {
    ghost use Rattle.std.specs.Prelude.{List, ℕ, []};

    ghost bytes = { λ s. [] };

    ghost size = { λ s. s.length };

    ghost is_honest = { λ s. ⊥ };

    ghost failures = { λ s. s.failures };

    ghost only_reads = { λ s t. Unit {0} };

    fn end(&self) -> u64 {
        self.length
    }

    fn read_at(&mut self, at: u64, buffer: &mut [u8]) -> Result<(), SourceFault> {
        if fill(&self.file, at, buffer) {
            return Ok(());
        }
        self.failures = self.failures.saturating_add(1);
        Err(SourceFault)
    }

    ghost fits = { λ s never. absurd never };

    ghost reads_nothing = { λ s. tt };

    ghost reads_on = { λ s t u first second. tt };
}

/// Whether the buffer could be filled with what stands at `at`.
fn fill(file: &File, at: u64, buffer: &mut [u8]) -> bool {
    let mut done = 0usize;
    for _ in 0..buffer.len() {
        if done >= buffer.len() {
            break;
        }
        match FileExt::read_at(file, &mut buffer[done..], at.saturating_add(done as u64)) {
            Ok(0) | Err(_) => return false,
            Ok(count) => done += count,
        }
    }
    done >= buffer.len()
}

/// A window over a file, and its buffer.
fn opened(rt: &HostRuntime, path: &str) -> io::Result<Window<FileSource>> {
    let file = File::open(rt, path)?;
    let length = file.metadata()?.len();
    let buffer = match PageBuffer::new(rt.alloc()) {
        Ok(buffer) => buffer,
        Err(_) => return Err(io::Error::from(io::ErrorKind::OutOfMemory)),
    };
    let source = FileSource {
        file,
        length,
        failures: 0,
    };
    Ok(Window::new(source, buffer, 0, length))
}

/// Counts the pages up to the first fault, as they are lent.
fn counted(window: &mut Window<FileSource>) -> io::Result<Counted> {
    let mut counted = Counted::new();
    for _ in 0..u64::MAX {
        match window.next() {
            Ok(Some(lent)) => counted.add(lent.offset(), lent.page().whole().len()),
            Ok(None) => break,
            Err(WindowFault::Page(offset, fault)) => {
                counted.fault = Some((offset, fault));
                break;
            }
            Err(WindowFault::Source) => return Err(io::Error::from(io::ErrorKind::InvalidData)),
        }
    }
    Ok(counted)
}

/// Counts the pages of a file up to the first fault.
pub fn count_lent<W: Write>(rt: &HostRuntime, path: &str, output: &mut W) -> io::Result<bool> {
    counted(&mut opened(rt, path)?)?.write(output)
}
