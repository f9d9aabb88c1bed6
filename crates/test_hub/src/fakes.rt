//! A reader and a writer over memory, one call of which fails.
ghost use Rattle.std.specs.Prelude.{Some};

use std::io;
use std::io::{ErrorKind, Read, Write};

/// A reader of known bytes, in pieces of at most 10, whose call number `bad` fails.
#[derive(Drop)]
pub(super) struct FakeReader<'a> {
    rest: &'a [u8],
    bad: u64,
    calls: u64,
}

impl<'a> FakeReader<'a> {
    /// If `bad` is 0, no call fails.
    pub(super) fn new(rest: &'a [u8], bad: u64) -> FakeReader<'a> {
        FakeReader {
            rest,
            bad,
            calls: 0,
        }
    }
}

impl Read for FakeReader<'_> {
    ghost remaining = { λ r. Some r.rest.now };

    fn read(&mut self, buf: &mut [u8]) -> io::Result<usize> {
        self.calls = self.calls.saturating_add(1);
        if self.calls == self.bad {
            return Err(io::Error::from(ErrorKind::Other));
        }
        let n = self.rest.len().min(buf.len()).min(10);
        buf[..n].copy_from_slice(&self.rest[..n]);
        self.rest = &self.rest[n..];
        Ok(n)
    }
}

/// A writer to memory, in pieces of at most 50 bytes, whose call number `bad` fails.
#[derive(Drop)]
pub(super) struct FakeWriter {
    written: Vec<u8>,
    bad: u64,
    calls: u64,
}

impl FakeWriter {
    /// If `bad` is 0, no call fails.
    pub(super) fn new(written: Vec<u8>, bad: u64) -> FakeWriter {
        FakeWriter {
            written,
            bad,
            calls: 0,
        }
    }

    /// What was written so far.
    pub(super) fn written(&self) -> &[u8] {
        self.written.as_slice()
    }
}

impl Write for FakeWriter {
    ghost contents = { λ w. Some w.written.items };

    fn write(&mut self, buf: &[u8]) -> io::Result<usize> {
        self.calls = self.calls.saturating_add(1);
        if self.calls == self.bad {
            return Err(io::Error::from(ErrorKind::Other));
        }
        let n = buf.len().min(50);
        self.written.extend_from_slice(&buf[..n])?;
        Ok(n)
    }

    fn flush(&mut self) -> io::Result<()> {
        Ok(())
    }
}
