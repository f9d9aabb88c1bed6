//! A reader and a writer over memory, one call of which fails.
ghost use Rattle.std.specs.Prelude.{Some};

use std::io;
use std::io::{ErrorKind, Read, Write};

/// A reader of known bytes, in pieces of at most `step`, whose call number `bad` is interrupted.
#[derive(Drop)]
pub struct FakeReader<'a> {
    rest: &'a [u8],
    step: usize,
    bad: u64,
    calls: u64,
}

impl<'a> FakeReader<'a> {
    /// If `bad` is 0, no call fails.
    pub fn new(rest: &'a [u8], step: usize, bad: u64) -> FakeReader<'a> {
        FakeReader {
            rest,
            step,
            bad,
            calls: 0,
        }
    }

    /// How often it was called.
    pub fn calls(&self) -> u64 {
        self.calls
    }
}

impl Read for FakeReader<'_> {
    ghost remaining = { λ r. Some r.rest.now };

    fn read(&mut self, buf: &mut [u8]) -> io::Result<usize> {
        self.calls = self.calls.saturating_add(1);
        if self.calls == self.bad {
            return Err(io::Error::from(ErrorKind::Interrupted));
        }
        let n = self.rest.len().min(buf.len()).min(self.step.max(1));
        buf[..n].copy_from_slice(&self.rest[..n]);
        self.rest = &self.rest[n..];
        Ok(n)
    }
}

/// A writer to memory, in pieces of at most `step`, whose call number `bad` fails.
#[derive(Drop)]
pub struct FakeWriter {
    written: Vec<u8>,
    step: usize,
    bad: u64,
    calls: u64,
    flushes: u64,
    flushed: usize,
}

impl FakeWriter {
    /// If `bad` is 0, no call fails.
    pub fn new(written: Vec<u8>, step: usize, bad: u64) -> FakeWriter {
        FakeWriter {
            written,
            step,
            bad,
            calls: 0,
            flushes: 0,
            flushed: 0,
        }
    }

    /// What was written so far.
    pub fn written(&self) -> &[u8] {
        self.written.as_slice()
    }

    /// How often it was called.
    pub fn calls(&self) -> u64 {
        self.calls
    }

    /// How often it was flushed, and how many bytes were written before the last time.
    pub fn flushes(&self) -> (u64, usize) {
        (self.flushes, self.flushed)
    }
}

impl Write for FakeWriter {
    ghost contents = { λ w. Some w.written.items };

    fn write(&mut self, buf: &[u8]) -> io::Result<usize> {
        self.calls = self.calls.saturating_add(1);
        if self.calls == self.bad {
            return Err(io::Error::from(ErrorKind::Other));
        }
        let n = buf.len().min(self.step);
        self.written.extend_from_slice(&buf[..n])?;
        Ok(n)
    }

    fn flush(&mut self) -> io::Result<()> {
        self.flushes = self.flushes.saturating_add(1);
        self.flushed = self.written.len();
        Ok(())
    }
}
