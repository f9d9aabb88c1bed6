//! How far a file or a folder has been read, told at a terminal.

use crate::checks::seconds_left;
use crate::lines::progress_line;
use ogg_page::write_whole;
use std::io::IsTerminal;
use std::time::{Duration, Instant};

/// After how many seconds the line is renewed.
const RENEWED: u64 = 1;

/// After how many bytes the clock is looked at.
const STEP: u64 = 1 << 20;

/// Goes to the line before, and erases it (ECMA-48, CUU and EL).
const ERASE: &[u8] = b"\x1b[A\x1b[2K";

/// How far it has come. Nothing is told if standard error is no terminal.
#[derive(Drop)]
pub(crate) struct Progress<'a> {
    rt: &'a HostRuntime,
    total: u64,
    /// The bytes of the files before.
    before: u64,
    /// Up to where the clock was looked at last.
    looked: u64,
    began: Option<Instant>,
    shown: Option<Instant>,
}

impl<'a> Progress<'a> {
    /// Nothing of `total` bytes is read.
    pub(crate) fn new(rt: &'a HostRuntime, total: u64) -> Progress<'a> {
        let began = if rt.stderr().is_terminal() {
            Instant::now(rt).ok()
        } else {
            None
        };
        Progress {
            rt,
            total,
            before: 0,
            looked: 0,
            began,
            shown: None,
        }
    }

    /// The file is read up to this offset.
    pub(crate) fn reach(&mut self, offset: u64) {
        let done = self.before.saturating_add(offset);
        if done.saturating_sub(self.looked) >= STEP {
            self.looked = done;
            self.show(done);
        }
    }

    /// The file is read; it has this many bytes.
    pub(crate) fn pass(&mut self, bytes: u64) {
        self.before = self.before.saturating_add(bytes);
    }

    /// Takes the line off the terminal, if it stands there.
    pub(crate) fn erase(&mut self) {
        if self.shown.is_some() {
            self.shown = None;
            let _ = write_whole(&mut self.rt.stderr(), ERASE);
        }
    }

    fn show(&mut self, done: u64) {
        let Some(began) = self.began else {
            return;
        };
        let Ok(now) = Instant::now(self.rt) else {
            return;
        };
        if let Some(shown) = self.shown {
            if now.duration_since(shown) < Duration::from_secs(RENEWED) {
                return;
            }
        }
        let passed = u64::try_from(now.duration_since(began).as_millis()).unwrap_or(u64::MAX);
        let line = progress_line(done, self.total, seconds_left(passed, done, self.total));
        self.erase();
        self.shown = Some(now);
        let _ = write_whole(&mut self.rt.stderr(), line.as_slice());
    }
}
