//! What is told of a time in which nothing was recorded.
ghost use Rattle.std.specs.Prelude.{◌≡◌, IsSome, None, false, true};

use crate::cut_lines::nothing_line;
use crate::cutting::{Asked, Finds, Seen};
use crate::telling::or_memory;
use archive_names::Name;
use archive_reading::{GAP, goes_on_with};
use archive_times::next_line;
use fault_lines::Fault;

/// Whether something was on the air, as far as files were looked at.
#[derive(Clone, Copy)]
pub(crate) struct Air {
    // since when no link was open, if none is
    quiet: Option<u64>,
    // a file was left out since then
    is_lost: bool,
    // the time up to which is told
    told: u64,
    // the file before, and whether it was looked at
    before: Option<Name>,
    is_known: bool,
}

impl Air {
    /// No file was looked at yet.
    pub(crate) fn from(since: Option<u64>) -> Air {
        Air {
            quiet: since,
            is_lost: false,
            told: 0,
            before: None,
            is_known: false,
        }
    }

    /// A file isn't looked at, since nothing of it is asked for.
    pub(crate) fn pass(&mut self, name: Name) {
        self.before = Some(name);
        self.is_known = false;
    }

    /// A file is left out that was begun at this time.
    pub(crate) fn leave_out(&mut self, name: Name, begin: u64)
        ensures { IsSome self.new.quiet × (self.new.is_lost ≡ true) }
    {
        let told = match self.before {
            Some(_) => self.told,
            None => begin,
        };
        self.quiet = Some(self.quiet.unwrap_or(told));
        self.is_lost = true;
        self.before = Some(name);
        self.is_known = true;
    }

    /// A link is open from now on.
    fn open(&mut self)
        ensures { (self.new.quiet ≡ None) × (self.new.is_lost ≡ false) }
    {
        self.quiet = None;
        self.is_lost = false;
    }

    /// For how long there must be nothing, that it is told, in milliseconds.
    fn least_gap(&self) -> u64
        ensures { self.now.is_lost ≡ true → result ≡ 1 }
    {
        if self.is_lost { 1 } else { GAP }
    }
}

impl<'a> Asked<'a> {
    /// Notes when links were open, by the lines of the file.
    pub(crate) fn note_air(&self, seen: &Seen, finds: &mut Finds) -> Result<(), Fault> {
        let air = finds.air;
        let begin = seen.facts.begin;
        finds.air.quiet = match air.before {
            Some(before) if goes_on_with(before, seen.name) => if air.is_known {
                air.quiet
            } else {
                None
            },
            Some(_) => Some(air.quiet.unwrap_or(air.told)),
            None => air.quiet,
        };
        finds.air.before = Some(seen.name);
        finds.air.is_known = true;
        finds.air.told = begin;
        let mut last = None;
        let mut rest = seen.times.as_slice();
        while let Some((line, after)) = next_line(rest, last, seen.facts.committed) {
            self.note_line(line.time.max(begin), line.join.is_some(), finds)?;
            last = Some(line);
            rest = after;
        }
        if last.is_none() {
            // Nothing is known of it but that it was recorded.
            self.note_line(begin, true, finds)?;
            finds.air.told = seen.facts.later;
        }
        Ok(())
    }

    /// Notes whether a link was open at the time.
    fn note_line(&self, time: u64, is_open: bool, finds: &mut Finds) -> Result<(), Fault> {
        match finds.air.quiet {
            Some(quiet) => if is_open {
                self.add_gap(quiet, time, finds)?;
                finds.air.open();
            },
            None => if !is_open {
                finds.air.quiet = Some(time);
            },
        }
        finds.air.told = time;
        Ok(())
    }

    /// Up to the end of the time that is asked for nothing more follows.
    pub(crate) fn end_air(&self, finds: &mut Finds) -> Result<(), Fault> {
        match finds.air.quiet {
            Some(quiet) => self.add_gap(quiet, self.later, finds),
            None => Ok(()),
        }
    }

    /// Adds the line of a gap, as far as it lies in the time that is asked for, if it is long enough or a file is left out
    /// in it.
    fn add_gap(&self, from: u64, to: u64, finds: &mut Finds) -> Result<(), Fault> {
        let from = from.max(self.since.unwrap_or(0));
        let to = to.min(self.until.unwrap_or(u64::MAX));
        if to.saturating_sub(from) < finds.air.least_gap() {
            return Ok(());
        }
        or_memory(
            finds
                .gaps
                .extend_from_slice(nothing_line(from, to).as_slice()),
        )
    }
}
