//! What a station has done, in numbers.
ghost use Rattle.std.specs.Prelude.{◌≡◌};
ghost use Rattle.station_sources.specs.Counting.{all_mends, counted, mended_by, no_mends, nothing_done, with_mend, with_step, with_taken};

use import_mend::Mend;
use import_record::{Step, Taken};

/// How often something was mended, by its kind. A counter stops at its greatest value.
#[derive(Clone, Copy, Debug, PartialEq, Eq)]
pub struct MendCounts {
    pub junk: u64,
    pub gap: u64,
    pub restart: u64,
    pub stranger: u64,
    pub repeated: u64,
    pub unfinished: u64,
    pub too_long: u64,
    pub misshapen: u64,
    pub full: u64,
}

/// What a station has done since it was made. A counter stops at its greatest value.
#[derive(Clone, Copy, Debug, PartialEq, Eq)]
pub struct Counts {
    /// How many links of sources were begun.
    pub links: u64,
    /// How many packets of sources were taken.
    pub packets: u64,
    pub mends: MendCounts,
    /// How many sources had the air, and how many were refused.
    pub sources: u64,
    pub sources_refused: u64,
    /// How many connections were refused, since there were as many as may be.
    pub connections_refused: u64,
    /// How many steps have committed more, and how long these took.
    pub commits: u64,
    pub commit_microseconds: u64,
    /// How many bytes were written to connections.
    pub sent: u64,
    /// How often the file was opened again after a fault of the disk.
    pub reopenings: u64,
}

/// So many more are counted.
pub fn counted(count: u64, more: u64) -> u64
    ensures { result ≡ counted count more }
{
    count.saturating_add(more)
}

impl MendCounts {
    fn none() -> MendCounts
        ensures { result ≡ no_mends }
    {
        MendCounts {
            junk: 0,
            gap: 0,
            restart: 0,
            stranger: 0,
            repeated: 0,
            unfinished: 0,
            too_long: 0,
            misshapen: 0,
            full: 0,
        }
    }

    /// How often anything was mended.
    pub fn all(self) -> u64
        ensures { result ≡ all_mends self }
    {
        let first = counted(counted(self.junk, self.gap), self.restart);
        let second = counted(counted(self.stranger, self.repeated), self.unfinished);
        let third = counted(counted(self.too_long, self.misshapen), self.full);
        counted(counted(first, second), third)
    }

    /// The counts with one more mend.
    fn with(self, mend: Mend) -> MendCounts
        ensures { result ≡ mended_by mend self }
    {
        match mend {
            Mend::Junk { .. } => MendCounts {
                junk: counted(self.junk, 1),
                ..self
            },
            Mend::Gap { .. } => MendCounts {
                gap: counted(self.gap, 1),
                ..self
            },
            Mend::Restart { .. } => MendCounts {
                restart: counted(self.restart, 1),
                ..self
            },
            Mend::Stranger { .. } => MendCounts {
                stranger: counted(self.stranger, 1),
                ..self
            },
            Mend::Repeated { .. } => MendCounts {
                repeated: counted(self.repeated, 1),
                ..self
            },
            Mend::Unfinished { .. } => MendCounts {
                unfinished: counted(self.unfinished, 1),
                ..self
            },
            Mend::TooLong { .. } => MendCounts {
                too_long: counted(self.too_long, 1),
                ..self
            },
            Mend::Misshapen { .. } => MendCounts {
                misshapen: counted(self.misshapen, 1),
                ..self
            },
            Mend::Full { .. } => MendCounts {
                full: counted(self.full, 1),
                ..self
            },
        }
    }
}

impl Counts {
    /// Nothing was done yet.
    pub fn none() -> Counts
        ensures { result ≡ nothing_done }
    {
        Counts {
            links: 0,
            packets: 0,
            mends: MendCounts::none(),
            sources: 0,
            sources_refused: 0,
            connections_refused: 0,
            commits: 0,
            commit_microseconds: 0,
            sent: 0,
            reopenings: 0,
        }
    }

    fn with_mend(self, mend: Option<Mend>) -> Counts
        ensures { result ≡ with_mend mend self }
    {
        match mend {
            Some(mend) => Counts {
                mends: self.mends.with(mend),
                ..self
            },
            None => self,
        }
    }

    /// The counts once this was taken of a source.
    fn with_taken(self, taken: Taken) -> Counts
        ensures { result ≡ with_taken taken self }
    {
        let counts = Counts {
            links: counted(self.links, taken.answered.links),
            packets: counted(self.packets, taken.answered.packets),
            ..self
        };
        counts.with_mend(taken.mend)
    }

    /// The counts once these bytes of no page were passed over, and then this was taken.
    pub fn with_end(self, junk: Option<Mend>, taken: Taken) -> Counts
        ensures { result ≡ with_taken taken (with_mend junk self) }
    {
        self.with_mend(junk).with_taken(taken)
    }

    /// The counts after this step of a source's stream.
    pub fn with_step(self, step: Step) -> Counts
        ensures { result ≡ with_step step self }
    {
        match step {
            Step::Flushed(_) | Step::PassedOver => self,
            Step::Page { junk, taken, .. } => self.with_end(junk, taken),
            Step::Ended { junk } => self.with_mend(junk),
        }
    }
}
