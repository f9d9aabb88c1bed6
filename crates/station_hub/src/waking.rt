//! When those who hear what is recorded are woken.
ghost use Rattle.std.specs.Prelude.{◌≡◌};
ghost use Rattle.station_hub.specs.Waking.{are_many, is_due, until_due, with_more, woken_at};

/// For how many milliseconds pages are gathered for them at most: one turn of a listener, and one write, takes all pages
/// that were committed meanwhile.
const LISTENERS_EVERY: u64 = 1000;

/// How many bytes are gathered for them at most.
const MANY_BYTES: u64 = 32_768;

/// What those who hear what is recorded were woken for.
#[derive(Clone, Copy, Debug, PartialEq, Eq)]
pub struct Waking {
    /// When they were last woken: milliseconds of the caller's clock.
    pub woken: u64,
    /// How many bytes were committed then.
    pub heard: u64,
    /// There is more for them than they were woken for.
    pub unheard: bool,
}

impl Waking {
    /// They were woken now, for the `end` bytes that are committed.
    pub fn at(now: u64, end: u64) -> Waking
        ensures { result ≡ woken_at now end }
    {
        Waking {
            woken: now,
            heard: end,
            unheard: false,
        }
    }

    /// There is more for them.
    pub fn with_more(self) -> Waking
        ensures { result ≡ with_more self }
    {
        Waking {
            unheard: true,
            ..self
        }
    }

    /// Whether enough bytes are gathered for them, of the `end` that are committed.
    fn are_many(self, end: u64) -> bool
        ensures { result ≡ are_many self end }
    {
        MANY_BYTES <= end.saturating_sub(self.heard)
    }

    /// Whether they are to be woken now, when `end` bytes are committed. Nothing is waited for if nothing is to be gathered.
    pub fn is_due(self, gathers: bool, now: u64, end: u64) -> bool
        ensures { result ≡ is_due gathers self now end }
    {
        self.unheard
            && (!gathers || LISTENERS_EVERY <= now.saturating_sub(self.woken) || self.are_many(end))
    }

    /// How long may be waited until they are to be woken; none if there is nothing more for them.
    pub fn until_due(self, gathers: bool, now: u64, end: u64) -> Option<u64>
        ensures { result ≡ until_due gathers self now end }
    {
        if !self.unheard {
            return None;
        }
        if !gathers || self.are_many(end) {
            return Some(0);
        }
        Some(LISTENERS_EVERY.saturating_sub(now.saturating_sub(self.woken)))
    }
}
