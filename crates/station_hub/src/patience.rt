//! When what waits is committed.
ghost use Rattle.std.specs.Prelude.{◌≡◌};
ghost use Rattle.station_hub.specs.Patience.{is_due, sooner, until_due};

/// For how many milliseconds a command may wait for its commit: what is heard is so much later than what is recorded.
const MOST_WAIT: u64 = 150;

/// As many commands share a commit at most.
const TOGETHER: u64 = 64;

/// Whether what waits is to be committed: enough commands wait, or the oldest has waited long enough.
pub fn is_due(waiting: u64, since: u64, now: u64) -> bool
    ensures { result ≡ is_due waiting since now }
{
    TOGETHER <= waiting || (0 < waiting && MOST_WAIT <= now.saturating_sub(since))
}

/// How long may be waited until what waits is to be committed; none if nothing waits.
pub fn until_due(waiting: u64, since: u64, now: u64) -> Option<u64>
    ensures { result ≡ until_due waiting since now }
{
    if waiting == 0 {
        return None;
    }
    Some(MOST_WAIT.saturating_sub(now.saturating_sub(since)))
}

/// What comes sooner: this, if there is one, or that.
pub fn sooner(one: Option<u64>, other: u64) -> u64
    ensures { result ≡ sooner one other }
{
    match one {
        Some(one) => one.min(other),
        None => other,
    }
}
