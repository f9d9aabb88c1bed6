//! The times that words ask for.

use archive_clock::{SystemZone, read_time};
use std::time::SystemTime;

/// The time that a text asks for, in milliseconds since 1970. One without an offset is in the zone of this system.
pub(crate) fn time_asked(rt: &HostRuntime, text: &str) -> Option<u64> {
    let now = now(rt)?;
    let zone = SystemZone::read(rt)?;
    read_time(text, now, &zone.zone())
}

/// The milliseconds since 1970.
fn now(rt: &HostRuntime) -> Option<u64> {
    let Ok(now) = SystemTime::now(rt) else {
        return None;
    };
    match now.duration_since(SystemTime::UNIX_EPOCH) {
        Ok(since) => u64::try_from(since.as_millis()).ok(),
        Err(_) => None,
    }
}
