//! The zone in which times without an offset are read.

use jiff::tz::{SystemTimeZone, TimeZone, TimeZoneDatabase};

/// The zone of this system: by TZ, or else by /etc/localtime, and UTC if neither can be read.
#[derive(Drop)]
pub struct SystemZone {
    system: Option<SystemTimeZone>,
    // the zones that have names, if it is named
    names: TimeZoneDatabase,
}

impl SystemZone {
    /// Reads it. None if it is named, and the zones that have names can't be read.
    pub fn read(rt: &HostRuntime) -> Option<SystemZone> {
        // Few zones are named, and to read all of them takes long.
        let unnamed = TimeZoneDatabase::new(rt.alloc());
        let Ok(system) = SystemTimeZone::read(rt) else {
            return Some(SystemZone {
                system: None,
                names: unnamed,
            });
        };
        let is_named = system.time_zone(&unnamed).is_err();
        let names = if is_named { named(rt)? } else { unnamed };
        Some(SystemZone {
            system: Some(system),
            names,
        })
    }

    /// The zone.
    pub fn zone(&self) -> TimeZone<'_> {
        let Some(system) = &self.system else {
            return TimeZone::UTC;
        };
        match system.time_zone(&self.names) {
            Ok(zone) => zone,
            Err(_) => TimeZone::UTC,
        }
    }
}

/// The zones that have names.
fn named(rt: &HostRuntime) -> Option<TimeZoneDatabase> {
    match TimeZoneDatabase::from_env(rt) {
        Ok(all) => Some(all),
        Err(_) => None,
    }
}
