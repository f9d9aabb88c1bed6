//! What a station has done, told.

use disk_model::Disk;
use fault_lines::Fault;
use record_actions::Told;
use serve_actions::Log;
use station::{Done, Station};
use std::time::{SystemTime, UNIX_EPOCH};

/// The station has done this, and it is told. It is a fault if the file is lost.
pub fn tell_done<D: Disk + Drop>(
    told: &mut Told<'_>,
    log: &mut Log,
    done: &Done,
    station: &Station<D>,
) -> Result<(), Fault> {
    let hub = station.hub();
    match done {
        Done::Nothing | Done::Bytes | Done::Flushed(_) => {}
        Done::Stepped(step) => told.stepped(step),
        Done::Ended {
            offset,
            junk,
            taken,
            refused,
        } => {
            log.source_ended(station.counts());
            told.mended(*junk);
            told.taken(*offset, taken);
            told.unended(*offset, *refused);
        }
        Done::Foreign { refused, .. } => {
            log.source_ended(station.counts());
            told.unended(0, *refused);
        }
        Done::GivenUp { fault, refused } => {
            log.source_ended(station.counts());
            told.given_up(*fault);
            told.unended(0, *refused);
        }
        Done::Reopened(answered) => {
            let _ = told.lost(0, hub.end());
            told.answered(0, answered);
        }
        Done::Lost(fault) => return Err(Fault::Open(*fault)),
        Done::Failed => return Err(Fault::Failed),
    }
    told.settle(hub.held(), hub.is_failed(), hub.end());
    Ok(())
}

/// The system's time in seconds since 1970, or 0 if it can't be read.
pub fn seconds(rt: &HostRuntime) -> u64 {
    let Ok(now) = SystemTime::now(rt) else {
        return 0;
    };
    match now.duration_since(UNIX_EPOCH) {
        Ok(passed) => passed.as_secs(),
        Err(_) => 0,
    }
}
