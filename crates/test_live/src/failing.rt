//! Listeners over a disk of which one call fails.
use crate::hearing::{join_over, pull_to};
use crate::packets::are_right;
use crate::recording::{Joinable, Made};
use disk_model::{FuseDisk, MemDisk};
use link_index::Index;
use ogg_recorder::Recorder;
use std::alloc::{AllocError, Global};

/// Up to which call of the disk each fails once.
const CALLS: u64 = 60;

/// Whether a listener at the middle boundary hears what it should, though a call of the disk fails.
pub fn is_heard_over_faults(alloc: Global, made: &Made) -> Result<bool, AllocError> {
    let Some(at) = made.boundaries.get(made.boundaries.len() / 2) else {
        return Ok(true);
    };
    for call in 1..=CALLS {
        if !hears_over(alloc, made, at, call)? {
            return Ok(false);
        }
    }
    Ok(true)
}

/// The same if this call fails. If the file can't be opened then, nobody hears it.
fn hears_over(alloc: Global, made: &Made, at: &Joinable, call: u64) -> Result<bool, AllocError> {
    let disk = FuseDisk::fail_once(MemDisk::of(alloc, &made.bytes)?, call);
    let Ok(mut recorder) = Recorder::open(alloc, disk) else {
        return Ok(true);
    };
    let end = (at.link_end as usize).min(made.bytes.len());
    let Ok(index) = Index::scan(alloc, &made.bytes[..end]) else {
        return Ok(false);
    };
    let Some(mut listener) = join_over(alloc, &mut recorder, at, at.link_end, &index)? else {
        return Ok(false);
    };
    let mut heard = Vec::new(alloc);
    let mut buffer = vec![in alloc; 0u8; 282]?;
    let last = recorder.end();
    pull_to(&mut listener, &mut recorder, last, &mut buffer, &mut heard)?;
    are_right(alloc, &made.bytes, &heard, at)
}
