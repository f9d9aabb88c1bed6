//! A disk that stops, and what its tail still has.
use crate::dice::Dice;
use disk_model::{Disk, FuseDisk, MemDisk};
use disk_tail::TailDisk;
use std::alloc::{AllocError, Global};

/// The longest piece, and the greatest room.
const MOST: usize = 50;

/// Whether the last bytes are read from memory alone: pieces are appended, by two calls each, and after one more call
/// the disk stops.
pub fn is_read_after_stop(alloc: Global, number: u64) -> Result<bool, AllocError> {
    let mut dice = Dice::of(number);
    let pieces = dice.up_to(12) as u64;
    let room = dice.up_to(MOST);
    let fused = FuseDisk::stop_after(MemDisk::of(alloc, b"")?, 2 * pieces + 1);
    has_the_last(
        TailDisk::new(alloc, fused, room)?,
        Vec::new(alloc),
        pieces,
        room,
        dice,
    )
}

/// Whether this many pieces are appended to this disk, and the last bytes are then read.
fn has_the_last<D: Disk + Drop>(
    disk: D,
    wanted: Vec<u8>,
    pieces: u64,
    room: usize,
    dice: Dice,
) -> Result<bool, AllocError> {
    let mut disk = disk;
    let mut wanted = wanted;
    let mut dice = dice;
    Ok(
        are_appended(&mut disk, &mut wanted, pieces, &mut dice)?
            && reads(&mut disk, &wanted, room, &mut dice),
    )
}

/// Whether this many pieces are appended.
fn are_appended<D: Disk>(
    disk: &mut D,
    wanted: &mut Vec<u8>,
    pieces: u64,
    dice: &mut Dice,
) -> Result<bool, AllocError> {
    for _ in 0..pieces {
        let mut bytes = [0; MOST];
        for k in 0..MOST {
            bytes[k] = dice.byte();
        }
        let piece = &bytes[..dice.up_to(MOST)];
        wanted.extend_from_slice(piece)?;
        if !append(disk, piece) {
            return Ok(false);
        }
    }
    Ok(true)
}

/// Two calls.
fn append<D: Disk>(disk: &mut D, piece: &[u8]) -> bool {
    match disk.len() {
        Ok(at) => disk.write_at(at, piece).is_ok(),
        Err(_) => false,
    }
}

/// Whether a read within the last half of the room returns what was written, and one that is longer than the room
/// fails. All calls after the first fail.
fn reads<D: Disk>(disk: &mut D, wanted: &[u8], room: usize, dice: &mut Dice) -> bool {
    let Ok(length) = disk.len() else {
        return false;
    };
    if length != wanted.len() as u64 {
        return false;
    }
    let held = wanted.len().min(room / 2);
    let back = dice.up_to(held);
    let n = dice.up_to(back.min(MOST));
    let at = wanted.len() - back;
    let mut buffer = [0; MOST];
    let part = &mut buffer[..n];
    if disk.read_at(at as u64, part).is_err() || &*part != &wanted[at..at + n] {
        return false;
    }
    let mut long = [0; MOST + 1];
    let n = room.saturating_add(1).min(MOST + 1).min(wanted.len());
    n <= room || disk.read_at(0, &mut long[..n]).is_err()
}
