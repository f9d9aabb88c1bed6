//! Lists of calls, and the vector that they are compared with.
ghost use Rattle.std.specs.Prelude.{◌≤◌, length};

use crate::dice::Dice;
use crate::late::LateDisk;
use disk_model::{Disk, FuseDisk, MemDisk};
use disk_tail::TailDisk;
use std::alloc::{AllocError, Global};

/// How many steps a list has.
const STEPS: u64 = 12;

/// The greatest room.
const ROOM: usize = 40;

/// What stands on the disk at first, and the bytes of writes.
const BYTES: usize = 30;

/// Whether a list runs as it should, with no call failing and with each in turn. A step makes two calls at most.
pub fn is_right(alloc: Global, number: u64) -> Result<bool, AllocError> {
    for call in 0..=2 * STEPS {
        let mut dice = Dice::of(number);
        let bytes = bytes_of(&mut dice);
        let first = &bytes[..dice.up_to(BYTES)];
        let room = dice.up_to(ROOM);
        if !is_right_fused(alloc, first, room, dice, call)?
            || !is_right_late(alloc, first, room, dice, call)?
        {
            return Ok(false);
        }
    }
    Ok(true)
}

/// Whether a list runs as it should while the disk's call with this number fails.
fn is_right_fused(
    alloc: Global,
    first: &[u8],
    room: usize,
    dice: Dice,
    call: u64,
) -> Result<bool, AllocError> {
    let fused = FuseDisk::fail_once(MemDisk::of(alloc, first)?, call);
    runs_on(
        TailDisk::new(alloc, fused, room)?,
        first.to_vec(alloc)?,
        dice,
        false,
    )
}

/// The same while the call is told as failed, though it was done.
fn is_right_late(
    alloc: Global,
    first: &[u8],
    room: usize,
    dice: Dice,
    call: u64,
) -> Result<bool, AllocError> {
    let late = LateDisk::over(MemDisk::of(alloc, first)?, call);
    runs_on(
        TailDisk::new(alloc, late, room)?,
        first.to_vec(alloc)?,
        dice,
        true,
    )
}

/// Whether each step finds what it should on this disk, which has the wanted bytes.
fn runs_on<D: Disk + Drop>(
    disk: D,
    wanted: Vec<u8>,
    dice: Dice,
    late: bool,
) -> Result<bool, AllocError> {
    let mut disk = disk;
    let mut wanted = wanted;
    let mut dice = dice;
    runs(&mut disk, &mut wanted, &mut dice, late)
}

/// Whether each step finds what it should. `late` says whether a write or a cut that fails was done.
fn runs<D: Disk>(
    disk: &mut D,
    wanted: &mut Vec<u8>,
    dice: &mut Dice,
    late: bool,
) -> Result<bool, AllocError> {
    for _ in 0..STEPS {
        let right = match dice.up_to(7) {
            0 => is_synced(disk),
            1 => is_cut(disk, wanted, dice, late),
            2 | 3 | 4 => is_read(disk, wanted, dice),
            _ => is_written(disk, wanted, dice, late)?,
        };
        if !right {
            return Ok(false);
        }
    }
    Ok(true)
}

/// Bytes at random.
fn bytes_of(dice: &mut Dice) -> [u8; BYTES] {
    let mut bytes = [0; BYTES];
    for k in 0..BYTES {
        bytes[k] = dice.byte();
    }
    bytes
}

/// An offset up to this length, near it most of the time.
fn offset(dice: &mut Dice, length: usize) -> usize
    ensures { result ≤ length }
{
    let back = if dice.up_to(3) == 0 {
        dice.up_to(length)
    } else {
        dice.up_to(length.min(ROOM))
    };
    length - back
}

fn is_synced<D: Disk>(disk: &mut D) -> bool {
    let _ = disk.sync();
    true
}

fn is_cut<D: Disk>(disk: &mut D, wanted: &mut Vec<u8>, dice: &mut Dice, late: bool) -> bool {
    let Ok(length) = disk.len() else {
        return true;
    };
    if length != wanted.len() as u64 {
        return false;
    }
    let to = offset(dice, wanted.len());
    if disk.cut(to as u64).is_ok() || late {
        wanted.truncate(to);
    }
    true
}

fn is_read<D: Disk>(disk: &mut D, wanted: &[u8], dice: &mut Dice) -> bool {
    let Ok(length) = disk.len() else {
        return true;
    };
    if length != wanted.len() as u64 {
        return false;
    }
    let at = offset(dice, wanted.len());
    let mut buffer = [0; BYTES];
    let n = dice.up_to(BYTES.min(wanted.len() - at));
    let part = &mut buffer[..n];
    match disk.read_at(at as u64, part) {
        Ok(()) => &*part == &wanted[at..at + n],
        Err(_) => true,
    }
}

fn is_written<D: Disk>(
    disk: &mut D,
    wanted: &mut Vec<u8>,
    dice: &mut Dice,
    late: bool,
) -> Result<bool, AllocError> {
    let Ok(length) = disk.len() else {
        return Ok(true);
    };
    if length != wanted.len() as u64 {
        return Ok(false);
    }
    let at = offset(dice, wanted.len());
    let bytes = bytes_of(dice);
    let bytes = &bytes[..dice.up_to(BYTES)];
    if disk.write_at(at as u64, bytes).is_ok() || late {
        overwrite(wanted, at, bytes)?;
    }
    Ok(true)
}

fn overwrite(wanted: &mut Vec<u8>, at: usize, bytes: &[u8]) -> Result<(), AllocError>
    requires { at ≤ length wanted.old.items }
{
    let inside = bytes.len().min(wanted.len() - at);
    wanted[at..at + inside].copy_from_slice(&bytes[..inside]);
    wanted.extend_from_slice(&bytes[inside..])
}
