//! A tail that is copied from one disk to another.
ghost use Rattle.std.specs.Prelude.{◌≡◌, ◌↔◌, ◌+◌, ◌^◌, ◌<◌, ◌≤◌, ◌++◌, OnOk, Ok, true, false, IsTrue, length, take, drop};
ghost use Rattle.record_actions.specs.Tail.{HoldsTail, IsTailOf, OnlyRead};

use crate::tails::Tail;
use disk_model::{Disk, DiskFault};

/// How many bytes are read at once.
const PIECE: u64 = 4096;

/// Has the copy hold the tail of the disk, and syncs it. If the copy holds what isn't the tail's front, it stays as it
/// is, and `false` is returned.
pub(crate) fn fill<D: Disk, C: Disk>(
    disk: &mut D,
    tail: Tail,
    copy: &mut C,
) -> Result<bool, DiskFault>
    requires tail { D.is_honest disk.old → IsTailOf (D.state disk.old).contents tail }
    requires short { tail.offset + tail.bytes < 2 ^ 63 }
    ensures holds { result ≡ Ok true → D.is_honest disk.old → C.is_honest copy.old
        → HoldsTail C.Disk (D.state disk.old).contents tail copy.new }
    ensures other { result ≡ Ok false → OnlyRead C.Disk copy.old copy.new }
    ensures read { OnlyRead D.Disk disk.old disk.new }
    ensures honest { C.is_honest copy.old ↔ C.is_honest copy.new }
{
    let size = copy.len()?;
    if size > tail.bytes {
        return Ok(false);
    }
    if !is_front(disk, tail, copy, size)? {
        return Ok(false);
    }
    append_rest(disk, tail, copy, size)?;
    copy.sync()?;
    Ok(true)
}

/// Whether the copy, which has this length, holds the tail's front.
fn is_front<D: Disk, C: Disk>(
    disk: &mut D,
    tail: Tail,
    copy: &mut C,
    size: u64,
) -> Result<bool, DiskFault>
    requires tail { D.is_honest disk.old → IsTailOf (D.state disk.old).contents tail }
    requires short { tail.offset + tail.bytes < 2 ^ 63 }
    requires fits { size ≤ tail.bytes }
    requires size { C.is_honest copy.old → size ≡ length (C.state copy.old).contents }
    ensures front { result ≡ Ok true → D.is_honest disk.old → C.is_honest copy.old
        → (C.state copy.old).contents ≡ take size (drop tail.offset (D.state disk.old).contents) }
    ensures read { OnlyRead D.Disk disk.old disk.new }
    ensures copy { OnlyRead C.Disk copy.old copy.new }
{
    let mut done = 0;
    while done < size {
        let count = (size - done).min(PIECE);
        if !is_same(disk, tail.offset, copy, done, count)? {
            return Ok(false);
        }
        done += count;
    }
    Ok(true)
}

/// Whether the copy has the same bytes from `done` on as the disk has from as many bytes after `at` on, `count` of them.
fn is_same<D: Disk, C: Disk>(
    disk: &mut D,
    at: u64,
    copy: &mut C,
    done: u64,
    count: u64,
) -> Result<bool, DiskFault>
    requires count { count ≤ 4096 }
    requires short { at + done < 2 ^ 63 }
    requires disk { D.is_honest disk.old → at + done + count ≤ length (D.state disk.old).contents }
    requires copy { C.is_honest copy.old → done + count ≤ length (C.state copy.old).contents }
    ensures same { result ≡ Ok true → D.is_honest disk.old → C.is_honest copy.old
        → take count (drop done (C.state copy.old).contents) ≡ take count (drop (at + done) (D.state disk.old).contents) }
    ensures read { OnlyRead D.Disk disk.old disk.new }
    ensures copy { OnlyRead C.Disk copy.old copy.new }
{
    let mut room = [0; PIECE as usize];
    let own = &mut room[..count as usize];
    disk.read_at(at + done, own)?;
    let mut other_room = [0; PIECE as usize];
    let other = &mut other_room[..count as usize];
    copy.read_at(done, other)?;
    Ok(are_same(own, other))
}

/// Whether these are the same bytes.
fn are_same(one: &[u8], other: &[u8]) -> bool
    ensures { IsTrue result ↔ one.now ≡ other.now }
{
    *one == *other
}

/// Appends the rest of the tail to the copy, which holds its first `size` bytes. After a fault only some of it may
/// have been appended.
fn append_rest<D: Disk, C: Disk>(
    disk: &mut D,
    tail: Tail,
    copy: &mut C,
    size: u64,
) -> Result<(), DiskFault>
    requires tail { D.is_honest disk.old → IsTailOf (D.state disk.old).contents tail }
    requires short { tail.offset + tail.bytes < 2 ^ 63 }
    requires fits { size ≤ tail.bytes }
    requires size { C.is_honest copy.old → size ≡ length (C.state copy.old).contents }
    requires front { D.is_honest disk.old → C.is_honest copy.old
        → (C.state copy.old).contents ≡ take size (drop tail.offset (D.state disk.old).contents) }
    ensures held { OnOk result (D.is_honest disk.old → C.is_honest copy.old
        → (C.state copy.new).contents ≡ drop tail.offset (D.state disk.old).contents) }
    ensures read { OnlyRead D.Disk disk.old disk.new }
    ensures honest { C.is_honest copy.old ↔ C.is_honest copy.new }
{
    let mut done = size;
    while done < tail.bytes {
        let count = (tail.bytes - done).min(PIECE);
        append(disk, tail.offset + done, copy, done, count)?;
        done += count;
    }
    Ok(())
}

/// Appends what the disk has at `at`, `count` bytes, to the copy, which has the length `done`.
fn append<D: Disk, C: Disk>(
    disk: &mut D,
    at: u64,
    copy: &mut C,
    done: u64,
    count: u64,
) -> Result<(), DiskFault>
    requires count { count ≤ 4096 }
    requires disk { D.is_honest disk.old → at + count ≤ length (D.state disk.old).contents }
    requires end { C.is_honest copy.old → done ≡ length (C.state copy.old).contents }
    ensures appended { OnOk result (D.is_honest disk.old → C.is_honest copy.old
        → (C.state copy.new).contents ≡ (C.state copy.old).contents ++ take count (drop at (D.state disk.old).contents)) }
    ensures longer { OnOk result (C.is_honest copy.old → done + count ≡ length (C.state copy.new).contents) }
    ensures read { OnlyRead D.Disk disk.old disk.new }
    ensures honest { C.is_honest copy.old ↔ C.is_honest copy.new }
{
    let mut room = [0; PIECE as usize];
    let piece = &mut room[..count as usize];
    disk.read_at(at, piece)?;
    copy.write_at(done, piece)?;
    Ok(())
}
