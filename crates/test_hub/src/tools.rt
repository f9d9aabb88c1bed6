//! Hubs and sessions for the tests.
use disk_model::{Disk, FuseDisk, MemDisk};
use ogg_recorder::{Recorder, record_feed};
use ogg_serve::{Hub, Progress};
use std::alloc::Global;
use std::test::Fail;

/// The pages of the header `abc` and of the packet `hello` at position 5.
pub(super) const TWO: &[u8] =
    b"OggS\0\x02\0\0\0\0\0\0\0\0\x01\0\0\0\0\0\0\0\x92\xdd\xf6\x15\x01\x03abc\
    OggS\0\0\x05\0\0\0\0\0\0\0\x01\0\0\0\x01\0\0\0\xbb\xfev\xea\x01\x05hello";

pub(super) const GET_ALL: &[u8] = b"GET /all HTTP/1.1\r\nHost: a\r\n\r\n";

/// What the request gets of these two pages, and of them and the page of the stream's end.
pub(super) const OF_TWO: &[u8] =
    b"HTTP/1.1 200 OK\r\nContent-Type: application/ogg\r\nContent-Length: 64\r\n\
    Accept-Ranges: bytes\r\nConnection: close\r\n\r\n\
    OggS\0\x02\0\0\0\0\0\0\0\0\x01\0\0\0\0\0\0\0\x92\xdd\xf6\x15\x01\x03abc\
    OggS\0\0\x05\0\0\0\0\0\0\0\x01\0\0\0\x01\0\0\0\xbb\xfev\xea\x01\x05hello";

pub(super) const OF_THREE: &[u8] =
    b"HTTP/1.1 200 OK\r\nContent-Type: application/ogg\r\nContent-Length: 91\r\n\
    Accept-Ranges: bytes\r\nConnection: close\r\n\r\n\
    OggS\0\x02\0\0\0\0\0\0\0\0\x01\0\0\0\0\0\0\0\x92\xdd\xf6\x15\x01\x03abc\
    OggS\0\0\x05\0\0\0\0\0\0\0\x01\0\0\0\x01\0\0\0\xbb\xfev\xea\x01\x05hello\
    OggS\0\x04\x05\0\0\0\0\0\0\0\x01\0\0\0\x02\0\0\0\xdb\x9d\x91\x8b\0";

/// A hub over this disk, whose commands share commits in groups of `most`.
fn hub_over<D: Disk + Drop>(alloc: Global, disk: D, most: u32) -> Result<Hub<D>, Fail> {
    match Recorder::open(alloc, disk) {
        Ok(mut recorder) => {
            if most > 0 && most <= 1024 && recorder.held() == 0 {
                recorder.group(most);
            }
            match Hub::new(alloc, recorder) {
                Ok(hub) => Ok(hub),
                Err(_) => Err(Fail::from("no hub")),
            }
        }
        Err(_) => Err(Fail::from("not opened")),
    }
}

/// A recorder of these bytes, on a disk in memory.
pub(super) fn recorder_of(alloc: Global, bytes: &[u8]) -> Result<Recorder<MemDisk>, Fail> {
    match Recorder::open(alloc, MemDisk::of(alloc, bytes)?) {
        Ok(recorder) => Ok(recorder),
        Err(_) => Err(Fail::from("not opened")),
    }
}

/// A hub over a disk in memory with these bytes, whose commands share commits in groups of `most`.
pub(super) fn hub_of(alloc: Global, bytes: &[u8], most: u32) -> Result<Hub<MemDisk>, Fail> {
    hub_over(alloc, MemDisk::of(alloc, bytes)?, most)
}

/// A disk of which two calls may fail.
pub(super) type Failing = FuseDisk<FuseDisk<MemDisk>>;

/// A hub over the two pages, on a disk of which the calls with these numbers fail once. No call has the number 0.
pub(super) fn hub_failing(alloc: Global, first: u64, second: u64) -> Result<Hub<Failing>, Fail> {
    let inner = FuseDisk::fail_once(MemDisk::of(alloc, TWO)?, first);
    hub_over(alloc, FuseDisk::fail_once(inner, second), 1)
}

/// Whether this holds of the hub, which is then dropped. A test that owned the hub itself would be dear to prove.
pub(super) fn holds<F: FnOnce(&mut Hub<MemDisk>) -> bool>(
    hub: Result<Hub<MemDisk>, Fail>,
    check: F,
) -> Result<bool, Fail>
    requires { F.IsAlwaysCallable check }
{
    match hub {
        Ok(mut hub) => Ok(check(&mut hub)),
        Err(fault) => Err(fault),
    }
}

/// The same of a hub whose disk may fail.
pub(super) fn holds_failing<F: FnOnce(&mut Hub<Failing>) -> bool>(
    hub: Result<Hub<Failing>, Fail>,
    check: F,
) -> Result<bool, Fail>
    requires { F.IsAlwaysCallable check }
{
    match hub {
        Ok(mut hub) => Ok(check(&mut hub)),
        Err(fault) => Err(fault),
    }
}

/// A hub over a disk of these bytes. If memory is refused for the disk, the recorder or the hub, that one is made
/// once more.
pub(super) fn hub_again(alloc: Global, bytes: &[u8]) -> Result<Hub<MemDisk>, Fail> {
    let disk = match MemDisk::of(alloc, bytes) {
        Ok(disk) => disk,
        Err(_) => MemDisk::of(alloc, bytes)?,
    };
    let recorder = match Recorder::open(alloc, disk) {
        Ok(recorder) => recorder,
        Err((_, disk)) => match Recorder::open(alloc, disk) {
            Ok(recorder) => recorder,
            Err(_) => return Err(Fail::from("not opened")),
        },
    };
    match Hub::new(alloc, recorder) {
        Ok(hub) => Ok(hub),
        Err((_, recorder)) => match Hub::new(alloc, recorder) {
            Ok(hub) => Ok(hub),
            Err(_) => Err(Fail::from("no hub")),
        },
    }
}

/// A session of the hub that asks for all of the file.
pub(super) fn ask<D: Disk + Drop>(hub: &mut Hub<D>) -> Option<u64> {
    match hub.connect() {
        Ok(id) => match hub.receive(id, GET_ALL) {
            Ok(Progress::Ready) => Some(id),
            _ => None,
        },
        Err(_) => None,
    }
}

/// Whether a pull returns exactly these bytes, in a buffer of at most 300 bytes.
pub(super) fn gives<D: Disk + Drop>(hub: &mut Hub<D>, id: u64, size: usize, want: &[u8]) -> bool {
    let mut buffer = [0; 300];
    let (room, _) = buffer.split_at_mut(size.min(300));
    match hub.pull(id, room) {
        Ok(pulled) => {
            let (given, _) = room.split_at(pulled.count);
            *given == *want
        }
        Err(_) => false,
    }
}

/// One stream begins, with serial 1 and the header `abc`, and gets the packet `hello` at position 5.
const BEGIN_AND_PUT: &[u8] = b"\x01\x2f\0\0\0\0\x01\0\x01\0\0\0\x01\0\x03\0\0\0abc\0\0\
    \0\0\0\0\0\0\0\0\0\0\0\0\0\0\0\0\0\0\0\0\0\0\0\0\0\0\0\0\0\
    \x02\x17\0\0\0\x01\0\x01\0\0\0\x05\0\0\0\0\0\0\0\x05\0\0\0hello";

/// Whether a recorder keeps the two commands.
fn keeps_both<D: Disk>(alloc: Global, recorder: &mut Recorder<D>) -> bool {
    let mut feed = BEGIN_AND_PUT;
    let mut replies = Vec::new(alloc);
    match record_feed(alloc, &mut feed, &mut replies, recorder) {
        Ok(tally) => tally.kept == 2,
        Err(_) => false,
    }
}

/// A hub over this recorder. From now on `most` commands share a commit.
fn grouped<D: Disk + Drop>(
    alloc: Global,
    recorder: Recorder<D>,
    most: u32,
) -> Result<Hub<D>, Fail> {
    if recorder.held() != 0 || most < 1 || most > 1024 {
        return Err(Fail::from("not grouped"));
    }
    match Hub::new(alloc, recorder) {
        Ok(mut hub) => {
            hub.group(most);
            Ok(hub)
        }
        Err(_) => Err(Fail::from("no hub")),
    }
}

/// A hub over a file to which two commands were given since it was opened. From now on `most` commands share a commit.
pub(super) fn hub_after_two(alloc: Global, most: u32) -> Result<Hub<MemDisk>, Fail> {
    let mut recorder = recorder_of(alloc, b"")?;
    if keeps_both(alloc, &mut recorder) {
        grouped(alloc, recorder, most)
    } else {
        Err(Fail::from("not kept"))
    }
}
