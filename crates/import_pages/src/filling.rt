//! Bytes of the reader into the room.
ghost use Rattle.std.specs.Prelude.{◌≡◌, ◌<◌, Err, IfOk, OnErr, length};
ghost use Rattle.std.specs.Io.KnownBytes.{Keeps};
ghost use Rattle.ogg_page.specs.Reading.{page_at};
ghost use Rattle.import_pages.specs.Failures.{failures_after};
ghost use Rattle.import_pages.specs.Room.{IsHeld, ReadsMore, held_of};
ghost use Rattle.ogg_page.specs.Sizes.{longest_page};

use crate::failures::Failures;
use crate::fault::PageReaderFault;
use crate::held::Held;
use ogg_page::PageFault;
use std::io::Read;

/// How many bytes of a page there are that isn't whole.
fn size_of_part(bytes: &[u8]) -> usize
    requires { page_at bytes.now ≡ Err PageFault.Short }
    ensures size { result ≡ length bytes.now }
    ensures part { result < longest_page }
{
    bytes.len()
}

/// Moves what is held to the front of the room if no byte after it is free. What is held then is the beginning of one
/// page, which fits from there on: so no byte is moved twice.
fn make_room(room: &mut [u8], held: &mut Held)
    requires held { IsHeld room.old held.old }
    requires short { page_at (held_of room.old held.old) ≡ Err PageFault.Short }
    ensures held { IsHeld room.new held.new }
    ensures size { length room.new ≡ length room.old }
    ensures free { held.new.end < length room.new }
    ensures same { held_of room.new held.new ≡ held_of room.old held.old }
{
    let size = size_of_part(&room[held.start..held.end]);
    if held.end == room.len() {
        room.copy_within(held.start..held.end, 0);
        *held = Held {
            start: 0,
            end: size,
        };
    }
}

/// Reads once, as many bytes as come, after what is held.
fn read_behind<R: Read>(
    failures: &mut Failures,
    reader: &mut R,
    room: &mut [u8],
    held: &mut Held,
) -> Result<usize, PageReaderFault>
    requires held { IsHeld room.old held.old }
    requires free { held.old.end < length room.old }
    ensures held { IsHeld room.new held.new }
    ensures size { length room.new ≡ length room.old }
    ensures ok { IfOk result (λ count. ReadsMore (held_of room.old held.old) (R.remaining reader.old) count
        (held_of room.new held.new) (R.remaining reader.new)) }
    ensures err { OnErr result ((result ≡ Err PageReaderFault.Read) × (held_of room.new held.new ≡ held_of room.old held.old)
        × Keeps (R.remaining reader.old) (R.remaining reader.new)) }
    ensures counted { failures.new ≡ failures_after result failures.old }
{
    let (_, free) = room.split_at_mut(held.end);
    match failures.read(reader, free) {
        Ok(count) => {
            held.end += count;
            Ok(count)
        }
        Err(fault) => Err(fault),
    }
}

/// Reads once, as many bytes as come, after what is held: a page that isn't whole, so there is room.
pub(crate) fn read_more<R: Read>(
    failures: &mut Failures,
    reader: &mut R,
    room: &mut [u8],
    held: &mut Held,
) -> Result<usize, PageReaderFault>
    requires held { IsHeld room.old held.old }
    requires short { page_at (held_of room.old held.old) ≡ Err PageFault.Short }
    ensures held { IsHeld room.new held.new }
    ensures size { length room.new ≡ length room.old }
    ensures ok { IfOk result (λ count. ReadsMore (held_of room.old held.old) (R.remaining reader.old) count
        (held_of room.new held.new) (R.remaining reader.new)) }
    ensures err { OnErr result ((result ≡ Err PageReaderFault.Read) × (held_of room.new held.new ≡ held_of room.old held.old)
        × Keeps (R.remaining reader.old) (R.remaining reader.new)) }
    ensures counted { failures.new ≡ failures_after result failures.old }
{
    make_room(room, held);
    read_behind(failures, reader, room, held)
}
