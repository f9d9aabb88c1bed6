//! The next page, read as far as it needs.
ghost use Rattle.std.specs.Prelude.{◌≡◌, ◌≢◌, ◌<◌, ◌-◌, Err, length};
ghost use Rattle.ogg_page.specs.Reading.{page_at};
ghost use Rattle.import_pages.specs.Failures.{failures_after};
ghost use Rattle.import_pages.specs.Reader.{IsPassed};
ghost use Rattle.import_pages.specs.Room.{Finds, IsHeld, held_of};
ghost use Rattle.ogg_page.specs.Sizes.{longest_page};

use crate::failures::Failures;
use crate::fault::PageReaderFault;
use crate::filling::read_more;
use crate::front::{is_short, size_in_front};
use crate::held::Held;
use memchr::memchr;
use ogg_page::{LONGEST_PAGE, PageFault};
use std::io::Read;

/// The size of the page at the front of what is held, or none at the end of the input. What is held is checked first,
/// and then again after each read.
pub(crate) fn find<R: Read>(
    failures: &mut Failures,
    reader: &mut R,
    room: &mut [u8],
    held: &mut Held,
) -> Result<Option<usize>, PageReaderFault>
    requires { IsHeld room.old held.old }
    ensures held { IsHeld room.new held.new }
    ensures counted { failures.new ≡ failures_after result failures.old }
    ensures found { Finds (held_of room.old held.old) (R.remaining reader.old) result (held_of room.new held.new) (R.remaining reader.new) }
    ensures prompt { page_at (held_of room.old held.old) ≢ Err PageFault.Short → reader.new ≡ reader.old }
{
    match size_in_front(&room[held.start..held.end]) {
        Ok(size) => Ok(Some(size)),
        Err(fault) if is_short(fault) => read_on(failures, reader, room, held),
        Err(fault) => Err(PageReaderFault::Page(fault)),
    }
}

/// Reads on until the page at the front is whole, or is seen to be none, or the input ends.
fn read_on<R: Read>(
    failures: &mut Failures,
    reader: &mut R,
    room: &mut [u8],
    held: &mut Held,
) -> Result<Option<usize>, PageReaderFault>
    requires held { IsHeld room.old held.old }
    requires short { page_at (held_of room.old held.old) ≡ Err PageFault.Short }
    requires part { held.old.end - held.old.start < longest_page }
    ensures held { IsHeld room.new held.new }
    ensures counted { failures.new ≡ failures_after result failures.old }
    ensures found { Finds (held_of room.old held.old) (R.remaining reader.old) result (held_of room.new held.new) (R.remaining reader.new) }
{
    for _ in 0..LONGEST_PAGE {
        match read_more(failures, reader, room, held) {
            Ok(0) if held.start == held.end => return Ok(None),
            Ok(0) => return Err(PageReaderFault::Page(PageFault::Short)),
            Ok(_) => {}
            Err(fault) => return Err(fault),
        }
        match size_in_front(&room[held.start..held.end]) {
            Ok(size) => return Ok(Some(size)),
            Err(fault) if is_short(fault) => {}
            Err(fault) => return Err(PageReaderFault::Page(fault)),
        }
    }
    // Each turn read a byte, and 65,307 bytes show a page or a fault.
    unreachable!()
}

/// The next place after the first at which a page may begin: the next first byte of a capture pattern, or the end.
pub(crate) fn next_place(bytes: &[u8]) -> usize
    requires { 0 < length bytes.now }
    ensures { IsPassed bytes.now result }
{
    let (_, later) = bytes.split_at(1);
    match memchr(b'O', later) {
        Some(place) => place + 1,
        None => bytes.len(),
    }
}
