//! From page to page of one stream.
ghost use Rattle.std.specs.Prelude.{◌≡◌, ◌≤◌, ◌+◌, ◌^◌, ◌<◌, IfOk, IfSome, List, length};
ghost use Rattle.ogg_page.specs.Page.{IsPage, page_size};
ghost use Rattle.packet_view.specs.Packets.{Part, is_some_part, is_other_number, misplaced, position_in};
ghost use Rattle.packet_view.specs.Walking.{IsBefore, Leads, Reaches};

use crate::fault::ViewFault;
use crate::place::{Behind, Place};
use crate::unread::Unread;
use ogg_page::{FIXED_SIZE, Page, split_page};

/// Goes to the stream's next page, or to the end of the bytes.
pub(crate) fn next_page<'a>(
    serial: u32,
    behind: Behind,
    unfinished: bool,
    source: &'a [u8],
    start: u64,
) -> Result<Option<Place<'a>>, ViewFault>
    requires { start + length source.now < 2 ^ 64 }
    ensures leads { (parts : List Part) → is_some_part parts ≡ unfinished → Leads serial behind parts start source.now result }
    ensures reaches { IfOk result (λ found. IfSome found (λ place. Reaches serial start source.now place)) }
{
    let mut rest = source;
    let mut offset = start;
    while !rest.is_empty() {
        let (page, more) = match split_page(rest) {
            Ok(found) => found,
            Err(fault) => return Err(ViewFault::Page(offset, fault)),
        };
        let end = offset + (rest.len() - more.len()) as u64;
        if page.serial() == serial {
            return match misplaced(behind, unfinished, offset, &page) {
                Some(fault) => Err(fault),
                None => Ok(Some(enter(&page, offset, more, end))),
            };
        }
        rest = more;
        offset = end;
    }
    Ok(None)
}

/// The first thing that is wrong with a page of the stream at this offset.
pub(crate) fn misplaced(
    behind: Behind,
    unfinished: bool,
    offset: u64,
    page: &Page<'_>,
) -> Option<ViewFault>
    ensures { result ≡ misplaced behind unfinished offset page.now }
{
    if behind.ended {
        return Some(ViewFault::AfterEos(offset));
    }
    if is_other_number(behind.number, page.sequence()) {
        return Some(ViewFault::Sequence(offset));
    }
    if page.is_continued() != unfinished {
        return Some(ViewFault::Continued(offset));
    }
    None
}

/// The place in front of a page's lacing values and body.
fn enter<'a>(page: &Page<'a>, offset: u64, rest: &'a [u8], end: u64) -> Place<'a>
    requires is_page { IsPage page.now }
    requires size { end ≡ offset + page_size page.now }
    requires inside { end + length rest.now < 2 ^ 64 }
    ensures { IsBefore page.now offset rest.now end result }
{
    let lacing = page.lacing();
    Place {
        behind: Behind {
            number: Some(u64::from(page.sequence()) + 1),
            ended: page.is_last(),
        },
        unread: Unread {
            lacing,
            body: page.body(),
            place: offset + FIXED_SIZE as u64 + lacing.len() as u64,
            position: position_in(page),
        },
        rest,
        offset: end,
    }
}

/// Whether a page must have this number and has another.
fn is_other_number(number: Option<u64>, sequence: u32) -> bool
    ensures { result ≡ is_other_number number sequence }
{
    match number {
        Some(number) => u64::from(sequence) != number,
        None => false,
    }
}

/// The page's position, if a packet ends in the page.
pub(crate) fn position_in(page: &Page<'_>) -> Option<u64>
    ensures { result ≡ position_in page.now }
{
    let position = page.position();
    if position == u64::MAX {
        None
    } else {
        Some(position)
    }
}
