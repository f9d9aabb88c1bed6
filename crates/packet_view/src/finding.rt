//! The next packet from a place on.
ghost use Rattle.std.specs.Prelude.{◌≡◌, ◌≢◌, ◌≤◌, ◌+◌, Ok, Err, Some, [], ◌∷◌, length};
ghost use Rattle.ogg_page.specs.Pages.{found_in};
ghost use Rattle.packet_view.specs.Packets.{packets_from, with_part};
ghost use Rattle.packet_view.specs.Walking.{packets_at, IsPlaceWith};
ghost use Rattle.packet_view.specs.Front.{position_behind};
ghost use Rattle.packet_view.specs.Giving.{Gives};

use crate::fault::ViewFault;
use crate::front::{ends_packet, split_front};
use crate::packet::Packet;
use crate::place::Place;
use crate::unread::{Front, Unread};
use crate::walking::next_page;

/// The next packet from this place on, and the place after it.
pub(crate) fn next_packet<'a>(
    serial: u32,
    from: Place<'a>,
) -> Result<Option<(Packet<'a>, Place<'a>)>, ViewFault>
    ensures { Gives serial (packets_at serial from.entry []) result }
{
    let mut place = from;
    'pages: loop {
        match split_front(place.unread) {
            Front::Ends(piece, unread) => {
                let packet = in_one_page(serial, piece, place, unread);
                return Ok(Some((packet, behind_packet(place, unread))));
            }
            Front::GoesOn(piece) => {
                if !piece.is_empty() {
                    return finish(serial, piece, place);
                }
            }
        }
        match next_page(serial, place.behind, false, place.rest, place.offset)? {
            Some(next) => place = next,
            None => return Ok(None),
        }
    }
}

/// A packet that begins and ends in the page at this place. After it `left` is left of the page.
fn in_one_page<'a>(serial: u32, piece: &'a [u8], place: Place<'a>, left: Unread<'a>) -> Packet<'a>
    ensures { result ≡ record { parts = with_part [] place.entry.unread.place piece.now; position = position_behind left.entry } }
{
    let none = place.rest.split_at(0).0;
    Packet::new(
        piece,
        place.unread.place,
        none,
        place.offset,
        serial,
        piece.len(),
        position_behind(left),
    )
}

/// The position of a packet that ends in a page, if this is left of the page after it.
fn position_behind(left: Unread<'_>) -> Option<u64>
    ensures { result ≡ position_behind left.entry }
{
    if ends_packet(left.lacing) {
        None
    } else {
        left.position
    }
}

/// The packet that begins with these bytes, and the place after it. There are such bytes, and the
/// packet goes on after the page at this place.
fn finish<'a>(
    serial: u32,
    first: &'a [u8],
    from: Place<'a>,
) -> Result<Option<(Packet<'a>, Place<'a>)>, ViewFault>
    requires some { first.now ≢ [] }
    requires inside { from.unread.place + length first.now ≤ from.offset }
    ensures { Gives serial (packets_from serial from.entry.behind (with_part [] from.entry.unread.place first.now) (found_in from.entry.offset from.entry.rest.now)) result }
{
    let mut place = from;
    let mut len = first.len();
    'pages: loop {
        let next = match next_page(serial, place.behind, true, place.rest, place.offset)? {
            Some(next) => next,
            None => return Err(ViewFault::Unfinished),
        };
        match split_front(next.unread) {
            Front::Ends(piece, unread) => {
                let more = from.rest.split_at(from.rest.len() - next.rest.len()).0;
                let packet = Packet::new(
                    first,
                    from.unread.place,
                    more,
                    from.offset,
                    serial,
                    len + piece.len(),
                    position_behind(unread),
                );
                return Ok(Some((packet, behind_packet(next, unread))));
            }
            Front::GoesOn(piece) => {
                len += piece.len();
                place = next;
            }
        }
    }
}

/// The place after a packet that ends in the page at this place.
fn behind_packet<'a>(place: Place<'a>, left: Unread<'a>) -> Place<'a>
    requires { left.place + length left.body.now ≤ place.offset }
    ensures { IsPlaceWith place.entry left.entry result }
{
    Place {
        behind: place.behind,
        unread: left,
        rest: place.rest,
        offset: place.offset,
    }
}
