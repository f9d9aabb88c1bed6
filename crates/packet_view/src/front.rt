//! Splitting what hasn't been read of a page.
ghost use Rattle.std.specs.Prelude.{◌≡◌, ◌≤◌, nat_eq, length};
ghost use Rattle.std.specs.List.{prefix_len};
ghost use Rattle.packet_view.specs.Packets.{ends_packet};
ghost use Rattle.packet_view.specs.Front.{IsFrontOf};
ghost use Rattle.ogg_page.specs.Sizes.{full_value};

use crate::unread::{Front, Unread};
use ogg_page::{FULL_VALUE, SEGMENT};

/// Whether a packet ends in these lacing values.
pub(crate) fn ends_packet(lacing: &[u8]) -> bool
    ensures { result ≡ ends_packet lacing.now }
{
    lacing.iter().any(|value| *value != FULL_VALUE)
}

/// The number of lacing values before the first that ends a packet.
pub(crate) fn full_values(lacing: &[u8]) -> usize
    ensures value { result ≡ prefix_len (λ value. nat_eq value full_value) lacing.now }
    ensures bound { result ≤ length lacing.now }
{
    lacing
        .iter()
        .take_while(|value| **value == FULL_VALUE)
        .count()
}

/// Splits the front of a page from the rest of it.
pub(crate) fn split_front(unread: Unread<'_>) -> Front<'_>
    ensures { IsFrontOf unread.entry result }
{
    let full = full_values(unread.lacing);
    if full == unread.lacing.len() {
        return Front::GoesOn(unread.body);
    }
    let size = SEGMENT * full + usize::from(unread.lacing[full]);
    let (piece, body) = unread.body.split_at(size);
    Front::Ends(
        piece,
        Unread {
            lacing: unread.lacing.split_at(full + 1).1,
            body,
            place: unread.place + size as u64,
            position: unread.position,
        },
    )
}
