//! Bytes put into a page's room.
ghost use Rattle.std.specs.Prelude.{◌≡◌, ◌+◌, ◌<◌, ◌≤◌, ◌++◌, ◌∷◌, List, ℕ, length, drop};
ghost use Rattle.ogg_page.specs.Page.{page_bytes};
ghost use Rattle.ogg_page.specs.PageInWork.{page_in};
ghost use Rattle.ogg_page.specs.Sizes.{fixed_size, most_values};

use crate::head::PageHead;
use crate::sizes::FIXED_SIZE;
use crate::writing::blank_fixed_part;
use page_checksum::checksum;

/// Puts bytes over those at `at`.
pub(crate) fn put_at(room: &mut [u8], at: usize, bytes: &[u8])
    requires { at + length bytes.now ≤ length room.old }
    ensures { (front old rest : List ℕ) → length front ≡ at → length old ≡ length bytes.now →
        room.old ≡ front ++ (old ++ rest) → room.new ≡ front ++ (bytes.now ++ rest) }
{
    let (_, behind) = room.split_at_mut(at);
    let (place, _) = behind.split_at_mut(bytes.len());
    place.copy_from_slice(bytes);
}

/// Makes a page of the lacing values and the body that lie in the room: its head before them, with
/// the checksum, and the byte 0 after them.
pub(crate) fn close_room(room: &mut [u8], head: &PageHead, values: usize, size: usize)
    requires few { values ≤ most_values }
    requires room { fixed_size + values + size < length room.old }
    ensures { room.new ≡ page_bytes (page_in head.now values size room.old) ++ 0 ∷ drop (fixed_size + 1 + values + size) room.old }
{
    let end = FIXED_SIZE + values + size;
    put_at(room, 0, &blank_fixed_part(head, values as u8));
    let sum = checksum(room.split_at(end).0);
    put_at(room, 22, &sum.to_le_bytes());
    put_at(room, end, &[0]);
}
