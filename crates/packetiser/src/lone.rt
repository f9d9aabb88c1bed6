//! The page of a packet that lies whole in it.
ghost use Rattle.std.specs.Prelude.{◌≡◌, ◌≤◌, ◌<◌, ◌+◌, ◌++◌, ◌∷◌, [], IfSome, OnOk, OnErr, length, map, replicate, take, vec_len, vec_capacity};
ghost use Rattle.ogg_page.specs.Page.{page_bytes, page_size};
ghost use Rattle.ogg_page.specs.Lacing.{lacing_of};
ghost use Rattle.ogg_page.specs.Sizes.{full_value, longest_whole, most_values};
ghost use Rattle.packetiser.specs.Run.{whole_page};

use crate::Memory;
use crate::item::TimedPacket;
use ogg_page::{FULL_VALUE, MOST_VALUES, PageHead, SEGMENT, write_page};

/// How many bytes a packet has at most that lies whole in one page: its last lacing value isn't a full one.
const LONGEST_WHOLE: usize = MOST_VALUES * SEGMENT - 1;

/// The packet of a run of one packet, if it lies whole in one page.
pub fn lone_packet<T: TimedPacket>(run: &[T]) -> Option<&T>
    ensures { IfSome result (λ item. (map T.timed run.now ≡ T.timed item.now ∷ []) × (length (T.timed item.now).packet ≤ longest_whole)) }
{
    if run.len() != 1 {
        return None;
    }
    let item = &run[0];
    if item.packet().len() > LONGEST_WHOLE {
        return None;
    }
    Some(item)
}

/// Appends the page of a packet that lies whole in it. After `Memory` the vector is unchanged.
pub fn lay_packet<T: TimedPacket>(
    serial: u32,
    sequence: u32,
    flags: u8,
    item: &T,
    out: &mut Vec<u8>,
) -> Result<(), Memory>
    requires whole { length (T.timed item.now).packet ≤ longest_whole }
    ensures ok { OnOk result (out.new.items ≡ out.old.items ++ page_bytes (whole_page serial sequence flags (T.timed item.now))) }
    ensures err { OnErr result (out.new.items ≡ out.old.items) }
    ensures full { OnErr result (vec_capacity out.old < vec_len out.old + page_size (whole_page serial sequence flags (T.timed item.now))) }
    ensures capacity { vec_capacity out.old ≤ vec_capacity out.new }
{
    let packet = item.packet();
    let head = PageHead {
        flags,
        position: item.position(),
        serial,
        sequence,
    };
    if packet.len() < SEGMENT {
        return write_page(&head, &[packet.len() as u8], packet, out);
    }
    let mut lacing = [FULL_VALUE; MOST_VALUES];
    let count = end_values(packet.len(), &mut lacing);
    let (lacing, _) = lacing.split_at(count);
    write_page(&head, lacing, packet, out)
}

/// Ends the lacing values of a packet of this length, of which full ones are there, and returns their number.
fn end_values(len: usize, lacing: &mut [u8; MOST_VALUES]) -> usize
    requires whole { len ≤ longest_whole }
    requires full { lacing.old ≡ replicate most_values full_value }
    ensures values { take result lacing.new ≡ lacing_of len }
    ensures count { result ≤ most_values }
{
    let full = len / SEGMENT;
    lacing[full] = (len % SEGMENT) as u8;
    full + 1
}
