//! A place in a run, between two of its pages.
ghost use Rattle.std.specs.Prelude.{◌≡◌, ◌≤◌, ◌<◌, ◌+◌, ◌*◌, ◌++◌, ℕ, List, [], length, map, take, drop, sum, nat_eq, nat_lt};
ghost use Rattle.ogg_page.specs.Lacing.{ends_open};
ghost use Rattle.packetiser.specs.Run.{packets_ended, position_of};
ghost use Rattle.packetiser.specs.Place.{values_left, bytes_left, next_values, IsWithin};
ghost use Rattle.ogg_page.specs.Sizes.{most_values, full_value};

use crate::item::TimedPacket;
use ogg_page::{FULL_VALUE, MOST_VALUES, SEGMENT};

/// The position of a page in which no packet ends: -1 (RFC 3533, section 6, field 4).
pub const NO_POSITION: u64 = u64::MAX;

/// The next page of a run, without its lacing values, and what is left after it.
#[derive(Drop)]
pub struct Filled<'a, T> {
    /// How many lacing values the page has.
    pub count: usize,
    /// How many bytes its body has.
    pub size: usize,
    /// The position of the last packet that ends in the page.
    pub position: u64,
    /// The packets that don't end in the page or before it.
    pub rest: &'a [T],
    /// How many bytes of the first of these the page and those before it hold.
    pub done: usize,
}

/// The next page of a run of which these packets are left, if `begun` bytes of the first are done. The page's
/// lacing values are put at the front of `lacing`.
pub fn fill<'a, T: TimedPacket>(
    from: &'a [T],
    begun: usize,
    lacing: &mut [u8; MOST_VALUES],
) -> Filled<'a, T>
    requires within { IsWithin begun (map T.timed from.now) }
    ensures values { take result.count lacing.new ≡ next_values begun (map T.timed from.now) }
    ensures count { result.count ≤ most_values }
    ensures size { result.size ≡ sum (take result.count lacing.new) }
    ensures small { result.size ≤ full_value * result.count }
    ensures values_behind { values_left result.done (map T.timed result.rest.now) ≡ drop most_values (values_left begun (map T.timed from.now)) }
    ensures bytes_behind { bytes_left result.done (map T.timed result.rest.now)
        ≡ drop (sum (take result.count lacing.new)) (bytes_left begun (map T.timed from.now)) }
    ensures ended { map T.timed result.rest.now ≡ drop (packets_ended (take result.count lacing.new)) (map T.timed from.now) }
    ensures position { result.position ≡ position_of (packets_ended (take result.count lacing.new)) (map T.timed from.now) }
    ensures within { IsWithin result.done (map T.timed result.rest.now) }
    ensures open { 0 < result.count → nat_lt 0 result.done ≡ ends_open (take result.count lacing.new) }
{
    let mut size = 0;
    let mut position = NO_POSITION;
    let mut rest = from;
    let mut done = begun;
    for count in 0..MOST_VALUES {
        let Some((item, others)) = rest.split_first() else {
            return Filled {
                count,
                size,
                position,
                rest,
                done,
            };
        };
        let left = item.packet().len() - done;
        if ends_here(left) {
            lacing[count] = left as u8;
            size += left;
            position = item.position();
            rest = others;
            done = 0;
        } else {
            lacing[count] = FULL_VALUE;
            size += SEGMENT;
            done += SEGMENT;
        }
    }
    Filled {
        count: MOST_VALUES,
        size,
        position,
        rest,
        done,
    }
}

/// Whether a packet ends with the next lacing value, if `left` of its bytes are left. That value then isn't a full
/// one (RFC 3533, section 5).
fn ends_here(left: usize) -> bool
    ensures { result ≡ nat_lt left full_value }
{
    left < SEGMENT
}
