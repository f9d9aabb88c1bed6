//! How many lacing values, pages and bytes a run takes.
ghost use Rattle.std.specs.Prelude.{◌≡◌, ◌≤◌, ◌+◌, ◌*◌, ◌/◌, ◌^◌, ℕ, length, map};
ghost use Rattle.packetiser.specs.Run.{pages_for, run_lacing, run_bytes, size_for, lengths};
ghost use Rattle.ogg_page.specs.Sizes.{full_value};

use crate::item::TimedPacket;
use ogg_page::{FIXED_SIZE, MOST_VALUES, SEGMENT};

/// How many lacing values a packet of this length has (RFC 3533, section 5).
pub fn values_of(len: u64) -> u64
    ensures { result ≡ len / full_value + 1 }
{
    len / SEGMENT as u64 + 1
}

/// How many pages this number of lacing values takes.
pub fn pages_of(values: u64) -> u64
    ensures { result ≡ pages_for values }
{
    values.div_ceil(MOST_VALUES as u64)
}

/// How many bytes the pages of a run have, by the numbers of its lacing values and of its packets'
/// bytes.
pub fn size_of(values: u64, bytes: u64) -> u64
    requires { values + bytes ≤ 2 ^ 63 }
    ensures { result ≡ size_for values bytes }
{
    FIXED_SIZE as u64 * pages_of(values) + values + bytes
}

/// How many pages a run takes.
pub fn pages_of_run<T: TimedPacket>(run: &[T]) -> u64
    requires { lengths (map T.timed run.now) + length run.now ≤ 2 ^ 62 }
    ensures { result ≡ pages_for (length (run_lacing (map T.timed run.now))) }
{
    pages_of(values_and_bytes(run).0)
}

/// How many bytes the pages of a run have.
pub fn size_of_run<T: TimedPacket>(run: &[T]) -> u64
    requires { lengths (map T.timed run.now) + length run.now ≤ 2 ^ 62 }
    ensures { result ≡ size_for (length (run_lacing (map T.timed run.now))) (length (run_bytes (map T.timed run.now))) }
{
    let (values, bytes) = values_and_bytes(run);
    size_of(values, bytes)
}

/// How many lacing values and how many bytes the packets of a run have.
pub fn values_and_bytes<T: TimedPacket>(run: &[T]) -> (u64, u64)
    requires { lengths (map T.timed run.now) + length run.now ≤ 2 ^ 62 }
    ensures values { result.0 ≡ length (run_lacing (map T.timed run.now)) }
    ensures bytes { result.1 ≡ length (run_bytes (map T.timed run.now)) }
    ensures few { result.0 + result.1 ≤ 2 ^ 63 }
{
    let mut values = 0;
    let mut bytes = 0;
    for item in run {
        let len = item.packet().len() as u64;
        values += values_of(len);
        bytes += len;
    }
    (values, bytes)
}
