//! The pages of a run as bytes.
ghost use Rattle.std.specs.Prelude.{◌≡◌, ◌≤◌, ◌<◌, ◌+◌, ◌++◌, ◌^◌, IfOk, OnOk, OnErr, length, map, sum_by, vec_len, vec_capacity};
ghost use Rattle.ogg_page.specs.Page.{bytes_of_pages, page_size};
ghost use Rattle.packetiser.specs.Run.{pages_of_run, pages_for, run_lacing, run_bytes, size_for, flagged, lengths};

use crate::Memory;
use crate::item::TimedPacket;
use crate::lone::{lay_packet, lone_packet};
use crate::paging::RunPages;
use crate::size::{pages_of, size_of, values_and_bytes};

/// Appends the pages of a run, and returns their number. `flags` are added to those of the first page. After `Memory`
/// the vector is unchanged.
#[inline(always)]
pub fn lay_run<T: TimedPacket>(
    serial: u32,
    first_sequence: u32,
    flags: u8,
    run: &[T],
    out: &mut Vec<u8>,
) -> Result<u32, Memory>
    requires lengths { lengths (map T.timed run.now) + length run.now ≤ 2 ^ 62 }
    requires numbers { first_sequence + pages_for (length (run_lacing (map T.timed run.now))) ≤ 2 ^ 32 }
    requires count { pages_for (length (run_lacing (map T.timed run.now))) < 2 ^ 32 }
    requires flags { flags < 255 }
    ensures pages { IfOk result (λ count. count ≡ pages_for (length (run_lacing (map T.timed run.now)))) }
    ensures ok { IfOk result (λ _. out.new.items ≡ out.old.items
        ++ bytes_of_pages (flagged flags (pages_of_run serial first_sequence (map T.timed run.now)))) }
    ensures err { OnErr result (out.new.items ≡ out.old.items) }
    ensures len { OnOk result (vec_len out.new ≡ vec_len out.old
        + size_for (length (run_lacing (map T.timed run.now))) (length (run_bytes (map T.timed run.now)))) }
    ensures full { OnErr result (vec_capacity out.old < vec_len out.old
        + size_for (length (run_lacing (map T.timed run.now))) (length (run_bytes (map T.timed run.now)))) }
    ensures capacity { vec_capacity out.old ≤ vec_capacity out.new }
{
    if let Some(item) = lone_packet(run) {
        lay_packet(serial, first_sequence, flags, item, out)?;
        return Ok(1);
    }
    let (values, bytes) = values_and_bytes(run);
    out.reserve(size_of(values, bytes) as usize)?;
    let count = pages_of(values);
    append(
        RunPages::counted(serial, first_sequence, flags, run, count),
        out,
    );
    Ok(count as u32)
}

/// Appends pages for which there is room.
fn append<T: TimedPacket>(mut pages: RunPages<'_, T>, out: &mut Vec<u8>)
    requires room { vec_len out.old + sum_by page_size pages ≤ vec_capacity out.old }
    ensures items { out.new.items ≡ out.old.items ++ bytes_of_pages pages.entry }
    ensures capacity { vec_capacity out.old ≤ vec_capacity out.new }
{
    while pages.next(out) {}
}
