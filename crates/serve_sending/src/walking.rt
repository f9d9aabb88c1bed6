//! A buffer is filled with what is left of a stream, page by page.
//!
//! The head of each page is read, and of the stream's own pages also what goes into the buffer. No checksum is
//! computed: pages are checked when they are found, and this reads what was found.
ghost use Rattle.std.specs.Prelude.{◌≡◌, ◌+◌, ◌^◌, ◌<◌, ◌≤◌, ℕ, List, ◌++◌, length, take, drop, IfOk, IsErr, OnOk};
ghost use Rattle.ogg_page.specs.Page.{Page};
ghost use Rattle.ogg_page.specs.Window.{KeepsSource};
ghost use Rattle.ogg_page.specs.Source.{HasCause};
ghost use Rattle.serve_machine.specs.Places.{IsStreamRest, part_at};
ghost use Rattle.ogg_page.specs.Head.{Stands};
ghost use Rattle.serve_sending.specs.Extent.{extent_of};
ghost use Rattle.serve_sending.specs.Sending.{HasFailed};
ghost use Rattle.serve_sending.specs.Walking.{IsFurther, IsGivenOf, IsOver, IsPulled};

use crate::extent::{Extent, read_extent};
use ogg_page::{PageSource, SourceFault};
use serve_machine::stream_rests_are_places;

/// What is left of a stream. A page begins at the place. Of the bytes of the stream's pages from there on some are
/// passed over, and then `count` are left.
#[derive(Clone, Copy, Debug, PartialEq, Eq)]
pub struct StreamLeft {
    pub place: u64,
    pub skip: u64,
    pub count: u64,
}

/// How many bytes of the page at the place go into this much room, and what is left then.
fn next_of_page(extent: Extent, serial: u32, left: StreamLeft, room: u64) -> (u64, StreamLeft)
    requires some { 0 < left.count }
    requires room { 0 < room }
    requires page { 0 < extent.size }
    requires end { left.place + extent.size < 2 ^ 64 }
    ensures given { (committed rest : List ℕ) (page : Page) → Stands (drop left.place committed) page → extent ≡ extent_of page
        → IsStreamRest committed serial left.place left.skip left.count rest
        → IsGivenOf page committed rest serial left result.0 result.1 }
    ensures total { result.0 + result.1.count ≡ left.count }
    ensures room { result.0 ≤ room }
    ensures inside { 0 < result.0 → left.skip + result.0 ≤ extent.size }
    ensures place { (left.place ≤ result.1.place) × (result.1.place ≤ left.place + extent.size) }
    ensures further { left.place < result.1.place + result.0 }
{
    stream_rests_are_places();
    let next = left.place + extent.size;
    if extent.serial != serial {
        return (
            0,
            StreamLeft {
                place: next,
                skip: left.skip,
                count: left.count,
            },
        );
    }
    if left.skip >= extent.size {
        return (
            0,
            StreamLeft {
                place: next,
                skip: left.skip - extent.size,
                count: left.count,
            },
        );
    }
    let own = extent.size - left.skip;
    let taken = own.min(left.count).min(room);
    let skip = left.skip + taken;
    let count = left.count - taken;
    if skip == extent.size && count > 0 {
        return (
            taken,
            StreamLeft {
                place: next,
                skip: 0,
                count,
            },
        );
    }
    (
        taken,
        StreamLeft {
            place: left.place,
            skip,
            count,
        },
    )
}

/// Reads `count` bytes at the place into the buffer, after those that were given.
fn read_on<S: PageSource>(
    source: &mut S,
    place: u64,
    count: usize,
    given: usize,
    buffer: &mut [u8],
) -> Result<(), SourceFault>
    requires inside { place + count ≤ S.size source.old }
    requires room { given + count ≤ length buffer.old }
    ensures read { OnOk result (S.is_honest source.old
        → buffer.new ≡ take given buffer.old ++ (part_at place count (S.bytes source.old) ++ drop (given + count) buffer.old)) }
    ensures cause { HasCause (S.failures source.old) (S.failures source.new) result }
    ensures source { KeepsSource S.bytes S.is_honest S.size S.only_reads source.old source.new }
{
    let (_, free) = buffer.split_at_mut(given);
    let (front, _) = free.split_at_mut(count);
    source.read_at(place, front)
}

/// Reads what is left of the stream in the page at the place into the buffer, as far as it goes in, after the bytes
/// that were given. It returns the count of all these and what is left then.
fn pull_page<S: PageSource>(
    source: &mut S,
    serial: u32,
    left: StreamLeft,
    given: usize,
    buffer: &mut [u8],
) -> Result<(usize, StreamLeft), SourceFault>
    requires room { given < length buffer.old }
    requires some { 0 < left.count }
    ensures pulled { (committed more rest : List ℕ) → S.is_honest source.old → S.bytes source.old ≡ committed ++ more
        → IsPulled committed rest serial left given buffer.old
        → IfOk result (λ p. IsPulled committed rest serial p.1 p.0 buffer.new) }
    ensures cause { (committed more rest : List ℕ) → S.is_honest source.old → S.bytes source.old ≡ committed ++ more
        → IsPulled committed rest serial left given buffer.old → IsErr result
        → HasFailed (S.failures source.old) (S.failures source.new) }
    ensures further { IfOk result (λ p. IsFurther (S.size source.old) (length buffer.old) left given p.1 p.0) }
    ensures later { S.failures source.old ≤ S.failures source.new }
    ensures source { KeepsSource S.bytes S.is_honest S.size S.only_reads source.old source.new }
{
    match read_extent(source, left.place) {
        Ok(extent) => {
            let room = (buffer.len() - given) as u64;
            let (count, after) = next_of_page(extent, serial, left, room);
            if count == 0 {
                return Ok((given, after));
            }
            let taken = count as usize;
            match read_on(source, left.place + left.skip, taken, given, buffer) {
                Ok(()) => Ok((given + taken, after)),
                Err(fault) => Err(fault),
            }
        }
        Err(fault) => Err(fault),
    }
}

/// Reads the first bytes of what is left of a stream into the buffer, as many as it holds. It returns their count and
/// what is left then.
pub fn pull_stream<S: PageSource>(
    source: &mut S,
    serial: u32,
    start: StreamLeft,
    buffer: &mut [u8],
) -> Result<(usize, StreamLeft), SourceFault>
    ensures read { (committed more rest : List ℕ) → S.is_honest source.old → S.bytes source.old ≡ committed ++ more
        → IsStreamRest committed serial start.place start.skip start.count rest
        → IfOk result (λ p. IsPulled committed rest serial p.1 p.0 buffer.new × IsOver (length buffer.old) p.0 p.1) }
    ensures cause { (committed more rest : List ℕ) → S.is_honest source.old → S.bytes source.old ≡ committed ++ more
        → IsStreamRest committed serial start.place start.skip start.count rest → IsErr result
        → HasFailed (S.failures source.old) (S.failures source.new) }
    ensures within { IfOk result (λ p. p.0 ≤ length buffer.old) }
    ensures later { S.failures source.old ≤ S.failures source.new }
    ensures source { KeepsSource S.bytes S.is_honest S.size S.only_reads source.old source.new }
{
    let mut given = 0;
    let mut left = start;
    'pages: while given < buffer.len() && left.count > 0 {
        match pull_page(source, serial, left, given, buffer) {
            Ok((count, after)) => {
                given = count;
                left = after;
            }
            Err(fault) => return Err(fault),
        }
    }
    Ok((given, left))
}
