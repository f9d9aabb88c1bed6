//! Under which serials the streams of a file are heard, and with which numbers.
ghost use Rattle.std.specs.Prelude.{◌≡◌, ◌+◌, ◌-◌, ◌%◌, ◌^◌, ◌<◌, length, IfOk, OnErr};
ghost use Rattle.serve_live.specs.Following.{name_on, names_on, open_streams};
ghost use Rattle.serve_live.specs.Names.{name_in};

use link_chain::StreamState;
use ogg_page::Memory;
use std::alloc::Global;

/// How many numbers a page may have (RFC 3533, section 6, field 6).
const NUMBERS: u64 = 1 << 32;

/// How a stream is heard: under another serial, if it goes on with a stream of the file before, and with numbers that go
/// on without a gap.
#[derive(Clone, Copy, Debug, PartialEq, Eq)]
pub struct StreamName {
    /// The stream's serial in the file.
    pub serial: u32,
    /// The serial under which it is heard.
    pub name: u32,
    /// How much less the number of a page is that is heard.
    pub less: u64,
    /// How much more it is then.
    pub more: u64,
}

/// How the first stream with this serial is heard. If there is none, its pages are heard as they are.
pub fn name_in(names: &[StreamName], serial: u32) -> StreamName
    ensures { result ≡ name_in names.now serial }
{
    let mut rest = names;
    while let Some((stream, others)) = rest.split_first() {
        if stream.serial == serial {
            return *stream;
        }
        rest = others;
    }
    StreamName {
        serial,
        name: serial,
        less: 0,
        more: 0,
    }
}

/// The number with which a page is heard. After the highest number 0 follows: RFC 3533 has none for such a page.
pub fn number_heard(stream: StreamName, number: u64) -> u32
    ensures { result ≡ (stream.more + (number - stream.less)) % 2 ^ 32 }
{
    let rest = number.saturating_sub(stream.less);
    (stream.more.wrapping_add(rest) % NUMBERS) as u32
}

/// A stream of the next file, which goes on with one of the file before.
fn name_on(names: &[StreamName], old: &StreamState, new: &StreamState) -> StreamName
    ensures { result ≡ name_on names.now old.now new.now }
{
    let stream = name_in(names, old.serial);
    StreamName {
        serial: new.serial,
        name: stream.name,
        less: new.next_sequence,
        more: u64::from(number_heard(stream, old.next_sequence)),
    }
}

/// The streams of the next file, which go on with those of the file before, in order. No memory is taken if none does.
pub fn names_on(
    alloc: Global,
    names: &[StreamName],
    old: &[StreamState],
    new: &[StreamState],
) -> Result<Vec<StreamName>, Memory>
    ensures names { IfOk result (λ found. found.items ≡ names_on names.now old.now new.now) }
    ensures full { OnErr result ((0 < length old.now) × (0 < length new.now)) }
{
    if old.is_empty() || new.is_empty() {
        return Ok(Vec::new(alloc));
    }
    old.iter()
        .zip(new)
        .map(|(old, new)| name_on(names, old, new))
        .collect(alloc)
}

/// The streams that haven't ended.
pub fn open_streams(alloc: Global, streams: &[StreamState]) -> Result<Vec<StreamState>, Memory>
    ensures streams { IfOk result (λ found. found.items ≡ open_streams streams.now) }
    ensures full { OnErr result (0 < length streams.now) }
{
    if streams.is_empty() {
        return Ok(Vec::new(alloc));
    }
    streams
        .iter()
        .copied()
        .filter(|stream| !stream.ended)
        .collect(alloc)
}
