//! What a command that is kept changes of the last link's streams.
ghost use Rattle.std.specs.Prelude.{◌≡◌, ◌≤◌, ◌<◌, ◌+◌, ◌++◌, false, IfSome, length, map, sum_by};
ghost use Rattle.std.specs.List.{list_any};
ghost use Rattle.chain_rules.specs.Begun.{new_state, skeleton_state, skeleton_serial, states_of, has_other_headers, has_more_pages};
ghost use Rattle.arrayvec.specs.ArrayVec.{array_vec_len};
ghost use Rattle.command_pages.specs.Fits.{header_bytes, has_many_headers};
ghost use Rattle.command_pages.specs.Limits.{longest_batch, most_headers, most_streams};

use arrayvec::ArrayVec;
use command_pages::split_headers;
use link_chain::{MOST_STREAMS, StreamState};
use ogg_command::{NewStream, SkeletonHead};
use packetiser::pages_of_run;

/// The streams of a new link, after its pages.
pub fn streams_of(
    skeleton: Option<SkeletonHead>,
    new: &[NewStream],
) -> ArrayVec<StreamState, MOST_STREAMS>
    requires streams { length new.now + length (skeleton_serial skeleton) ≤ most_streams }
    requires short { sum_by header_bytes new.now ≤ longest_batch }
    requires few { list_any has_many_headers new.now ≡ false }
    ensures { result.items ≡ states_of skeleton new.now }
{
    let mut streams = ArrayVec::new();
    match skeleton {
        None => push_streams(&mut streams, new),
        Some(head) => {
            streams.push(described(head.serial, new));
            push_streams(&mut streams, new);
        }
    }
    streams
}

/// Adds the streams of a new link after its Skeleton.
fn push_streams(streams: &mut ArrayVec<StreamState, MOST_STREAMS>, new: &[NewStream])
    requires streams { array_vec_len streams.old + length new.now ≤ most_streams }
    requires short { sum_by header_bytes new.now ≤ longest_batch }
    requires few { list_any has_many_headers new.now ≡ false }
    ensures streams { streams.new.items ≡ streams.old.items ++ map new_state new.now }
    ensures count { array_vec_len streams.new ≡ array_vec_len streams.old + length new.now }
{
    for stream in new {
        streams.push(begun(stream));
    }
}

/// A Skeleton that describes these streams, after its last page.
fn described(serial: u32, streams: &[NewStream]) -> StreamState
    ensures { result ≡ skeleton_state serial streams.now }
{
    StreamState {
        serial,
        next_sequence: streams.len() as u64 + 2,
        last_position: 0,
        ended: true,
        finished: true,
    }
}

/// A new stream after its headers.
fn begun(stream: &NewStream) -> StreamState
    requires short { header_bytes stream.now ≤ longest_batch }
    requires few { length stream.now.headers ≤ most_headers }
    ensures { result ≡ new_state stream.now }
{
    let (_, others) = split_headers(stream.headers.as_slice());
    StreamState {
        serial: stream.serial,
        next_sequence: 1 + pages_of_run(others),
        last_position: 0,
        ended: false,
        finished: true,
    }
}

/// Whether a new link has pages that are no stream's first.
pub fn has_more_pages(skeleton: Option<SkeletonHead>, streams: &[NewStream]) -> bool
    ensures value { result ≡ has_more_pages skeleton streams.now }
    ensures time { IfSome skeleton (λ head. length head.utc ≡ 20) }
{
    match skeleton {
        None => have_other_headers(streams),
        Some(_) => true,
    }
}

/// Whether one of the streams has more headers than its first.
fn have_other_headers(streams: &[NewStream]) -> bool
    ensures { result ≡ list_any has_other_headers streams.now }
{
    streams.iter().any(|stream| stream.headers.len() > 1)
}
