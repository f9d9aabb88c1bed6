//! The streams of a link, searched.
ghost use Rattle.std.specs.Prelude.{◌≡◌, ◌<◌, not, map};
ghost use Rattle.std.specs.List.{list_any, find};
ghost use Rattle.link_chain.specs.Progress.{stream_in, next_in, change_at, left_whole};
ghost use Rattle.link_chain.specs.declared.stream_state.StreamState.{StreamState as State};

use crate::stream_state::StreamState;

/// Whether a stream hasn't ended.
pub fn is_open(streams: &[StreamState]) -> bool
    ensures { result ≡ list_any (λ (stream : State). not stream.ended) streams.now }
{
    streams.iter().any(|stream| !stream.ended)
}

/// The stream with this serial.
pub fn stream_in(streams: &[StreamState], serial: u32) -> Option<StreamState>
    ensures { result ≡ stream_in streams.now serial }
{
    streams
        .iter()
        .copied()
        .find(|stream| stream.serial == serial)
}

/// The number of the next page of the stream with this serial.
pub fn next_sequence(streams: &[StreamState], serial: u32) -> u64
    ensures { result ≡ next_in streams.now serial }
{
    stream_in(streams, serial).map_or(0, |stream| stream.next_sequence)
}

/// The first stream that has an unfinished packet.
pub fn first_unfinished(streams: &[StreamState]) -> Option<StreamState>
    ensures { result ≡ find (λ (stream : State). not stream.finished) streams.now }
{
    streams.iter().copied().find(|stream| !stream.finished)
}

/// Drops the unfinished packet of the stream with this serial.
pub fn drop_packet(streams: &mut [StreamState], serial: u32)
    ensures { streams.new ≡ map (change_at serial left_whole) streams.old }
{
    for stream in streams.iter_mut() {
        *stream = whole(*stream, serial);
    }
}

fn whole(stream: StreamState, serial: u32) -> StreamState
    ensures { result ≡ change_at serial left_whole stream }
{
    if stream.serial == serial {
        StreamState {
            finished: true,
            ..stream
        }
    } else {
        stream
    }
}
