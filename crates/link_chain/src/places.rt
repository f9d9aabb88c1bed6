//! The places of a link's streams.
ghost use Rattle.std.specs.Prelude.{◌≡◌, false, slice_get, nat_eq};
ghost use Rattle.std.specs.Option.{option_map_or};
ghost use Rattle.std.specs.List.{position};
ghost use Rattle.link_chain.specs.Places.{HaveOwnSerials, IsPlace};
ghost use Rattle.link_chain.specs.declared.stream_state.StreamState.{StreamState as State};

use crate::stream_state::StreamState;

/// The stream at this place.
pub fn stream_at(streams: &[StreamState], place: usize) -> Option<StreamState>
    ensures { result ≡ slice_get streams.now place }
{
    streams.get(place).copied()
}

/// Whether the stream at this place has this serial.
fn is_place(streams: &[StreamState], place: usize, serial: u32) -> bool
    ensures { result ≡ option_map_or (λ (stream : State). nat_eq stream.serial serial) (slice_get streams.now place) false }
{
    match streams.get(place) {
        Some(stream) => stream.serial == serial,
        None => false,
    }
}

/// The place of the first stream with this serial.
fn first_place(streams: &[StreamState], serial: u32) -> Option<usize>
    ensures { result ≡ position (λ (stream : State). nat_eq stream.serial serial) streams.now }
{
    streams.iter().position(|stream| stream.serial == serial)
}

/// The place of the stream with this serial. The stream is looked for at the hint, then after it,
/// and then at all places. If there is no such stream, the place is after them all.
pub fn place_of(streams: &[StreamState], hint: usize, serial: u32) -> usize
    requires { HaveOwnSerials streams.now }
    ensures { IsPlace streams.now serial result }
{
    if is_place(streams, hint, serial) {
        return hint;
    }
    if hint < streams.len() && is_place(streams, hint + 1, serial) {
        return hint + 1;
    }
    first_place(streams, serial).unwrap_or(streams.len())
}
