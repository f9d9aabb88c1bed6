//! How many pages of each stream of the link were lost, in the order of the streams' first pages.
ghost use Rattle.std.specs.Prelude.{◌≡◌, nat_eq, slice_set};
ghost use Rattle.std.specs.List.{position};
ghost use Rattle.link_chain.specs.declared.stream_state.StreamState.{StreamState as State};
ghost use Rattle.import_mend.specs.Losses.{lost_in, with_lost};

use link_chain::StreamState;

/// The place of the stream with this serial.
fn place_in(streams: &[StreamState], serial: u32) -> Option<usize>
    ensures { result ≡ position (λ (stream : State). nat_eq stream.serial serial) streams.now }
{
    streams.iter().position(|stream| stream.serial == serial)
}

/// How many pages of the stream with this serial were lost.
pub fn lost_in(losses: &[u32], streams: &[StreamState], serial: u32) -> u32
    ensures { result ≡ lost_in losses.now streams.now serial }
{
    match place_in(streams, serial) {
        Some(place) => losses.get(place).copied().unwrap_or(0),
        None => 0,
    }
}

/// So many pages were lost of the stream at this place.
pub fn set_lost(losses: &mut [u32], place: usize, count: u32)
    ensures { losses.new ≡ slice_set losses.old place count }
{
    if place < losses.len() {
        losses[place] = count;
    }
}

/// So many pages were lost of the stream with this serial.
pub fn set_lost_of(losses: &mut [u32], streams: &[StreamState], serial: u32, count: u32)
    ensures { losses.new ≡ with_lost losses.old streams.now serial count }
{
    if let Some(place) = place_in(streams, serial) {
        set_lost(losses, place, count);
    }
}
