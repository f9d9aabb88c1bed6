//! The packets of a put, checked one after the other.
ghost use Rattle.std.specs.Prelude.{◌≡◌, ◌≤◌, ◌<◌, ◌+◌, ◌^◌, ℕ, [], ◌∷◌, length, sum_by, nat_lt, nat_le, nat_eq, take, drop, take_while, map, if◌then◌else◌, List};
ghost use Rattle.ogg_command.specs.declared.command.Entry.{Entry as EntryOf};
ghost use Rattle.std.specs.List.{list_any};
ghost use Rattle.link_chain.specs.Rules.{first_broken};
ghost use Rattle.chain_rules.specs.Decision.{entry_rules, entries_rules};
ghost use Rattle.link_chain.specs.Places.{HaveOwnSerials, IsPlace};
ghost use Rattle.link_chain.specs.Progress.{stream_in, with_position};

use crate::limits::LONGEST_PACKET;
use link_chain::{POSITIONS, StreamState, place_of, stream_at};
use ogg_command::{Entry, Refusal};

/// Brings the stream at this place to a position.
pub fn move_stream(streams: &mut [StreamState], place: usize, position: u64)
    ensures { (serial : ℕ) → HaveOwnSerials streams.old → IsPlace streams.old serial place → streams.new ≡ with_position serial position streams.old }
{
    if place >= streams.len() {
        return;
    }
    streams[place].last_position = position;
}

/// The first rule that an entry of the stream at this place breaks.
pub fn broken_by_entry(streams: &[StreamState], place: usize, entry: &Entry) -> Option<Refusal>
    requires { IsPlace streams.now entry.now.serial place }
    ensures { result ≡ first_broken (entry_rules streams.now entry.now) }
{
    if entry.packet.len() > LONGEST_PACKET {
        return Some(Refusal::PacketTooLong);
    }
    let Some(stream) = stream_at(streams, place) else {
        return Some(Refusal::UnknownSerial);
    };
    if stream.ended {
        return Some(Refusal::StreamEnded);
    }
    if entry.position >= POSITIONS {
        return Some(Refusal::PositionRange);
    }
    if entry.position < stream.last_position {
        return Some(Refusal::PositionBack);
    }
    None
}

/// The first rule that one of the entries breaks. The streams are left as the entries before it
/// have moved them.
pub fn broken_by_entries(streams: &mut [StreamState], entries: &[Entry]) -> Option<Refusal>
    requires { HaveOwnSerials streams.old }
    ensures { result ≡ first_broken (entries_rules streams.old entries.now) }
{
    let mut place = 0;
    for entry in entries {
        place = place_of(streams, place, entry.serial);
        let broken = broken_by_entry(streams, place, entry);
        if broken.is_some() {
            return broken;
        }
        move_stream(streams, place, entry.position);
    }
    None
}
