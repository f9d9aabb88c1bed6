//! A put of one packet, decided by itself.
ghost use Rattle.std.specs.Prelude.{◌≡◌, ◌≤◌, ◌<◌, ◌++◌, ◌^◌, [], ◌∷◌, IfOk, length, take};
ghost use Rattle.std.specs.List.{fold};
ghost use Rattle.link_chain.specs.Places.{HaveOwnSerials, IsPlace};
ghost use Rattle.link_chain.specs.Rules.{first_broken};
ghost use Rattle.link_chain.specs.ChainState.{ChainState};
ghost use Rattle.chain_rules.specs.Decision.{answer, entries_rules, put_of, room_rules, size_of};
ghost use Rattle.chain_rules.specs.Encoding.{runs_of, with_run};
ghost use Rattle.chain_rules.specs.Limits.{longest_packet};

use crate::entries::broken_by_entry;
use crate::limits::LONGEST_FILE;
use command_pages::size_of_entry;
use link_chain::{StreamState, place_of};
use ogg_command::{Command, Entry, Refusal};

/// Whether there is room for a put of one packet that breaks no rule, and its size. Its stream, which is at this place,
/// is moved on to the end of the put.
#[tactic(auto, unfolding(command_pages::specs::Encoding::pages_of_command))]
fn room_for_one(
    streams: &mut [StreamState],
    place: usize,
    bytes: u64,
    entry: &Entry,
) -> Result<u64, Refusal>
    requires distinct { HaveOwnSerials streams.old }
    requires place { IsPlace streams.old entry.now.serial place }
    requires short { length entry.now.packet ≤ longest_packet }
    requires counted { bytes < 2 ^ 63 }
    ensures decides { (chain : ChainState) → chain.streams ≡ streams.old → chain.length_of ≡ bytes
        → result ≡ answer (size_of chain (Command.Put (put_of entry.now))) (first_broken (room_rules chain (Command.Put (put_of entry.now)))) }
    ensures after { IfOk result (λ _. streams.new ≡ fold with_run streams.old (runs_of (entry.now ∷ []))) }
{
    let Some(size) = size_of_entry(streams, place, entry) else {
        return Err(Refusal::SequenceEnd);
    };
    if bytes + size + 1 > LONGEST_FILE {
        return Err(Refusal::FileFull);
    }
    Ok(size)
}

/// The packet of a put of one packet, and the room for it, with room for a copy of the streams. If the put isn't refused,
/// the copy is moved on to its end. The stream is looked for once, and the packet is checked against the streams
/// themselves.
pub fn check_one(
    room: &mut [StreamState],
    streams: &[StreamState],
    bytes: u64,
    entry: &Entry,
) -> Result<u64, Refusal>
    requires streams { length streams.now ≤ length room.old }
    requires distinct { HaveOwnSerials streams.now }
    requires counted { bytes < 2 ^ 63 }
    ensures decides { (chain : ChainState) → chain.streams ≡ streams.now → chain.length_of ≡ bytes
        → result ≡ answer (size_of chain (Command.Put (put_of entry.now)))
        (first_broken (entries_rules chain.streams (entry.now ∷ []) ++ room_rules chain (Command.Put (put_of entry.now)))) }
    ensures after { IfOk result (λ _. take (length streams.now) room.new
        ≡ fold with_run streams.now (runs_of (entry.now ∷ []))) }
{
    let place = place_of(streams, 0, entry.serial);
    if let Some(refusal) = broken_by_entry(streams, place, entry) {
        return Err(refusal);
    }
    let (copy, _) = room.split_at_mut(streams.len());
    copy.copy_from_slice(streams);
    room_for_one(copy, place, bytes, entry)
}
