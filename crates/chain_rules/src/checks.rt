//! Whether a command is refused, and why, or else its size.
ghost use Rattle.std.specs.Prelude.{◌≡◌, ◌≤◌, ◌<◌, ◌+◌, ◌++◌, ◌^◌, sum_by, Option, Some, None, Ok, Err, IfSome, IfOk, false, length, take, nat_lt, not};
ghost use Rattle.std.specs.List.{list_any, fold};
ghost use Rattle.std.specs.Option.{option_map_or};
ghost use Rattle.link_chain.specs.Places.{HaveOwnSerials};
ghost use Rattle.link_chain.specs.Progress.{next_in};
ghost use Rattle.link_chain.specs.Rules.{first_broken};
ghost use Rattle.link_chain.specs.ChainState.{ChainState};
ghost use Rattle.ogg_command.specs.declared.command.Entry.{Entry as EntryOf};
ghost use Rattle.chain_rules.specs.Decision.{decision, put_rules, begin_rules, room_rules, entries_rules, size_of};
ghost use Rattle.chain_rules.specs.Decision.{answer, has_many_parts, has_long_message};
ghost use Rattle.chain_rules.specs.Encoding.{runs_of, with_run};
ghost use Rattle.chain_rules.specs.Limits.{longest_batch, most_entries, most_streams};

use crate::begin::{broken_by_parts, has_many_parts, is_long_begin};
use crate::entries::broken_by_entries;
use crate::limits::{LONGEST_BATCH, LONGEST_FILE, MOST_ENTRIES};
use crate::lone::check_one;
use command_pages::{FEW_STREAMS, SEQUENCES, SIZE_OF_END, size_of_begin, size_of_runs};
use link_chain::{MOST_LINKS, MOST_STREAMS, Serials, StreamState, is_open, stream_in};
use ogg_command::{Begin, Command, Entry, Put, Refusal};

/// The end of a stream.
#[tactic(auto, unfolding(crate::specs::Decision::decision, command_pages::specs::Encoding::pages_of_command))]
pub fn check_end(streams: &[StreamState], bytes: u64, serial: u32) -> Result<u64, Refusal>
    requires { bytes < 2 ^ 63 }
    ensures decides { (chain : ChainState) → chain.streams ≡ streams.now → chain.length_of ≡ bytes
        → result ≡ decision chain (Command.End serial) }
    ensures numbered { IfOk result (λ _. next_in streams.now serial < 2 ^ 32) }
{
    if !is_open(streams) {
        return Err(Refusal::NoLink);
    }
    let Some(stream) = stream_in(streams, serial) else {
        return Err(Refusal::UnknownSerial);
    };
    if stream.ended {
        return Err(Refusal::StreamEnded);
    }
    if stream.next_sequence >= SEQUENCES {
        return Err(Refusal::SequenceEnd);
    }
    if bytes + SIZE_OF_END + 1 > LONGEST_FILE {
        return Err(Refusal::FileFull);
    }
    Ok(SIZE_OF_END)
}

/// Whether the packets are too long together.
pub fn is_long_batch(entries: &[Entry]) -> bool
    ensures { result ≡ nat_lt longest_batch (sum_by (λ (entry : EntryOf). length entry.packet) entries.now) }
{
    let mut left = LONGEST_BATCH;
    for entry in entries {
        let len = entry.packet.len() as u64;
        if len > left {
            return true;
        }
        left -= len;
    }
    false
}

/// The first rule that a put breaks as a whole.
fn broken_by_put(streams: &[StreamState], entries: &[Entry]) -> Option<Refusal>
    ensures rules { (chain : ChainState) → chain.streams ≡ streams.now → result ≡ first_broken (put_rules chain entries.now) }
    ensures few { result ≡ None → length entries.now ≤ most_entries }
{
    if !is_open(streams) {
        return Some(Refusal::NoLink);
    }
    if entries.is_empty() {
        return Some(Refusal::Empty);
    }
    if entries.len() > MOST_ENTRIES {
        return Some(Refusal::TooMany);
    }
    None
}

/// Whether there is room for a put whose entries break no rule, and its size. The streams are moved on to the end of
/// the put.
#[tactic(auto, unfolding(command_pages::specs::Encoding::pages_of_command))]
fn room_for_put(streams: &mut [StreamState], bytes: u64, put: &Put) -> Result<u64, Refusal>
    requires distinct { HaveOwnSerials streams.old }
    requires few { length put.now.entries ≤ most_entries }
    requires counted { bytes < 2 ^ 63 }
    ensures decides { (chain : ChainState) → chain.streams ≡ streams.old → chain.length_of ≡ bytes
        → result ≡ answer (size_of chain (Command.Put put.now)) (first_broken (room_rules chain (Command.Put put.now))) }
    ensures after { IfOk result (λ _. streams.new ≡ fold with_run streams.old (runs_of put.now.entries)) }
{
    let entries = put.entries.as_slice();
    if is_long_batch(entries) {
        return Err(Refusal::BatchTooLong);
    }
    let Some(size) = size_of_runs(streams, entries) else {
        return Err(Refusal::SequenceEnd);
    };
    if bytes + size + 1 > LONGEST_FILE {
        return Err(Refusal::FileFull);
    }
    Ok(size)
}

/// The entries of a put, and the room for it, with room for a copy of the streams. If the put isn't refused, the copy
/// is moved on to its end.
fn check_by(
    room: &mut [StreamState],
    streams: &[StreamState],
    bytes: u64,
    put: &Put,
) -> Result<u64, Refusal>
    requires streams { length streams.now ≤ length room.old }
    requires distinct { HaveOwnSerials streams.now }
    requires few { length put.now.entries ≤ most_entries }
    requires counted { bytes < 2 ^ 63 }
    ensures decides { (chain : ChainState) → chain.streams ≡ streams.now → chain.length_of ≡ bytes
        → result ≡ answer (size_of chain (Command.Put put.now))
        (first_broken (entries_rules chain.streams put.now.entries ++ room_rules chain (Command.Put put.now))) }
    ensures after { IfOk result (λ _. take (length streams.now) room.new
        ≡ fold with_run streams.now (runs_of put.now.entries)) }
{
    let (copy, _) = room.split_at_mut(streams.len());
    copy.copy_from_slice(streams);
    if let Some(refusal) = broken_by_entries(copy, put.entries.as_slice()) {
        return Err(refusal);
    }
    copy.copy_from_slice(streams);
    room_for_put(copy, bytes, put)
}

/// A put, with room for a copy of the streams. If the put isn't refused, the copy is moved on to its end.
pub fn decide_put(
    room: &mut [StreamState],
    streams: &[StreamState],
    bytes: u64,
    put: &Put,
) -> Result<u64, Refusal>
    requires streams { length streams.now ≤ length room.old }
    requires distinct { HaveOwnSerials streams.now }
    requires counted { bytes < 2 ^ 63 }
    ensures decides { (chain : ChainState) → chain.streams ≡ streams.now → chain.length_of ≡ bytes
        → result ≡ decision chain (Command.Put put.now) }
    ensures after { IfOk result (λ _. take (length streams.now) room.new
        ≡ fold with_run streams.now (runs_of put.now.entries)) }
{
    let entries = put.entries.as_slice();
    if let Some(refusal) = broken_by_put(streams, entries) {
        return Err(refusal);
    }
    if entries.len() == 1 {
        return check_one(room, streams, bytes, &entries[0]);
    }
    check_by(room, streams, bytes, put)
}

/// A put, of which nothing is planned.
pub fn check_put(streams: &[StreamState], bytes: u64, put: &Put) -> Result<u64, Refusal>
    requires streams { length streams.now ≤ most_streams }
    requires distinct { HaveOwnSerials streams.now }
    requires counted { bytes < 2 ^ 63 }
    ensures { (chain : ChainState) → chain.streams ≡ streams.now → chain.length_of ≡ bytes
        → result ≡ decision chain (Command.Put put.now) }
{
    if let Some(refusal) = broken_by_put(streams, put.entries.as_slice()) {
        return Err(refusal);
    }
    // Room is cleared before it is filled, so that a link of few streams takes little.
    if streams.len() <= FEW_STREAMS {
        let mut room = [StreamState::NOBODY; FEW_STREAMS];
        check_by(&mut room, streams, bytes, put)
    } else {
        let mut room = [StreamState::NOBODY; MOST_STREAMS];
        check_by(&mut room, streams, bytes, put)
    }
}

/// The first rule that a new link breaks as a whole.
fn broken_by_begin(streams: &[StreamState], begin: &Begin) -> Option<Refusal>
    ensures rules { (chain : ChainState) → chain.streams ≡ streams.now → result ≡ first_broken (begin_rules chain begin.now) }
    ensures few { result ≡ None → has_many_parts begin.now ≡ false }
{
    if is_open(streams) {
        return Some(Refusal::LinkOpen);
    }
    if begin.streams.is_empty() {
        return Some(Refusal::Empty);
    }
    if has_many_parts(begin) {
        return Some(Refusal::TooMany);
    }
    None
}

/// Whether there is room for a new link whose streams break no rule, and its size.
#[tactic(auto, unfolding(command_pages::specs::Encoding::pages_of_command))]
fn room_for_begin(links: u64, bytes: u64, begin: &Begin) -> Result<u64, Refusal>
    requires few { has_many_parts begin.now ≡ false }
    requires media { IfSome begin.now.skeleton (λ _. list_any has_long_message begin.now.streams ≡ false) }
    requires counted { bytes < 2 ^ 63 }
    ensures { (chain : ChainState) → chain.links ≡ links → chain.length_of ≡ bytes
        → result ≡ answer (size_of chain (Command.Begin begin.now)) (first_broken (room_rules chain (Command.Begin begin.now))) }
{
    let streams = begin.streams.as_slice();
    if is_long_begin(streams) {
        return Err(Refusal::BatchTooLong);
    }
    // The pages of a link's headers are too few to use up the sequence numbers.
    let size = size_of_begin(begin.skeleton, streams);
    if links >= MOST_LINKS {
        return Err(Refusal::LinksFull);
    }
    if bytes + size + 1 > LONGEST_FILE {
        return Err(Refusal::FileFull);
    }
    Ok(size)
}

/// A new link.
pub fn check_begin(
    streams: &[StreamState],
    serials: &Serials,
    links: u64,
    bytes: u64,
    begin: &Begin,
) -> Result<u64, Refusal>
    requires counted { bytes < 2 ^ 63 }
    ensures { (chain : ChainState) → chain.streams ≡ streams.now → chain.serials ≡ serials.now.listed → chain.links ≡ links → chain.length_of ≡ bytes
        → result ≡ decision chain (Command.Begin begin.now) }
{
    if let Some(refusal) = broken_by_begin(streams, begin) {
        return Err(refusal);
    }
    if let Some(refusal) = broken_by_parts(serials, begin.skeleton, begin.streams.as_slice()) {
        return Err(refusal);
    }
    room_for_begin(links, bytes, begin)
}
