//! The runs of a put: neighbouring packets of one stream, which go into pages together.
ghost use Rattle.std.specs.Prelude.{◌≡◌, ◌≤◌, ◌<◌, ◌+◌, ◌^◌, ℕ, List, [], ◌∷◌, IfSome, length, sum_by, nat_eq, take, drop, take_while, map};
ghost use Rattle.std.specs.List.{fold};
ghost use Rattle.std.specs.Option.{SomeIff};
ghost use Rattle.packetiser.specs.Run.{pages_for, run_lacing, run_bytes};
ghost use Rattle.command_pages.specs.Encoding.{runs_of, run_serial, run_position, pages_of_runs, with_run, timed};
ghost use Rattle.command_pages.specs.CommandPages.{RunsGoOn};
ghost use Rattle.command_pages.specs.FrontRun.{IsFrontRun, page_count};
ghost use Rattle.command_pages.specs.Limits.{longest_batch, longest_put, most_entries};
ghost use Rattle.link_chain.specs.Places.{HaveOwnSerials, IsPlace};
ghost use Rattle.link_chain.specs.Progress.{next_in, brought_to};
ghost use Rattle.link_chain.specs.Size.{numbered_size};
ghost use Rattle.ogg_command.specs.declared.command.Entry.{Entry as EntryOf};

use crate::limits::SEQUENCES;
use link_chain::{StreamState, place_of, stream_at};
use ogg_command::Entry;
use packetiser::{pages_of, size_of, values_and_bytes, values_of};

/// The sequence number after this many pages, if each of them can have a number.
fn number_behind(next: u64, pages: u64) -> Option<u64>
    ensures { SomeIff result (next + pages ≤ 2 ^ 32) (next + pages) }
{
    next.checked_add(pages)
        .filter(|number| *number <= SEQUENCES)
}

/// The run at the front of a put's entries, and where its stream stands.
#[derive(Drop)]
pub struct FrontRun<'a> {
    pub run: &'a [Entry],
    /// The entries after it.
    pub rest: &'a [Entry],
    pub serial: u32,
    /// The place of its stream among the link's streams.
    pub place: usize,
    /// The number of its stream's next page.
    pub next: u64,
}

/// The run at the front of these entries. Its stream is looked for at this place first.
pub fn front_run<'a>(streams: &[StreamState], place: usize, entries: &'a [Entry]) -> FrontRun<'a>
    requires own { HaveOwnSerials streams.now }
    requires some { 0 < length entries.now }
    ensures run { IsFrontRun entries.entry.now result.run.now result.rest.now }
    ensures serial { result.serial ≡ run_serial result.run.now }
    ensures place { IsPlace streams.now (run_serial result.run.now) result.place }
    ensures next { result.next ≡ next_in streams.now (run_serial result.run.now) }
    ensures fits { RunsGoOn streams.now entries.entry.now → (result.next + page_count result.run.now ≤ 2 ^ 32)
        × (page_count result.run.now < 2 ^ 32) × (0 < page_count result.run.now) }
{
    let (run, rest) = split_run(entries);
    let serial = run_serial(run);
    let place = place_of(streams, place, serial);
    let next = next_at(streams, place);
    FrontRun {
        run,
        rest,
        serial,
        place,
        next,
    }
}

/// Brings the run's stream past the pages of the run. The next page of the stream has the number `sequence`.
pub fn pass_run(streams: &mut [StreamState], front: &FrontRun<'_>, sequence: u64)
    requires own { HaveOwnSerials streams.old }
    requires some { 0 < length front.now.run.now }
    requires place { IsPlace streams.old (run_serial front.now.run.now) front.now.place }
    requires sequence { sequence ≡ next_in streams.old (run_serial front.now.run.now) + page_count front.now.run.now }
    ensures streams { streams.new ≡ with_run streams.old front.now.run.now }
    ensures own { HaveOwnSerials streams.new }
    ensures on { (entries : List EntryOf) → IsFrontRun entries front.now.run.now front.now.rest.now
        → RunsGoOn streams.old entries → RunsGoOn streams.new front.now.rest.now }
{
    bring_stream(streams, front.place, sequence, run_position(front.run));
}

/// The first run of these entries, and the entries after it.
pub fn split_run(entries: &[Entry]) -> (&[Entry], &[Entry])
    requires { 0 < length entries.now }
    ensures { IsFrontRun entries.now result.0.now result.1.now }
{
    entries.split_at(run_length(entries))
}

/// The stream of a run.
fn run_serial(run: &[Entry]) -> u32
    requires { 0 < length run.now }
    ensures { result ≡ run_serial run.now }
{
    let first = &run[0];
    first.serial
}

/// The position that a run brings its stream to.
fn run_position(run: &[Entry]) -> u64
    requires { 0 < length run.now }
    ensures { result ≡ run_position run.now }
{
    let last = &run[run.len() - 1];
    last.position
}

/// The number of the next page of the stream at this place.
fn next_at(streams: &[StreamState], place: usize) -> u64
    ensures { (serial : ℕ) → IsPlace streams.now serial place → result ≡ next_in streams.now serial }
{
    stream_at(streams, place).map_or(0, |stream| stream.next_sequence)
}

/// Brings the stream at this place to a position by whole packets; its next page has this number.
fn bring_stream(streams: &mut [StreamState], place: usize, sequence: u64, position: u64)
    ensures { (serial : ℕ) → HaveOwnSerials streams.old → IsPlace streams.old serial place → streams.new ≡ brought_to serial sequence position streams.old }
{
    if place >= streams.len() {
        return;
    }
    let stream = &mut streams[place];
    stream.next_sequence = sequence;
    stream.last_position = position;
    stream.finished = true;
}

/// How many bytes the pages of a put have, or `None` if one of them can't have a number. The streams, a copy of a
/// chain's, are brought to the state that the pages leave; after `None`, to the state that some of the pages leave.
pub fn size_of_runs(streams: &mut [StreamState], entries: &[Entry]) -> Option<u64>
    requires distinct { HaveOwnSerials streams.old }
    requires few { length entries.now ≤ most_entries }
    requires short { sum_by (λ (entry : EntryOf). length entry.packet) entries.now ≤ longest_batch }
    ensures value { result ≡ numbered_size (pages_of_runs streams.old (runs_of entries.now)) }
    ensures small { IfSome result (λ size. size ≤ longest_put) }
    ensures after { IfSome result (λ _. streams.new ≡ fold with_run streams.old (runs_of entries.now)) }
{
    let mut rest = entries;
    let mut size = 0;
    let mut place = 0;
    while !rest.is_empty() {
        let front = front_run(streams, place, rest);
        let (values, bytes) = values_and_bytes(front.run);
        let Some(sequence) = number_behind(front.next, pages_of(values)) else {
            return None;
        };
        pass_run(streams, &front, sequence);
        size += size_of(values, bytes);
        rest = front.rest;
        place = front.place;
    }
    Some(size)
}

/// How many bytes the pages of a put of one packet have, or `None` if one of them can't have a number. Its stream, which
/// is at this place, is brought past the pages; after `None` the streams are as they were.
pub fn size_of_entry(streams: &mut [StreamState], place: usize, entry: &Entry) -> Option<u64>
    requires distinct { HaveOwnSerials streams.old }
    requires place { IsPlace streams.old entry.now.serial place }
    requires short { length entry.now.packet ≤ longest_batch }
    ensures value { result ≡ numbered_size (pages_of_runs streams.old (runs_of (entry.now ∷ []))) }
    ensures small { IfSome result (λ size. size ≤ longest_put) }
    ensures after { IfSome result (λ _. streams.new ≡ fold with_run streams.old (runs_of (entry.now ∷ []))) }
{
    let bytes = entry.packet.len() as u64;
    let values = values_of(bytes);
    let Some(sequence) = number_behind(next_at(streams, place), pages_of(values)) else {
        return None;
    };
    bring_stream(streams, place, sequence, entry.position);
    Some(size_of(values, bytes))
}

/// How many of the entries, from the first on, have its serial.
fn run_length(entries: &[Entry]) -> usize
    requires { 0 < length entries.now }
    ensures some { 0 < result }
    ensures within { result ≤ length entries.now }
    ensures run { runs_of entries.now ≡ take result entries.now ∷ runs_of (drop result entries.now) }
{
    like(&entries[0], entries)
}

/// How many of the entries, from the first on, are of the same stream as this one.
fn like(first: &Entry, entries: &[Entry]) -> usize
    ensures { result ≡ length (take_while (λ (entry : EntryOf). nat_eq entry.serial first.now.serial) entries.now) }
{
    let serial = first.serial;
    entries
        .iter()
        .take_while(|entry| entry.serial == serial)
        .count()
}
