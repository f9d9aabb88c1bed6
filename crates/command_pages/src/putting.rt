//! The pages of a put, one at a time.
ghost use Rattle.std.specs.Prelude.{◌≡◌, ◌≤◌, ◌<◌, ◌++◌, List, length, take};
ghost use Rattle.packetiser.specs.RunPages.{NextPage};
ghost use Rattle.link_chain.specs.Places.{HaveOwnSerials};
ghost use Rattle.link_chain.specs.declared.stream_state.StreamState.{StreamState as State};
ghost use Rattle.command_pages.specs.CommandPages.{PutGoesOn, RunsGoOn, pages_to_put};
ghost use Rattle.command_pages.specs.Encoding.{runs_of, pages_of_runs};
ghost use Rattle.command_pages.specs.Fits.{PutFits};
ghost use Rattle.command_pages.specs.Limits.{most_streams};

use crate::runs::{front_run, pass_run, split_run};
use link_chain::{MOST_STREAMS, StreamState};
use ogg_command::Entry;
use ogg_page::PageBuffer;
use packetiser::{RunPages, pages_of_run};

/// The pages of a put that are still to come: those of a run that has begun, and those of the runs after it.
#[derive(Drop)]
pub struct PutPages<'a> {
    run: RunPages<'a, Entry>,
    rest: &'a [Entry],
    /// The link's streams, after the run that has begun.
    streams: [StreamState; MOST_STREAMS],
    count: usize,
    /// The place of the run's stream.
    place: usize,
}

/// All pages of a put.
pub fn put_pages<'a>(streams: &[StreamState], entries: &'a [Entry]) -> PutPages<'a>
    requires streams { length streams.now ≤ most_streams }
    requires distinct { HaveOwnSerials streams.now }
    requires fits { PutFits streams.now entries.now }
    ensures pages { pages_to_put result ≡ pages_of_runs streams.now (runs_of entries.entry.now) }
    ensures on { PutGoesOn result }
{
    let mut copy = [StreamState::NOBODY; MOST_STREAMS];
    let (front, _) = copy.split_at_mut(streams.len());
    front.copy_from_slice(streams);
    PutPages {
        run: RunPages::none(),
        rest: entries,
        streams: copy,
        count: streams.len(),
        place: 0,
    }
}

/// How many pages a put has.
pub fn count_put(entries: &[Entry]) -> u64
    requires fits { (streams : List State) × PutFits streams entries.now }
    ensures { (streams : List State) → result ≡ length (pages_of_runs streams (runs_of entries.now)) }
{
    let mut rest = entries;
    let mut count = 0;
    while !rest.is_empty() {
        let (run, others) = split_run(rest);
        count += pages_of_run(run);
        rest = others;
    }
    count
}

impl PutPages<'_> {
    /// Makes the next page in the buffer, if one is still to come. It takes no memory.
    pub fn next(&mut self, buffer: &mut PageBuffer) -> bool
        requires on { PutGoesOn self.old }
        ensures page { NextPage (pages_to_put self.old) result (pages_to_put self.new) buffer.new.finished }
        ensures on { PutGoesOn self.new }
    {
        while !self.run.next(buffer) {
            if self.rest.is_empty() {
                return false;
            }
            let begun = begin_front(&mut self.streams, self.count, self.place, self.rest);
            self.run = begun.run;
            self.rest = begun.rest;
            self.place = begun.place;
        }
        true
    }
}

/// A run that begins, and the entries after it.
#[derive(Drop)]
struct Begun<'a> {
    run: RunPages<'a, Entry>,
    rest: &'a [Entry],
    place: usize,
}

/// Begins the first run of these entries, of the first `count` streams.
fn begin_front<'a>(
    streams: &mut [StreamState; MOST_STREAMS],
    count: usize,
    place: usize,
    entries: &'a [Entry],
) -> Begun<'a>
    requires count { count ≤ most_streams }
    requires some { 0 < length entries.now }
    requires on { RunsGoOn (take count streams.old) entries.now }
    ensures pages { result.run ++ pages_of_runs (take count streams.new) (runs_of result.rest.now)
        ≡ pages_of_runs (take count streams.old) (runs_of entries.entry.now) }
    ensures on { RunsGoOn (take count streams.new) result.rest.now }
    ensures fewer { length result.rest.now < length entries.entry.now }
{
    let (front, _) = streams.split_at_mut(count);
    begin_run(front, place, entries)
}

/// Begins the first run of these entries, and brings its stream, which is looked for at this place first, past its
/// pages.
fn begin_run<'a>(streams: &mut [StreamState], place: usize, entries: &'a [Entry]) -> Begun<'a>
    requires some { 0 < length entries.now }
    requires on { RunsGoOn streams.old entries.now }
    ensures pages { result.run ++ pages_of_runs streams.new (runs_of result.rest.now) ≡ pages_of_runs streams.old (runs_of entries.entry.now) }
    ensures on { RunsGoOn streams.new result.rest.now }
    ensures fewer { length result.rest.now < length entries.entry.now }
{
    let front = front_run(streams, place, entries);
    let pages = RunPages::of(front.serial, front.next as u32, 0, front.run);
    pass_run(streams, &front, front.next + pages.left());
    Begun {
        run: pages,
        rest: front.rest,
        place: front.place,
    }
}
