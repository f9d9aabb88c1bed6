//! The pages of a command as bytes.
ghost use Rattle.std.specs.Prelude.{◌≡◌, ◌≤◌, ◌<◌, ◌+◌, ◌++◌, ◌^◌, List, ℕ, [], ◌∷◌, OnOk, OnErr, length, vec_len, vec_capacity};
ghost use Rattle.ogg_page.specs.Page.{bytes_of_pages, page_of};
ghost use Rattle.link_chain.specs.ChainState.{ChainState};
ghost use Rattle.command_pages.specs.CommandPages.{BeginGoesOn, pages_to_begin};
ghost use Rattle.command_pages.specs.Fits.{BeginFits, PutFits, CommandFits};
ghost use Rattle.command_pages.specs.Limits.{most_streams};
ghost use Rattle.command_pages.specs.Encoding.{pages_of_begin, end_page, runs_of, pages_of_runs, command_bytes};
ghost use Rattle.link_chain.specs.Places.{HaveOwnSerials};
ghost use Rattle.link_chain.specs.Progress.{next_in};
ghost use Rattle.link_chain.specs.Size.{size_of_pages};
ghost use Rattle.ogg_page.specs.Sizes.{fixed_size};

use crate::Memory;
use crate::beginning::{BeginPages, begin_pages};
use crate::limits::FEW_STREAMS;
use crate::runs::{front_run, pass_run};
use crate::sizes::size_of_begin;
use link_chain::{Chain, MOST_STREAMS, StreamState, next_sequence, stream_in};
use ogg_command::{Command, Entry, NewStream, SkeletonHead};
use ogg_page::{LAST, PageHead, write_page};
use packetiser::lay_run;

/// Appends the pages of a command. After `Memory` the vector is unchanged.
pub fn lay_command(chain: &Chain, command: &Command, out: &mut Vec<u8>) -> Result<(), Memory>
    requires { CommandFits chain.now.chain command.now }
    ensures ok { OnOk result (out.new.items ≡ out.old.items ++ command_bytes chain.now.chain command.now) }
    ensures err { OnErr result (out.new.items ≡ out.old.items) }
    ensures full { OnErr result (vec_capacity out.old < vec_len out.old + length (command_bytes chain.now.chain command.now)) }
    ensures capacity { vec_capacity out.old ≤ vec_capacity out.new }
{
    match command {
        Command::Begin(begin) => lay_begin(begin.skeleton, begin.streams.as_slice(), out),
        Command::Put(put) => lay_put(chain.streams(), put.entries.as_slice(), out),
        Command::End(serial) => lay_end(chain.streams(), *serial, out),
    }
}

/// The head of the page that ends a stream.
pub fn end_head(streams: &[StreamState], serial: u32) -> PageHead
    requires { next_in streams.now serial < 2 ^ 32 }
    ensures { (chain : ChainState) → chain.streams ≡ streams.now → page_of result [] [] ≡ end_page chain serial }
{
    let position = stream_in(streams, serial).map_or(0, |stream| stream.last_position);
    PageHead {
        flags: LAST,
        position,
        serial,
        sequence: next_sequence(streams, serial) as u32,
    }
}

/// Appends the page that ends a stream.
fn lay_end(streams: &[StreamState], serial: u32, out: &mut Vec<u8>) -> Result<(), Memory>
    requires { next_in streams.now serial < 2 ^ 32 }
    ensures ok { (chain : ChainState) → chain.streams ≡ streams.now → OnOk result (out.new.items ≡ out.old.items ++ bytes_of_pages (end_page chain serial ∷ [])) }
    ensures err { OnErr result (out.new.items ≡ out.old.items) }
    ensures full { OnErr result (vec_capacity out.old < vec_len out.old + fixed_size) }
    ensures capacity { vec_capacity out.old ≤ vec_capacity out.new }
{
    write_page(&end_head(streams, serial), &[], &[], out)
}

/// Appends the pages of a put. After `Memory` the vector is unchanged.
fn lay_put(streams: &[StreamState], entries: &[Entry], out: &mut Vec<u8>) -> Result<(), Memory>
    requires streams { length streams.now ≤ most_streams }
    requires distinct { HaveOwnSerials streams.now }
    requires fits { PutFits streams.now entries.now }
    ensures ok { OnOk result (out.new.items ≡ out.old.items ++ bytes_of_pages (pages_of_runs streams.now (runs_of entries.now))) }
    ensures err { OnErr result (out.new.items ≡ out.old.items) }
    ensures full { OnErr result (vec_capacity out.old < vec_len out.old + size_of_pages (pages_of_runs streams.now (runs_of entries.now))) }
    ensures capacity { vec_capacity out.old ≤ vec_capacity out.new }
{
    if entries.len() == 1 {
        return lay_one(streams, entries, out);
    }
    // The array is cleared before it is filled, so a link of few streams has a small one.
    if streams.len() <= FEW_STREAMS {
        let mut copy = [StreamState::NOBODY; FEW_STREAMS];
        lay_by(&mut copy, streams, entries, out)
    } else {
        let mut copy = [StreamState::NOBODY; MOST_STREAMS];
        lay_by(&mut copy, streams, entries, out)
    }
}

/// Appends the pages of a put of one packet, after which no stream is looked for. After `Memory` the vector is unchanged.
fn lay_one(streams: &[StreamState], entries: &[Entry], out: &mut Vec<u8>) -> Result<(), Memory>
    requires one { length entries.now ≡ 1 }
    requires distinct { HaveOwnSerials streams.now }
    requires fits { PutFits streams.now entries.now }
    ensures ok { OnOk result (out.new.items ≡ out.old.items ++ bytes_of_pages (pages_of_runs streams.now (runs_of entries.now))) }
    ensures err { OnErr result (out.new.items ≡ out.old.items) }
    ensures full { OnErr result (vec_capacity out.old < vec_len out.old + size_of_pages (pages_of_runs streams.now (runs_of entries.now))) }
    ensures capacity { vec_capacity out.old ≤ vec_capacity out.new }
{
    let entry = &entries[0];
    let next = next_sequence(streams, entry.serial);
    match lay_run(entry.serial, next as u32, 0, entries, out) {
        Ok(_) => Ok(()),
        Err(memory) => Err(memory),
    }
}

/// Appends the pages of a put by way of room for a copy of the streams. After `Memory` the vector is
/// unchanged.
fn lay_by(
    copy: &mut [StreamState],
    streams: &[StreamState],
    entries: &[Entry],
    out: &mut Vec<u8>,
) -> Result<(), Memory>
    requires streams { length streams.now ≤ length copy.old }
    requires distinct { HaveOwnSerials streams.now }
    requires fits { PutFits streams.now entries.now }
    ensures ok { OnOk result (out.new.items ≡ out.old.items ++ bytes_of_pages (pages_of_runs streams.now (runs_of entries.now))) }
    ensures err { OnErr result (out.new.items ≡ out.old.items) }
    ensures full { OnErr result (vec_capacity out.old < vec_len out.old + size_of_pages (pages_of_runs streams.now (runs_of entries.now))) }
    ensures capacity { vec_capacity out.old ≤ vec_capacity out.new }
{
    let len = out.len();
    let (copy, _) = copy.split_at_mut(streams.len());
    copy.copy_from_slice(streams);
    match lay_runs(copy, entries, out) {
        Ok(()) => Ok(()),
        Err(memory) => {
            out.truncate(len);
            Err(memory)
        }
    }
}

/// Appends the pages of a put, run after run. After `Memory` the pages of the runs before stand in the vector.
fn lay_runs(streams: &mut [StreamState], entries: &[Entry], out: &mut Vec<u8>) -> Result<(), Memory>
    requires distinct { HaveOwnSerials streams.old }
    requires fits { PutFits streams.old entries.now }
    ensures ok { OnOk result (out.new.items ≡ out.old.items ++ bytes_of_pages (pages_of_runs streams.old (runs_of entries.now))) }
    ensures kept { (added : List ℕ) × (out.new.items ≡ out.old.items ++ added) }
    ensures full { OnErr result (vec_capacity out.old < vec_len out.old + size_of_pages (pages_of_runs streams.old (runs_of entries.now))) }
    ensures capacity { vec_capacity out.old ≤ vec_capacity out.new }
{
    let mut rest = entries;
    let mut place = 0;
    while !rest.is_empty() {
        let front = front_run(streams, place, rest);
        let pages = match lay_run(front.serial, front.next as u32, 0, front.run, out) {
            Ok(pages) => pages,
            Err(memory) => return Err(memory),
        };
        pass_run(streams, &front, front.next + u64::from(pages));
        rest = front.rest;
        place = front.place;
    }
    Ok(())
}

/// Appends the pages of a new link.
fn lay_begin(
    skeleton: Option<SkeletonHead>,
    streams: &[NewStream],
    out: &mut Vec<u8>,
) -> Result<(), Memory>
    requires fits { BeginFits skeleton streams.now }
    ensures ok { OnOk result (out.new.items ≡ out.old.items ++ bytes_of_pages (pages_of_begin skeleton streams.now)) }
    ensures err { OnErr result (out.new.items ≡ out.old.items) }
    ensures full { OnErr result (vec_capacity out.old < vec_len out.old + size_of_pages (pages_of_begin skeleton streams.now)) }
    ensures capacity { vec_capacity out.old ≤ vec_capacity out.new }
{
    let size = size_of_begin(skeleton, streams);
    out.reserve(size as usize)?;
    append(begin_pages(skeleton, streams), out);
    Ok(())
}

/// Appends the pages of a new link that are still to come, for which there is room.
fn append(mut pages: BeginPages<'_>, out: &mut Vec<u8>)
    requires on { BeginGoesOn pages }
    requires room { vec_len out.old + size_of_pages (pages_to_begin pages) ≤ vec_capacity out.old }
    ensures items { out.new.items ≡ out.old.items ++ bytes_of_pages (pages_to_begin pages.entry) }
    ensures capacity { vec_capacity out.old ≤ vec_capacity out.new }
{
    while pages.next(out) {}
}
