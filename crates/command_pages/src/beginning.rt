//! The pages of a new link, one at a time.
ghost use Rattle.std.specs.Prelude.{◌≡◌, ◌≤◌, ◌<◌, ◌+◌, ◌^◌, [], ◌∷◌, true, false, Some, Option, length, sum_by};
ghost use Rattle.std.specs.List.{list_any, flat_map};
ghost use Rattle.packetiser.specs.Run.{pages_of_run, flagged};
ghost use Rattle.packetiser.specs.PageSpace.{NextFits, NextMade};
ghost use Rattle.command_pages.specs.CommandPages.{BeginGoesOn, pages_to_begin};
ghost use Rattle.command_pages.specs.Encoding.{header, first_pages, fisbone_packet, header_pages, pages_of_begin};
ghost use Rattle.command_pages.specs.Fits.{BeginFits, header_bytes, has_many_headers, has_long_message};
ghost use Rattle.command_pages.specs.Limits.{longest_batch, most_headers, most_streams};
ghost use Rattle.ogg_page.specs.Sizes.{longest_whole};

use crate::sizes::split_headers;
use crate::skeleton::{fisbone_of, fishead_of};
use ogg_command::{Listed, NewStream, SkeletonHead};
use ogg_page::{FIRST, LAST};
use packetiser::{Item, PageSpace, RunPages, pages_of_run};

/// The pages of a new link that are still to come: those of a run that has begun, a Skeleton's first page, the first
/// pages of these streams, the pages of these fisbones, those of these streams' other headers, and a Skeleton's last
/// page.
#[derive(Drop)]
pub struct BeginPages<'a> {
    run: RunPages<'a, Listed<u8>>,
    fishead: Option<SkeletonHead>,
    firsts: &'a [NewStream],
    /// The Skeleton's serial, and the number of the page of its next fisbone.
    serial: u32,
    sequence: u32,
    fisbones: &'a [NewStream],
    others: &'a [NewStream],
    has_end: bool,
}

/// All pages of a new link.
pub fn begin_pages<'a>(skeleton: Option<SkeletonHead>, streams: &'a [NewStream]) -> BeginPages<'a>
    requires fits { BeginFits skeleton streams.now }
    ensures pages { pages_to_begin result ≡ pages_of_begin skeleton streams.entry.now }
    ensures on { BeginGoesOn result }
{
    let (none, _) = streams.split_at(0);
    match skeleton {
        None => BeginPages {
            run: RunPages::none(),
            fishead: None,
            firsts: streams,
            serial: 0,
            sequence: 0,
            fisbones: none,
            others: streams,
            has_end: false,
        },
        Some(head) => BeginPages {
            run: RunPages::none(),
            fishead: Some(head),
            firsts: streams,
            serial: head.serial,
            sequence: 1,
            fisbones: streams,
            others: streams,
            has_end: true,
        },
    }
}

/// How many pages a new link has.
pub fn count_begin(skeleton: Option<SkeletonHead>, streams: &[NewStream]) -> u64
    requires fits { BeginFits skeleton streams.now }
    ensures value { result ≡ length (pages_of_begin skeleton streams.now) }
{
    let count = count_headers(streams);
    match skeleton {
        None => count,
        Some(head) => {
            // For the proof alone.
            let _time = fishead_of(&head);
            count + streams.len() as u64 + 2
        }
    }
}

/// How many pages the headers of new streams take.
fn count_headers(streams: &[NewStream]) -> u64
    requires short { sum_by header_bytes streams.now ≤ longest_batch }
    requires few { list_any has_many_headers streams.now ≡ false }
    requires links { length streams.now ≤ most_streams }
    ensures value { result ≡ length (flat_map first_pages streams.now) + length (flat_map header_pages streams.now) }
    ensures few { result ≤ 2 ^ 40 }
{
    let mut count = 0;
    for stream in streams {
        count += count_stream(stream);
    }
    count
}

/// How many pages the headers of a new stream take.
fn count_stream(stream: &NewStream) -> u64
    requires short { header_bytes stream.now ≤ longest_batch }
    requires few { length stream.now.headers ≤ most_headers }
    ensures value { result ≡ length (first_pages stream.now) + length (header_pages stream.now) }
    ensures few { result < 2 ^ 32 }
{
    let (first, others) = split_headers(stream.headers.as_slice());
    pages_of_run(first) + pages_of_run(others)
}

impl BeginPages<'_> {
    /// Makes the next page in the space, if one is still to come. It takes no memory.
    pub fn next<S: PageSpace>(&mut self, space: &mut S) -> bool
        requires on { BeginGoesOn self.old }
        requires room { NextFits S.fits space.old (pages_to_begin self.old) }
        ensures page { NextMade S.has_made space.old
            (pages_to_begin self.old) result (pages_to_begin self.new) space.new }
        ensures on { BeginGoesOn self.new }
    {
        while !self.run.next(space) {
            if let Some(head) = self.fishead.take() {
                make_packet(head.serial, 0, FIRST, &fishead_of(&head).packet(), space);
                return true;
            }
            if let Some((stream, rest)) = self.firsts.split_first() {
                self.run = first_run(stream);
                self.firsts = rest;
            } else if let Some((stream, rest)) = self.fisbones.split_first() {
                make_fisbone(self.serial, self.sequence, stream, space);
                self.sequence += 1;
                self.fisbones = rest;
                return true;
            } else if let Some((stream, rest)) = self.others.split_first() {
                self.run = other_run(stream);
                self.others = rest;
            } else if self.has_end {
                make_packet(self.serial, self.sequence, LAST, &[], space);
                self.has_end = false;
                return true;
            } else {
                return false;
            }
        }
        true
    }
}

/// The first page of a new stream.
fn first_run(stream: &NewStream) -> RunPages<'_, Listed<u8>>
    requires short { header_bytes stream.now ≤ longest_batch }
    requires few { length stream.now.headers ≤ most_headers }
    ensures { result ≡ first_pages stream.entry.now }
{
    let (first, _) = split_headers(stream.headers.as_slice());
    RunPages::of(stream.serial, 0, FIRST, first)
}

/// The pages of a new stream's other headers.
fn other_run(stream: &NewStream) -> RunPages<'_, Listed<u8>>
    requires short { header_bytes stream.now ≤ longest_batch }
    requires few { length stream.now.headers ≤ most_headers }
    ensures { result ≡ header_pages stream.entry.now }
{
    let (_, others) = split_headers(stream.headers.as_slice());
    RunPages::of(stream.serial, 1, 0, others)
}

/// Makes the page of a fisbone in the space.
fn make_fisbone<S: PageSpace>(serial: u32, sequence: u32, stream: &NewStream, space: &mut S)
    requires few { length stream.now.headers ≤ most_headers }
    requires message { has_long_message stream.now ≡ false }
    requires room { NextFits S.fits space.old (pages_of_run serial sequence (header (fisbone_packet stream.now) ∷ [])) }
    ensures { NextMade S.has_made space.old
        (pages_of_run serial sequence (header (fisbone_packet stream.now) ∷ [])) true [] space.new }
{
    let fisbone = fisbone_of(stream).packet_with(stream.fields.as_slice());
    make_packet(serial, sequence, 0, fisbone.as_slice(), space);
}

/// Makes the page of a packet at position 0 in the space.
fn make_packet<S: PageSpace>(serial: u32, sequence: u32, flags: u8, packet: &[u8], space: &mut S)
    requires short { length packet.now ≤ longest_whole }
    requires flags { flags < 255 }
    requires room { NextFits S.fits space.old (flagged flags (pages_of_run serial sequence (header packet.now ∷ []))) }
    ensures { NextMade S.has_made space.old
        (flagged flags (pages_of_run serial sequence (header packet.now ∷ []))) true [] space.new }
{
    let run = [Item {
        packet,
        position: 0,
    }];
    let mut page = RunPages::of(serial, sequence, flags, &run);
    page.next(space);
}
