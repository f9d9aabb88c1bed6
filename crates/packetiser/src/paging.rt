//! The pages of a run, one at a time.
ghost use Rattle.std.specs.Prelude.{◌≡◌, ◌≤◌, ◌<◌, ◌+◌, ◌++◌, ◌^◌, ℕ, List, [], length, map, take, drop};
ghost use Rattle.ogg_page.specs.Page.{page_size};
ghost use Rattle.ogg_page.specs.declared.head.PageHead.{PageHead as HeadOf};
ghost use Rattle.packetiser.specs.Run.{pages_for, run_lacing, pages_of_run, flagged, lengths};
ghost use Rattle.packetiser.specs.Place.{bytes_left, next_page, added, IsWithin, IsBehind};
ghost use Rattle.packetiser.specs.PageSpace.{NextFits, NextMade};

use crate::item::TimedPacket;
use crate::place::fill;
use crate::size::{pages_of, values_and_bytes};
use crate::space::PageSpace;
use ogg_page::{FIXED_SIZE, MOST_VALUES, PageHead};
use std::marker::Model;

/// The pages of a run that are still to come. They are made one at a time, in the caller's space.
#[derive(Drop)]
pub struct RunPages<'a, T: TimedPacket> {
    run: &'a [T],
    serial: u32,
    first_sequence: u32,
    flags: u8,
    count: u64,
    next: u64,
    ended: usize,
    done: usize,
}

impl<'a, T: TimedPacket> Model for RunPages<'a, T> {
    ghost use Rattle.std.specs.Prelude.{List, map};
    ghost use Rattle.ogg_page.specs.Page.{Page};
    ghost use Rattle.packetiser.specs.RunPages.{IsBeforePage, pages_from};

    ghost Value = { List Page };

    ghost view = { λ p. pages_from p.next p.serial p.first_sequence p.flags (map T.timed p.run.now) };

    ghost invariant = { λ p. IsBeforePage (map T.timed p.run.now) p.next p.ended p.done p.first_sequence p.flags p.count };
}

impl<'a, T: TimedPacket> RunPages<'a, T> {
    /// The pages of a run, as [`lay_run`](crate::lay_run) appends them. `flags` are added to those of
    /// the first page. It takes no memory.
    pub fn of(serial: u32, first_sequence: u32, flags: u8, run: &'a [T]) -> RunPages<'a, T>
        requires lengths { lengths (map T.timed run.now) + length run.now ≤ 2 ^ 62 }
        requires numbers { first_sequence + pages_for (length (run_lacing (map T.timed run.now))) ≤ 2 ^ 32 }
        requires flags { flags < 255 }
        ensures { result ≡ flagged flags (pages_of_run serial first_sequence (map T.timed run.entry.now)) }
    {
        let (values, _) = values_and_bytes(run);
        RunPages::counted(serial, first_sequence, flags, run, pages_of(values))
    }

    /// The pages of a run, of which there are `count`.
    pub(crate) fn counted(
        serial: u32,
        first_sequence: u32,
        flags: u8,
        run: &'a [T],
        count: u64,
    ) -> RunPages<'a, T>
        requires count { count ≡ pages_for (length (run_lacing (map T.timed run.now))) }
        requires numbers { first_sequence + count ≤ 2 ^ 32 }
        requires flags { flags < 255 }
        ensures { result ≡ flagged flags (pages_of_run serial first_sequence (map T.timed run.entry.now)) }
    {
        RunPages {
            run,
            serial,
            first_sequence,
            flags,
            count,
            next: 0,
            ended: 0,
            done: 0,
        }
    }

    /// No pages.
    pub fn none() -> RunPages<'a, T>
        ensures { result ≡ [] }
    {
        RunPages::of(0, 0, 0, &[])
    }

    /// How many pages are still to come.
    pub fn left(&self) -> u64
        ensures value { result ≡ length self.now }
        ensures few { result ≤ 2 ^ 32 }
    {
        self.count - self.next
    }

    /// Makes the next page in the space, if one is still to come. It takes no memory.
    pub fn next<S: PageSpace>(&mut self, space: &mut S) -> bool
        requires { NextFits S.fits space.old self.old }
        ensures { NextMade S.has_made space.old self.old result self.new space.new }
    {
        if self.next == self.count {
            return false;
        }
        let flags = added_flags(self.flags, self.next);
        let sequence = (u64::from(self.first_sequence) + self.next) as u32;
        let (_, rest) = self.run.split_at(self.ended);
        let (ended, done) = make_page(self.serial, sequence, flags, rest, self.done, space);
        self.ended += ended;
        self.done = done;
        self.next += 1;
        true
    }
}

/// The flags that are added to page `k`: only the first page has any.
fn added_flags(flags: u8, k: u64) -> u8
    requires { flags < 255 }
    ensures value { result ≡ added flags k }
    ensures few { result < 255 }
{
    if k == 0 { flags } else { 0 }
}

/// Makes the next page of a run of which these packets are left. It returns how many of them end in the page, and how
/// many bytes of the packet after these lie in the page and those before it.
fn make_page<T: TimedPacket, S: PageSpace>(
    serial: u32,
    sequence: u32,
    flags: u8,
    from: &[T],
    begun: usize,
    space: &mut S,
) -> (usize, usize)
    requires within { IsWithin begun (map T.timed from.now) }
    requires flags { flags < 255 }
    requires room { S.fits space.old (page_size (next_page serial sequence flags begun (map T.timed from.now))) }
    ensures page { S.has_made space.old (next_page serial sequence flags begun (map T.timed from.now)) space.new }
    ensures few { result.0 ≤ length from.now }
    ensures behind { IsBehind begun (map T.timed from.now) result.1 (drop result.0 (map T.timed from.now)) }
{
    let mut lacing = [0; MOST_VALUES];
    let page = fill(from, begun, &mut lacing);
    let (lacing, _) = lacing.split_at(page.count);
    let head = PageHead {
        flags: u8::from(begun > 0) + flags,
        position: page.position,
        serial,
        sequence,
    };
    space.begin_page(&head, lacing);
    put_bytes(from, begun, page.size, space);
    space.end_page(&head, FIXED_SIZE + page.count + page.size);
    (from.len() - page.rest.len(), page.done)
}

/// Puts the first `size` bytes of what is left of a run, of whose first packet `begun` bytes are done.
fn put_bytes<T: TimedPacket, S: PageSpace>(from: &[T], begun: usize, size: usize, space: &mut S)
    requires within { IsWithin begun (map T.timed from.now) }
    requires enough { size ≤ length (bytes_left begun (map T.timed from.now)) }
    requires room { S.free space.old size }
    ensures { (before : S) (head : HeadOf) (lacing body : List ℕ) → S.in_work before head lacing body space.old
        → S.in_work before head lacing (body ++ take size (bytes_left begun (map T.timed from.now))) space.new }
{
    let mut rest = from;
    let mut done = begun;
    let mut left = size;
    while left > 0 {
        let Some((item, others)) = rest.split_first() else {
            return;
        };
        let packet = item.packet().split_at(done).1;
        let piece = packet.split_at(packet.len().min(left)).0;
        space.put(piece);
        left -= piece.len();
        rest = others;
        done = 0;
    }
}
