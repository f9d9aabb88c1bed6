//! An input, cut into lines as it comes.
ghost use Rattle.std.specs.Prelude.{◌≡◌, ◌≢◌, ◌<◌, ◌≤◌, ◌++◌, ◌+◌, ◌-◌, ◌^◌, [], IfOk, IfSome, IfNone, OnOk, List, ℕ, length, min, max, Some, None};
ghost use Rattle.line_packets.specs.Begin.{BeginsAt};
ghost use Rattle.line_packets.specs.Lines.{HasNoFeed, IsFirstFeed, SplitsLine, short};
ghost use Rattle.line_packets.specs.Taking.{EndsLine, HasTaken};

use crate::Memory;
use crate::front::Front;
use crate::placing::{LeftOut, put_line};
use crate::streams::Streams;
use ogg_command::{Begin, Entry};
use std::alloc::Global;

/// The greatest position of a packet.
const LAST_POSITION: u64 = 9_223_372_036_854_775_807;

/// What was taken of a piece of the input.
#[derive(Clone, Copy, Debug)]
pub struct Taken<'a> {
    /// What is left of the piece.
    pub rest: &'a [u8],
    /// How many lines have ended in it so far.
    pub lines: u64,
    /// Why the last of these lines is left out, if it is. None of the others is.
    pub left: Option<LeftOut>,
}

/// An input that comes in pieces, as lines.
#[derive(Drop)]
pub struct Lines {
    pub(crate) front: Front,
    pub(crate) streams: Streams,
    // the position of the last line
    pub(crate) last: u64,
}

/// Where the first line feed stands.
fn first_feed(piece: &[u8]) -> Option<usize>
    ensures some { IfSome result (IsFirstFeed piece.now) }
    ensures none { IfNone result (HasNoFeed piece.now) }
{
    for (at, byte) in piece.iter().enumerate() {
        if *byte == b'\n' {
            return Some(at);
        }
    }
    None
}

/// What stands before the first line feed, and what follows it.
fn split_line(piece: &[u8]) -> Option<(&[u8], &[u8])>
    ensures some { IfSome result (λ (line, rest). SplitsLine piece.now line.now rest.now) }
    ensures none { IfNone result (HasNoFeed piece.now) }
{
    match first_feed(piece) {
        Some(at) => Some((&piece[..at], &piece[at + 1..])),
        None => None,
    }
}

/// A line ends with this piece: its entry is appended, or it is said why it has none.
fn end_line(
    front: &mut Front,
    streams: &Streams,
    piece: &[u8],
    position: u64,
    entries: &mut Vec<Entry>,
) -> Result<Option<LeftOut>, Memory>
    requires { length piece.now < 2 ^ 62 }
    ensures { (line : List ℕ) → front.old ≡ short line → IfOk result (λ left.
        EndsLine streams.now position (line ++ piece.now) entries.old.items entries.new.items left front.new) }
{
    if front.is_empty() {
        return put_line(streams, piece, position, entries);
    }
    front.join(piece)?;
    let left = match front.bytes() {
        Some(line) => put_line(streams, line, position, entries)?,
        None => Some(LeftOut::TooLong),
    };
    front.end();
    Ok(left)
}

/// Takes lines of a piece of the input, as many as end in it, but no further one once so many entries stand in the
/// vector, or one is left out.
fn take_lines<'a>(
    front: &mut Front,
    streams: &Streams,
    piece: &'a [u8],
    position: u64,
    most: usize,
    entries: &mut Vec<Entry>,
) -> Result<Taken<'a>, Memory>
    requires { length piece.now < 2 ^ 62 }
    ensures { (line : List ℕ) → front.old ≡ short line → IfOk result (λ taken.
        HasTaken streams.now position line piece.now entries.old.items entries.new.items taken front.new) }
{
    let mut rest = piece;
    let mut lines: u64 = 0;
    while let Some((line, after)) = split_line(rest) {
        let left = end_line(front, streams, line, position, entries)?;
        rest = after;
        lines += 1;
        if left.is_some() || entries.len() >= most {
            return Ok(Taken { rest, lines, left });
        }
    }
    front.join(rest)?;
    Ok(Taken {
        rest: &[],
        lines,
        left: None,
    })
}

impl Lines {
    /// Nothing has come yet of lines that go to these streams. It takes no memory.
    pub fn new(alloc: Global, streams: Streams) -> Lines
        ensures front { result.front ≡ short [] }
        ensures streams { result.streams ≡ streams }
        ensures last { result.last ≡ 0 }
    {
        Lines {
            front: Front::new(alloc),
            streams,
            last: 0,
        }
    }

    /// What begins the link of its streams at this time, in milliseconds since 1970.
    pub fn begin(&self, alloc: Global, media: &[u8], time: u64) -> Result<Begin, Memory>
        ensures { IfOk result (BeginsAt time media.now self.now.streams) }
    {
        self.streams.begin(alloc, media, time)
    }

    /// The position of what comes at this time, in milliseconds since 1970: never less than the one before.
    fn position_at(&mut self, time: u64) -> u64
        ensures value { result ≡ max self.old.last (min time 9223372036854775807) }
        ensures same { self.new ≡ record self.old { last = result } }
    {
        self.last = self.last.max(time.min(LAST_POSITION));
        self.last
    }

    /// Takes lines of a piece of the input that has come at this time, in milliseconds since 1970, and appends the entry of
    /// each: as many as end in the piece, but no further one once `most` entries stand in the vector, or one is left out.
    /// Take the rest of the piece before the next piece. Take no further one after `Memory`.
    pub fn take<'a>(
        &mut self,
        piece: &'a [u8],
        time: u64,
        most: usize,
        entries: &mut Vec<Entry>,
    ) -> Result<Taken<'a>, Memory>
        requires { length piece.now < 2 ^ 62 }
        ensures taken { (line : List ℕ) → self.old.front ≡ short line → IfOk result (λ taken.
            HasTaken self.old.streams self.new.last line piece.now entries.old.items entries.new.items taken self.new.front) }
        ensures position { self.new.last ≡ max self.old.last (min time 9223372036854775807) }
        ensures streams { self.new.streams ≡ self.old.streams }
    {
        let position = self.position_at(time);
        take_lines(
            &mut self.front,
            &self.streams,
            piece,
            position,
            most,
            entries,
        )
    }

    /// The input has ended at this time: what has come of a line without a line feed is the last line, unless nothing has.
    /// Returns how many lines that is, and why it is left out, if it is. A second call takes nothing.
    pub fn finish(
        &mut self,
        time: u64,
        entries: &mut Vec<Entry>,
    ) -> Result<(u64, Option<LeftOut>), Memory>
        ensures none { self.old.front ≡ short [] → (IfOk result (λ (lines, left). (lines ≡ 0) × (left ≡ None)))
            × (entries.new.items ≡ entries.old.items) × (self.new.front ≡ short []) }
        ensures last { (line : List ℕ) → line ≢ [] → self.old.front ≡ short line → IfOk result (λ (lines, left). (lines ≡ 1)
            × EndsLine self.old.streams self.new.last line entries.old.items entries.new.items left self.new.front) }
        ensures position { self.new.last ≡ max self.old.last (min time 9223372036854775807) }
        ensures streams { self.new.streams ≡ self.old.streams }
    {
        let position = self.position_at(time);
        if self.front.is_empty() {
            return Ok((0, None));
        }
        let left = end_line(&mut self.front, &self.streams, &[], position, entries)?;
        Ok((1, left))
    }
}
