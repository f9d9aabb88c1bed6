//! The lines of an input, as the pages of a bitstream.
ghost use Rattle.std.specs.Prelude.{◌≡◌, ◌<◌, ◌^◌, ◌++◌, ◌∷◌, [], List, ℕ, max, min, IfOk, OnOk, length, false, true, MatchResult, Ok, Err};
ghost use Rattle.ogg_page.specs.Page.{Page};
ghost use Rattle.ogg_command.specs.Command.{IsCommand};
ghost use Rattle.ogg_command.specs.declared.command.Entry.{Entry as EntryOf};
ghost use Rattle.link_chain.specs.ChainState.{chain_state_of};
ghost use Rattle.line_packets.specs.Bitstream.{Adds};
ghost use Rattle.line_packets.specs.declared.pages.LinePages.{LinePages as LinePagesOf};
ghost use Rattle.line_packets.specs.Pages.{HasEnded, HasPut, Stands, Taken as TakenOf, put_of};

use crate::Memory;
use crate::bitstream::Bitstream;
use crate::lines::{Lines, Taken};
use crate::placing::LeftOut;
use crate::streams::Streams;
use chain_rules::commands_add_their_packets;
use ogg_command::{Command, Entry, Listed, Put, Refusal, command_is_in_range};
use std::alloc::Global;

/// Why no more lines are taken.
#[derive(Clone, Copy, Debug, PartialEq, Eq)]
pub enum LineFault {
    /// Memory was refused.
    Memory,
    /// The packets of lines are refused.
    Refused(Refusal),
}

/// The lines of an input as it comes, and the bitstream of their packets. Its one link begins with the first of them.
#[derive(Drop)]
pub struct LinePages {
    pub(crate) lines: Lines,
    pub(crate) bitstream: Bitstream,
    // the link has begun
    pub(crate) has_begun: bool,
}

/// The put of these entries.
fn put_of(entries: Vec<Entry>) -> Command
    ensures { result ≡ put_of entries.items }
{
    let entries = Listed::of(entries);
    Command::Put(Put { entries })
}

impl LinePages {
    /// Nothing has come yet of lines that go to these streams. It takes no memory.
    pub fn new(alloc: Global, streams: Streams) -> LinePages
        ensures stands { (media : List ℕ) → Stands media result [] [] [] [] }
        ensures streams { result.lines.streams ≡ streams }
    {
        LinePages {
            lines: Lines::new(alloc, streams),
            bitstream: Bitstream::new(alloc),
            has_begun: false,
        }
    }

    /// Appends the pages of a command.
    fn add(&mut self, command: &Command, pages: &mut Vec<u8>) -> Result<(), LineFault>
        ensures ok { OnOk result ((links : List (List Page)) → self.old.bitstream.shape.chain ≡ chain_state_of links
            → Adds links command.now pages.old.items pages.new.items self.new.bitstream.shape.chain) }
        ensures fits { IsCommand command.now }
        ensures same { self.new ≡ record self.old { bitstream = self.new.bitstream } }
    {
        command_is_in_range(command);
        match self.bitstream.add(command, pages) {
            Ok(()) => Ok(()),
            Err(refusal) => Err(LineFault::Refused(refusal)),
        }
    }

    /// Begins the link at this time, unless it has begun.
    fn begin(&mut self, media: &[u8], time: u64, pages: &mut Vec<u8>) -> Result<(), LineFault>
        ensures begun { OnOk result (self.new.has_begun ≡ true) }
        ensures put { (entries : List EntryOf) (before : List ℕ)
            → HasPut media.now self.old.lines.streams self.old.has_begun self.old.bitstream.shape.chain entries before
            → OnOk result ((more : List ℕ) × (pages.new.items ≡ pages.old.items ++ more)
            × HasPut media.now self.new.lines.streams self.new.has_begun self.new.bitstream.shape.chain entries (before ++ more)) }
        ensures same { self.new.lines ≡ self.old.lines }
    {
        if self.has_begun {
            return Ok(());
        }
        self.has_begun = true;
        let alloc = *pages.allocator();
        match self.lines.begin(alloc, media, time) {
            Ok(begin) => self.add(&Command::Begin(begin), pages),
            Err(Memory) => Err(LineFault::Memory),
        }
    }

    /// Puts these entries, if there are any. The link begins with the first.
    fn put(
        &mut self,
        entries: Vec<Entry>,
        media: &[u8],
        time: u64,
        pages: &mut Vec<u8>,
    ) -> Result<(), LineFault>
        ensures put { (before : List EntryOf) (bytes : List ℕ)
            → HasPut media.now self.old.lines.streams self.old.has_begun self.old.bitstream.shape.chain before bytes
            → OnOk result ((more : List ℕ) × (pages.new.items ≡ pages.old.items ++ more)
            × HasPut media.now self.new.lines.streams self.new.has_begun self.new.bitstream.shape.chain (before ++ entries.items) (bytes ++ more)) }
        ensures same { self.new.lines ≡ self.old.lines }
    {
        if entries.is_empty() {
            return Ok(());
        }
        self.begin(media, time, pages)?;
        self.add(&put_of(entries), pages)
    }

    /// Takes lines of a piece of the input that has come at this time, in milliseconds since 1970, and appends the pages of
    /// their packets: as many lines as end in the piece, but no further one once `most` have a packet, or one is left out.
    /// The first begins the link, which tells this media type. Take the rest of the piece before the next piece. Take no
    /// further one after a fault.
    pub fn take<'a>(
        &mut self,
        piece: &'a [u8],
        time: u64,
        most: usize,
        media: &[u8],
        pages: &mut Vec<u8>,
    ) -> Result<Taken<'a>, LineFault>
        requires { length piece.now < 2 ^ 62 }
        // Their packets have this time as position, or that of the line before, if it is later.
        ensures stands { (input before : List ℕ) (taken : List TakenOf) → Stands media.now self.old input taken piece.now before → IfOk result (λ took.
            (more : List ℕ) × (done : List (List ℕ)) × (pages.new.items ≡ pages.old.items ++ more)
            × Stands media.now self.new input (taken ++ (self.new.lines.last, done) ∷ []) took.rest.now (before ++ more)) }
        ensures position { OnOk result (self.new.lines.last ≡ max self.old.lines.last (min time 9223372036854775807)) }
        ensures streams { self.new.lines.streams ≡ self.old.lines.streams }
    {
        let mut entries = Vec::new(*pages.allocator());
        match self.lines.take(piece, time, most, &mut entries) {
            Ok(taken) => {
                self.put(entries, media, time, pages)?;
                Ok(taken)
            }
            Err(Memory) => Err(LineFault::Memory),
        }
    }

    /// The input has ended at this time: what has come of a line without a line feed is the last line, unless nothing has.
    /// Appends the pages of its packet, and returns how many lines that is, and why it is left out, if it is.
    pub fn finish(
        &mut self,
        time: u64,
        media: &[u8],
        pages: &mut Vec<u8>,
    ) -> Result<(u64, Option<LeftOut>), LineFault>
        ensures ended { (input before : List ℕ) (taken : List TakenOf) → Stands media.now self.old input taken [] before → OnOk result
            ((more : List ℕ) × (done : List (List ℕ)) × (pages.new.items ≡ pages.old.items ++ more)
            × HasEnded media.now self.old.lines.streams input (taken ++ (self.new.lines.last, done) ∷ []) (before ++ more)) }
        ensures position { OnOk result (self.new.lines.last ≡ max self.old.lines.last (min time 9223372036854775807)) }
    {
        commands_add_their_packets();
        let mut entries = Vec::new(*pages.allocator());
        match self.lines.finish(time, &mut entries) {
            Ok(last) => {
                self.put(entries, media, time, pages)?;
                Ok(last)
            }
            Err(Memory) => Err(LineFault::Memory),
        }
    }
}

/// The next piece of an input has come, of which all was taken.
pub fn inputs_go_on()
    ensures { (media : List ℕ) (run : LinePagesOf) (input piece pages : List ℕ) (taken : List TakenOf) → Stands media run input taken [] pages
        → Stands media run (input ++ piece) taken piece pages }
{}
