//! Pages of a reader, gathered into commands, one page after the other.
ghost use Rattle.std.specs.Prelude.{◌≡◌, ◌+◌, ◌-◌, ◌<◌, ◌^◌, [], min, ℕ, List, Option, IfOk, IfErr, OnOk, OnErr, true, Ok, Err, Bool};
ghost use Rattle.std.specs.Io.KnownBytes.{Appends};
ghost use Rattle.ogg_page.specs.Page.{Page as PageValue, page_size};
ghost use Rattle.ogg_command.specs.declared.command.Command.{Command as CommandOf};
ghost use Rattle.import_changes.specs.declared.options.ChangeOptions.{ChangeOptions as OptionsOf};
ghost use Rattle.import_feed.specs.Source.{HasSourced, Sourced};
ghost use Rattle.import_feed.specs.Feed.{GivesNot, Fits, records_of};
ghost use Rattle.import_feed.specs.Turn.{Closes, GoesOn, Gives, GivesNoFurther, HasMade, IsStarted, NextOf, Turns, fault_at};

use crate::Memory;
use crate::fault::MakingFault;
use crate::giving::give;
use crate::made::Made;
use crate::source::Source;
use import_changes::ChangeOptions;
use import_pages::{PageReader, PageReaderFault};
use ogg_command::Command;
use std::alloc::Global;
use std::io::{Read, Write};

/// The memory of one page, what is gathered of the pages so far, the commands that aren't written yet, and room for
/// their records.
#[derive(Drop)]
pub(crate) struct Maker {
    pub(crate) pages: PageReader,
    pub(crate) gatherer: Source,
    pub(crate) commands: Vec<Command>,
    pub(crate) bytes: Vec<u8>,
    pub(crate) made: Made,
}

impl Maker {
    pub(crate) fn new(alloc: Global, options: ChangeOptions) -> Result<Maker, Memory>
        ensures ok { IfOk result (IsStarted options) }
        ensures err { OnErr result ((sourced : Sourced) × HasSourced options [] sourced []) }
    {
        let gatherer = Source::new(alloc, options);
        let pages = PageReader::new(alloc)?;
        Ok(Maker {
            pages,
            gatherer,
            commands: Vec::new(alloc),
            bytes: Vec::new(alloc),
            made: Made {
                pages: 0,
                commands: 0,
            },
        })
    }

    /// Reads the next page and gathers its commands; false at the end of the input.
    fn next_page<R: Read>(&mut self, reader: &mut R) -> Result<bool, MakingFault>
        requires { GoesOn self.old }
        ensures { NextOf result self.old self.new (R.remaining reader.old) (R.remaining reader.new) }
    {
        match self.pages.advance(reader) {
            Ok(()) => {}
            Err(fault) => return Err(fault_at(self.pages.offset(), fault)),
        }
        let behind = self.pages.offset();
        match self.pages.lent() {
            Some((at, page)) => {
                match self.gatherer.take_page(&page, at, behind) {
                    Ok(commands) => {
                        self.commands = commands;
                        Ok(true)
                    }
                    Err(fault) => Err(fault),
                }
            }
            None => Ok(false),
        }
    }

    /// Writes the commands that were gathered.
    fn give<W: Write>(&mut self, writer: &mut W) -> Result<(), MakingFault>
        ensures ok { OnOk result (Gives self.old self.new (W.contents writer.old) (W.contents writer.new)) }
        ensures err { IfErr result (GivesNoFurther self.old self.new (W.contents writer.old) (W.contents writer.new)) }
    {
        let count = self.commands.len() as u64;
        match give(self.commands.as_slice(), &mut self.bytes, writer) {
            Ok(()) => {
                self.made.commands = self.made.commands.saturating_add(count);
                Ok(())
            }
            Err(fault) => Err(fault),
        }
    }

    /// Takes the next page, and writes the commands that it completes; false at the end of the input.
    pub(crate) fn turn<R: Read, W: Write>(
        &mut self,
        reader: &mut R,
        writer: &mut W,
    ) -> Result<bool, MakingFault>
        requires { GoesOn self.old }
        ensures made { (options : OptionsOf) (from before : Option (List ℕ)) (links : List (List PageValue)) (given : List CommandOf)
            → HasMade options from (R.remaining reader.old) before (W.contents writer.old) self.old links given
            → Turns options result from (R.remaining reader.new) before (W.contents writer.new) self.new }
        ensures goes { result ≡ Ok true → GoesOn self.new × (self.old.pages.offset < self.new.pages.offset) }
    {
        match self.next_page(reader) {
            Ok(true) => {}
            Ok(false) => return Ok(false),
            Err(fault) => return Err(fault),
        }
        match self.give(writer) {
            Ok(()) => {
                self.made.pages += 1;
                Ok(true)
            }
            Err(fault) => Err(fault),
        }
    }

    /// Writes the commands that still wait.
    pub(crate) fn close<W: Write>(&mut self, writer: &mut W) -> Result<(), MakingFault>
        ensures { Closes result self.old self.new (W.contents writer.old) (W.contents writer.new) }
    {
        match self.gatherer.end() {
            Ok(commands) => self.commands = commands,
            Err(_) => return Err(MakingFault::Memory),
        }
        self.give(writer)
    }
}

/// A fault of the reader of pages, which stands at this offset.
fn fault_at(at: u64, fault: PageReaderFault) -> MakingFault
    ensures { result ≡ fault_at at fault }
{
    match fault {
        PageReaderFault::Page(fault) => MakingFault::Page(at, fault),
        PageReaderFault::Read => MakingFault::Read(at),
    }
}
