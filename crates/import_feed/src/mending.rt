//! Any bytes, mended into a feed step by step.
ghost use Rattle.std.specs.Prelude.{◌≡◌, [], ℕ, List, Option, IfOk, IfErr, OnOk, OnErr};
ghost use Rattle.import_mend.specs.declared.import.Import.{Import as ImportOf};
ghost use Rattle.import_changes.specs.declared.options.ChangeOptions.{ChangeOptions as OptionsOf};
ghost use Rattle.import_feed.specs.Mending.{ClosesMended, GivesMended, GivesNoMore, IsChangedAs, IsMendingStart, IsNextFault, StillMends, TakesStep, TurnsMended};

use crate::Memory;
use crate::fault::MakingFault;
use crate::giving::give;
use crate::made::Made;
use crate::telling::{Mends, tell_end, tell_step};
use import_changes::{ChangeOptions, Changes, NO_UTC};
use import_mend::{
    Import, ImportFault, Step, commands_begin_links_without_a_skeleton, commands_hold_sound_links,
};
use ogg_command::Command;
use std::alloc::Global;
use std::io::{Read, Take, Write};

/// What is imported so far, what its commands are changed by, and room for their records.
#[derive(Drop)]
pub(crate) struct Mending {
    alloc: Global,
    pub(crate) import: Import,
    pub(crate) changes: Changes,
    pub(crate) bytes: Vec<u8>,
    pub(crate) made: Made,
}

impl Mending {
    pub(crate) fn new(alloc: Global, options: ChangeOptions) -> Result<Mending, Memory>
        ensures ok { IfOk result (IsMendingStart options) }
        ensures err { OnErr result (IsChangedAs options [] []) }
    {
        let changes = Changes::new(alloc, options);
        let import = match Import::new(alloc) {
            Ok(import) => import,
            Err(refused) => return Err(refused),
        };
        Ok(Mending {
            alloc,
            import,
            changes,
            bytes: Vec::new(alloc),
            made: Made {
                pages: 0,
                commands: 0,
            },
        })
    }

    /// Reads up to the next page. Returns what was done, and the commands that the page completes.
    fn next<R: Read>(&mut self, reader: &mut Take<R>) -> Result<(Step, Vec<Command>), MakingFault>
        ensures ok { IfOk result (λ next. TakesStep self.old self.new next.0 next.1.items) }
        ensures err { IfErr result (λ fault. IsNextFault fault self.old.import self.new.import × (self.new.changes ≡ self.old.changes) × (self.new.made ≡ self.old.made)) }
    {
        let mut commands = Vec::new(self.alloc);
        match self.import.next(reader, &mut commands) {
            Ok(step) => Ok((step, commands)),
            // The reader began with a limit of `u64::MAX`, which each byte lowers by one.
            Err(ImportFault::Read) => Err(MakingFault::Read(u64::MAX - reader.limit())),
            Err(ImportFault::Memory) => Err(MakingFault::Memory),
        }
    }

    /// Changes commands as asked, and writes the records of what they become.
    fn give<W: Write>(&mut self, commands: Vec<Command>, writer: &mut W) -> Result<(), MakingFault>
        ensures ok { OnOk result (GivesMended self.old self.new commands.items (W.contents writer.old) (W.contents writer.new)) }
        ensures err { IfErr result (GivesNoMore self.old commands.items (W.contents writer.old) (W.contents writer.new)) }
    {
        let now = match self.changes.apply(commands, NO_UTC) {
            Ok(now) => now,
            Err(_) => return Err(MakingFault::Memory),
        };
        let count = now.len() as u64;
        match give(now.as_slice(), &mut self.bytes, writer) {
            Ok(()) => {
                self.made.commands = self.made.commands.saturating_add(count);
                Ok(())
            }
            Err(fault) => Err(fault),
        }
    }

    /// Takes the next step: tells what was mended, and writes what the page completes; false at the end of the input.
    pub(crate) fn turn<R: Read, W: Write, M: Mends>(
        &mut self,
        reader: &mut Take<R>,
        writer: &mut W,
        mends: &mut M,
    ) -> Result<bool, MakingFault>
        ensures { (options : OptionsOf) (before : Option (List ℕ)) (unaware : M)
            → StillMends M.tells options before (W.contents writer.old) unaware mends.old self.old.import self.old
            → TurnsMended M.tells options result before (W.contents writer.new) unaware mends.new self.new }
    {
        commands_begin_links_without_a_skeleton();
        let (step, commands) = match self.next(reader) {
            Ok(next) => next,
            Err(fault) => return Err(fault),
        };
        tell_step(mends, step, commands.as_slice());
        match self.give(commands, writer) {
            Ok(()) => {}
            Err(fault) => return Err(fault),
        }
        if step.is_page {
            self.made.pages = self.made.pages.saturating_add(1);
            return Ok(true);
        }
        Ok(false)
    }

    /// Finishes the import: tells what was mended at the end, and writes what still waited.
    pub(crate) fn close<W: Write, M: Mends>(
        &mut self,
        writer: &mut W,
        mends: &mut M,
    ) -> Result<(), MakingFault>
        ensures { (options : OptionsOf) (before : Option (List ℕ)) (unaware : M) (last : ImportOf)
            → (still : StillMends M.tells options before (W.contents writer.old) unaware mends.old last self.old)
            → ClosesMended M.tells options result before (W.contents writer.new) unaware mends.new still.steps self.old self.new }
    {
        commands_begin_links_without_a_skeleton();
        // For the proof alone.
        commands_hold_sound_links();
        let mut commands = Vec::new(self.alloc);
        let mend = match self.import.finish(&mut commands) {
            Ok(mend) => mend,
            Err(_) => return Err(MakingFault::Memory),
        };
        tell_end(mends, mend, commands.as_slice());
        self.give(commands, writer)
    }
}
