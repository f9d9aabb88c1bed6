//! Pages gathered into commands, which are changed as asked.
ghost use Rattle.std.specs.Prelude.{◌≡◌, ◌+◌, ◌-◌, ◌<◌, ◌^◌, [], min, ℕ, List, IfOk, IfErr, OnOk, OnErr};
ghost use Rattle.ogg_page.specs.Page.{Page as PageValue, page_size};
ghost use Rattle.link_chain.specs.Taking.{unfinished_stream};
ghost use Rattle.import_gather.specs.Gathered.{CanGoOn};
ghost use Rattle.import_feed.specs.Turn.{RefusesPage};
ghost use Rattle.import_feed.specs.Source.{Gathers, GathersRest, GoesFurther, HasSourced, TakesIn, gathered_of};

use crate::fault::MakingFault;
use import_changes::{ChangeOptions, Changes, NO_UTC};
use import_gather::{GatherFault, Gatherer, links_are_begun_without_a_skeleton};
use ogg_command::Command;
use ogg_page::Page;
use std::alloc::Global;
use std::marker::Model;

/// What is gathered of the pages so far, and what their commands are changed by.
#[derive(Drop)]
pub(crate) struct Source {
    alloc: Global,
    gatherer: Gatherer,
    changes: Changes,
}

impl Model for Source {
    ghost use Rattle.import_feed.specs.Source.{Sourced};

    ghost Value = { Sourced };

    ghost view = { λ s. record { chain = s.gatherer.chain; link = s.gatherer.link; refused = s.gatherer.refused; changes = s.changes } };
}

impl Source {
    pub(crate) fn new(alloc: Global, options: ChangeOptions) -> Source
        ensures sourced { HasSourced options [] result [] }
        ensures goes { GoesFurther result }
    {
        Source {
            alloc,
            gatherer: Gatherer::new(alloc),
            changes: Changes::new(alloc, options),
        }
    }

    /// Takes a page that begins at `at` and ends at `behind`, and returns the commands that it completes. After
    /// `Memory` what is gathered is lost.
    pub(crate) fn take_page(
        &mut self,
        page: &Page<'_>,
        at: u64,
        behind: u64,
    ) -> Result<Vec<Command>, MakingFault>
        requires place { self.old.chain.length_of ≡ at }
        requires behind { behind ≡ min (at + page_size page.now) (2 ^ 64 - 1) }
        ensures ok { IfOk result (λ commands. Gathers self.old page.now self.new [] commands.items) }
        ensures short { OnOk result (at + page_size page.now < 2 ^ 63) }
        ensures err { IfErr result (RefusesPage (gathered_of self.old) page.now at (self.new ≡ self.old)) }
    {
        let mut commands = Vec::new(self.alloc);
        match take_in(&mut self.gatherer, page, at, behind, &mut commands) {
            Ok(()) => {}
            Err(fault) => return Err(fault),
        }
        let now = match self.changes.apply(commands, NO_UTC) {
            Ok(now) => now,
            Err(_) => return Err(MakingFault::Memory),
        };
        Ok(now)
    }

    /// The commands that still wait. The only fault is `Memory`, and then they are lost.
    pub(crate) fn end(&mut self) -> Result<Vec<Command>, MakingFault>
        ensures ok { IfOk result (λ commands. GathersRest self.old self.new commands.items) }
    {
        // For the proof alone.
        links_are_begun_without_a_skeleton();
        let mut commands = Vec::new(self.alloc);
        match self.gatherer.end(&mut commands) {
            Ok(()) => {}
            Err(_) => return Err(MakingFault::Memory),
        }
        let now = match self.changes.apply(commands, NO_UTC) {
            Ok(now) => now,
            Err(_) => return Err(MakingFault::Memory),
        };
        Ok(now)
    }

    /// The serial of the first stream of the last link whose last packet is unfinished.
    pub(crate) fn unfinished(&self) -> Option<u32>
        ensures { result ≡ unfinished_stream self.now.chain }
    {
        self.gatherer.unfinished()
    }
}

/// Takes a page that begins at `at` and ends at `behind`. The commands that it completes are appended. After `Memory`
/// what is gathered is lost.
fn take_in(
    gatherer: &mut Gatherer,
    page: &Page<'_>,
    at: u64,
    behind: u64,
    commands: &mut Vec<Command>,
) -> Result<(), MakingFault>
    requires place { gatherer.old.chain.length_of ≡ at }
    requires behind { behind ≡ min (at + page_size page.now) (2 ^ 64 - 1) }
    ensures ok { OnOk result (TakesIn gatherer.old page.now gatherer.new commands.old.items commands.new.items
        × (at + page_size page.now < 2 ^ 63)) }
    ensures err { IfErr result (RefusesPage gatherer.old page.now at (gatherer.new ≡ gatherer.old)) }
{
    // For the proof alone.
    links_are_begun_without_a_skeleton();
    if behind >= 1 << 63 {
        return Err(MakingFault::TooLong(at));
    }
    match gatherer.take_page(page, commands) {
        Ok(()) => Ok(()),
        Err(GatherFault::Chain(fault)) => Err(MakingFault::Chain(at, fault)),
        Err(GatherFault::PacketTooLong) => Err(MakingFault::PacketTooLong(at)),
        Err(GatherFault::Memory) => Err(MakingFault::Memory),
    }
}
