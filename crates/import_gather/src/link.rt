//! What is kept of the last link.
ghost use Rattle.std.specs.Prelude.{◌≡◌, ◌<◌, ◌^◌, ◌++◌, ◌∷◌, [], true, false, List, OnOk, OnErr, length, map};
ghost use Rattle.ogg_command.specs.declared.command.Command.{Command as CommandOf};

use crate::cutting::first_size;
use crate::giving::{push_begin, push_end, push_ends, push_put, push_serial};
use crate::grower::Grower;
use crate::kept::Kept;
use crate::limits::LONGEST_PACKET;
use crate::streams::{drop_rest, is_ready, rest_len, take_page};
use ogg_command::{Command, Listed, Memory};
use ogg_page::Page;
use std::alloc::Global;
use std::marker::Model;

/// What is kept of the last link.
#[derive(Debug, Drop)]
pub struct LastLink {
    streams: Vec<Kept>,
    begun: bool,
    // the streams of a waiting link that have ended
    ends: Vec<u32>,
}

impl Model for LastLink {
    ghost use Rattle.import_gather.specs.Kept.{KeptLink};

    ghost Value = { KeptLink };

    ghost view = { λ l. record { streams = l.streams.items; begun = l.begun; ends = l.ends.items } };
}

impl LastLink {
    ghost use Rattle.import_gather.specs.Kept.{has_kept, is_too_long, no_link, rest_of, waits, without_rest};
    ghost use Rattle.import_gather.specs.Giving.{Follows, PassesOn, TakesOn, begin_if, begun_if, begun_link, link_begin, with_first};
    ghost use Rattle.import_gather.specs.Refusals.{IsNoted};

    /// There is no link yet.
    pub fn new(alloc: Global) -> LastLink
        ensures { result ≡ no_link }
    {
        LastLink {
            streams: Vec::new(alloc),
            begun: false,
            ends: Vec::new(alloc),
        }
    }

    /// Whether a packet is too long with the page.
    pub fn is_too_long(&self, page: &Page<'_>) -> bool
        ensures { result ≡ is_too_long self.now page.now }
    {
        !page.is_first()
            && rest_len(self.streams.as_slice(), page.serial()) > LONGEST_PACKET - first_size(page)
    }

    /// How many bytes of an unfinished packet are kept for the stream with this serial.
    pub fn rest_len(&self, serial: u32) -> usize
        ensures value { result ≡ length (rest_of serial self.now.streams) }
        ensures bound { result < 2 ^ 63 }
    {
        rest_len(self.streams.as_slice(), serial)
    }

    /// Drops the unfinished packet of the stream with this serial.
    pub fn drop_rest(&mut self, serial: u32)
        ensures { self.new ≡ record self.old { streams = map (without_rest serial) self.old.streams } }
    {
        drop_rest(self.streams.as_mut_slice(), serial);
    }

    /// Appends the `Begin` and the ends that wait for it. After `Memory` what is kept may be lost.
    fn give(&mut self, grower: &mut Grower, commands: &mut Vec<Command>) -> Result<(), Memory>
        ensures ok { OnOk result (commands.new.items ≡ commands.old.items ++ link_begin self.old) }
        ensures after { OnOk result (self.new ≡ begun_link self.old) }
        ensures more { (given : List CommandOf) × (commands.new.items ≡ commands.old.items ++ given) }
        ensures noted { IsNoted result grower.old grower.new }
    {
        push_begin(grower, self.streams.as_mut_slice(), commands)?;
        push_ends(grower, self.ends.as_slice(), commands)?;
        self.begun = true;
        self.ends.clear();
        Ok(())
    }

    /// Appends the commands that wait. After `Memory`, which comes only if there are some, what is kept may be lost.
    pub fn give_waiting(
        &mut self,
        grower: &mut Grower,
        commands: &mut Vec<Command>,
    ) -> Result<(), Memory>
        ensures ok { OnOk result (commands.new.items ≡ commands.old.items ++ begin_if (waits self.old) self.old) }
        ensures after { OnOk result (self.new ≡ begun_if (waits self.old) self.old) }
        ensures more { (given : List CommandOf) × (commands.new.items ≡ commands.old.items ++ given) }
        ensures none { OnErr result (waits self.old ≡ true) }
        ensures noted { IsNoted result grower.old grower.new }
    {
        if !self.begun && !self.streams.is_empty() {
            self.give(grower, commands)?;
        }
        Ok(())
    }

    /// A new link, without streams yet.
    fn open(&mut self)
        ensures { self.new ≡ no_link }
    {
        self.streams.clear();
        self.ends.clear();
        self.begun = false;
    }

    /// Adds the stream of a first page.
    fn enter(&mut self, grower: &mut Grower, page: &Page<'_>) -> Result<(), Memory>
        ensures after { OnOk result (self.new ≡ with_first page.now self.old) }
        ensures noted { IsNoted result grower.old grower.new }
    {
        let stream = Kept::enter(grower, page)?;
        grower.push(&mut self.streams, stream)?;
        push_serial(grower, page, &mut self.ends)
    }

    /// Takes a page, and appends the commands that it completes; `is_open` says whether the last link is open. After
    /// `Memory` what is kept may be lost, and some of the commands may have been appended.
    pub fn take_page(
        &mut self,
        grower: &mut Grower,
        page: &Page<'_>,
        is_open: bool,
        commands: &mut Vec<Command>,
    ) -> Result<(), Memory>
        ensures ok { OnOk result ((given : List CommandOf) × (commands.new.items ≡ commands.old.items ++ given)
            × TakesOn page.now is_open self.old self.new given) }
        ensures more { (given : List CommandOf) × (commands.new.items ≡ commands.old.items ++ given) }
        ensures noted { IsNoted result grower.old grower.new }
    {
        if !page.is_first() {
            self.follow(grower, page, commands)?;
            return Ok(());
        }
        if !is_open {
            self.give_waiting(grower, commands)?;
            self.open();
        }
        self.enter(grower, page)
    }

    /// Takes a page that isn't its stream's first, and appends the commands that it completes. After `Memory` what is
    /// kept may be lost, and some of the commands may have been appended.
    fn follow(
        &mut self,
        grower: &mut Grower,
        page: &Page<'_>,
        commands: &mut Vec<Command>,
    ) -> Result<(), Memory>
        ensures ok { OnOk result ((given : List CommandOf) × (commands.new.items ≡ commands.old.items ++ given)
            × (has_kept page.now.serial self.old.streams ≡ true → Follows page.now self.old self.new given)) }
        ensures more { (given : List CommandOf) × (commands.new.items ≡ commands.old.items ++ given) }
        ensures noted { IsNoted result grower.old grower.new }
    {
        let later = take_page(grower, self.streams.as_mut_slice(), page, self.begun)?;
        self.pass_on(grower, page, later, commands)?;
        Ok(())
    }

    /// Gives out the packets that aren't kept, and before them the link's `Begin`, if it begins now.
    fn pass_on(
        &mut self,
        grower: &mut Grower,
        page: &Page<'_>,
        later: Vec<Listed<u8>>,
        commands: &mut Vec<Command>,
    ) -> Result<(), Memory>
        ensures ok { OnOk result ((given : List CommandOf) × (commands.new.items ≡ commands.old.items ++ given)
            × PassesOn page.now self.old self.new later.items given) }
        ensures more { (given : List CommandOf) × (commands.new.items ≡ commands.old.items ++ given) }
        ensures noted { IsNoted result grower.old grower.new }
    {
        if !self.begun && (!later.is_empty() || is_ready(self.streams.as_slice())) {
            self.give(grower, commands)?;
        }
        push_put(grower, page, later, commands)?;
        if self.begun {
            push_end(grower, page, commands)
        } else {
            push_serial(grower, page, &mut self.ends)
        }
    }
}
