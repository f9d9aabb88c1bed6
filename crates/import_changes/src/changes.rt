//! Commands changed one after the other.
ghost use Rattle.std.specs.Prelude.{◌≡◌, ◌<◌, ◌≤◌, ◌+◌, ◌++◌, ◌∷◌, [], ℕ, List, true, false, map, Ok, Some, None, OnOk, OnErr, IfOk, length};
ghost use Rattle.std.specs.List.{AllByRecursion, list_any};
ghost use Rattle.ogg_command.specs.declared.command.Command.{Command as CommandOf};
ghost use Rattle.import_changes.specs.Changed.{HasChanged, HasChangedBeside, IsPlain, begins};
ghost use Rattle.import_changes.specs.Memory.{IsUnnamed, LacksMemory, LacksMemoryAmong, LacksMemoryFor};
ghost use Rattle.import_changes.specs.Naming.{entries_named, name_of};
ghost use Rattle.import_changes.specs.Options.{is_none};
ghost use Rattle.import_changes.specs.Steps.{BeginAt, option_list, put_at};

use crate::describing::{all_described, head_said};
use crate::naming::{free_serial, name_all, name_of};
use crate::options::ChangeOptions;
use crate::renaming::{entries_named, give_all, give_with, streams_named, take_all};
use crate::skeletons::{made_for, staying};
use link_chain::Serials;
use ogg_command::{Begin, Command, Listed, Memory, NewStream, Put, SkeletonHead};
use std::alloc::Global;
use std::marker::Model;
use std::mem;

/// The time of day in a fishead, if it isn't known.
pub const NO_UTC: [u8; 20] = [0; 20];

/// What is changed, and what must be known for that of the streams so far.
#[derive(Debug, Drop)]
pub struct Changes {
    alloc: Global,
    options: ChangeOptions,
    // the serials that were taken before, and those that streams have now
    given: Serials,
    // all serials below this one are among them
    low: u32,
    // of the last link: the serial that a stream had, and the one that it has now
    names: Vec<(u32, u32)>,
}

impl Model for Changes {
    ghost use Rattle.import_changes.specs.Changed.{ChangeState};
    ghost use Rattle.import_changes.specs.Naming.{IsLow};
    ghost use Rattle.std.specs.Prelude.{[], vec_capacity};

    ghost Value = { ChangeState };

    ghost view = { λ c. record {
      options = c.options;
      given = c.given.listed;
      names = c.names.items;
      room = c.given.room;
      name_room = vec_capacity c.names;
    } };

    ghost invariant = { λ c. IsLow c.given.listed [] c.low };
}

impl Changes {
    ghost use Rattle.std.specs.Map.{values_of};
    ghost use Rattle.import_changes.specs.Naming.{IsLow};
    ghost use Rattle.import_changes.specs.Steps.{AreNamedFor, Begins, BeginsDescribed, BeginsPlain, Names, end_of, put_of};

    /// No commands yet. No memory is taken.
    pub fn new(alloc: Global, options: ChangeOptions) -> Changes
        ensures changed { HasChanged result [] [] }
        ensures options { result.options ≡ options }
    {
        Changes {
            alloc,
            options,
            given: Serials::new(alloc),
            low: 0,
            names: Vec::new(alloc),
        }
    }

    /// Before the first command: no stream gets one of these serials, as those of the file that is recorded into. With
    /// `renumber` a stream that has one of them gets another; a Skeleton that is made never has one. After `Memory`,
    /// which comes only if there was no room for so many serials, all is as before but for the room.
    pub fn avoid(&mut self, serials: &[u32]) -> Result<(), Memory>
        ensures changed { OnOk result ((taken : List ℕ) → HasChangedBeside taken self.old [] []
            → HasChangedBeside (taken ++ serials.now) self.new [] []) }
        ensures options { self.new.options ≡ self.old.options }
        ensures err { OnErr result (self.new ≡ record self.old { room = self.new.room }) }
        ensures full { OnErr result (self.old.room < length serials.now) }
    {
        take_all(&mut self.given, serials)?;
        Ok(())
    }

    /// Names the streams of a new link that stay. Returns the serial below which all are taken then.
    fn name(&mut self, stay: &[NewStream]) -> Result<u32, Memory>
        ensures names { OnOk result (Names self.old self.new stay.now) }
        ensures low { IfOk result (IsLow self.new.given (values_of self.new.names)) }
        ensures options { self.new.options ≡ self.old.options }
        ensures room { self.new.room ≡ self.old.room }
        ensures name_room { self.old.name_room ≤ self.new.name_room }
        ensures full { OnErr result (IsUnnamed self.old self.new stay.now) }
    {
        let names = &mut self.names;
        if self.options.renumber {
            name_all(&self.given, names, stay, self.low)
        } else {
            // Nothing is avoided, so each is named by its own serial.
            name_all(&Serials::new(self.alloc), names, stay, 0)
        }
    }

    /// Begins these streams without a Skeleton that is made. They are named, and the serials below `low` are taken.
    fn begin_plain(
        &mut self,
        skeleton: Option<SkeletonHead>,
        stay: Vec<NewStream>,
        low: u32,
    ) -> Result<Command, Memory>
        requires { AreNamedFor self.old stay.items low }
        ensures begins { IfOk result (λ now. BeginsPlain self.old self.new skeleton stay.items now) }
        ensures options { self.new.options ≡ self.old.options }
        ensures name_room { self.new.name_room ≡ self.old.name_room }
        ensures full { OnErr result (self.old.room < length stay.items) }
    {
        let streams = streams_named(self.names.as_slice(), stay);
        match give_all(&mut self.given, streams.as_slice()) {
            Ok(()) => {}
            Err(refused) => return Err(refused),
        }
        self.low = low;
        Ok(Command::Begin(Begin {
            skeleton,
            streams: Listed::of(streams),
        }))
    }

    /// Begins these streams at this time of day, with a Skeleton that says what the Skeletons with these packets say. The
    /// new Skeleton's serial is the first free one from `from` on. The streams are named, and the serials below `low` are
    /// taken.
    fn begin_described(
        &mut self,
        from: u32,
        utc: [u8; 20],
        said: &[Listed<u8>],
        stay: Vec<NewStream>,
        low: u32,
    ) -> Result<Command, Memory>
        requires { AreNamedFor self.old stay.items low }
        ensures begins { IfOk result (λ now. BeginsDescribed from utc said.now self.old self.new stay.items now) }
        ensures options { self.new.options ≡ self.old.options }
        ensures name_room { self.new.name_room ≡ self.old.name_room }
    {
        let serial = match free_serial(&self.given, self.names.as_slice(), from) {
            Ok(serial) => serial,
            Err(taken) => return Err(taken),
        };
        let streams = match all_described(self.alloc, said, self.names.as_slice(), stay) {
            Ok(streams) => streams,
            Err(refused) => return Err(refused),
        };
        match give_with(&mut self.given, serial, streams.as_slice()) {
            Ok(()) => {}
            Err(refused) => return Err(refused),
        }
        self.low = low;
        Ok(Command::Begin(Begin {
            skeleton: Some(head_said(said, serial, utc)),
            streams: Listed::of(streams),
        }))
    }

    /// A link's streams begin at this time of day: those that stay, under other serials if theirs are to be changed.
    fn begin(&mut self, begin: Begin, utc: [u8; 20]) -> Result<Command, Memory>
        ensures begins { IfOk result (λ now. Begins utc self.old self.new begin now) }
        ensures options { self.new.options ≡ self.old.options }
        ensures name_room { self.old.name_room ≤ self.new.name_room }
        ensures full { OnErr result (LacksMemoryFor self.old self.new begin) }
    {
        let skeletons = self.options.skeletons;
        let (stay, said) = staying(self.alloc, skeletons, begin.streams.into_vec())?;
        let low = match self.name(stay.as_slice()) {
            Ok(low) => low,
            Err(refused) => return Err(refused),
        };
        match made_for(skeletons, stay.as_slice()) {
            Some(from) => self.begin_described(from, utc, said.as_slice(), stay, low),
            None => self.begin_plain(begin.skeleton, stay, low),
        }
    }

    /// The put with the packets that are of the last link's streams, if there are any.
    fn put(&self, put: Put) -> Option<Command>
        ensures { result ≡ put_of (entries_named self.now.names put.entries) }
    {
        let now = entries_named(self.alloc, self.names.as_slice(), put.entries.into_vec());
        if now.is_empty() {
            return None;
        }
        Some(Command::Put(Put {
            entries: Listed::of(now),
        }))
    }

    /// The end of the stream that had this serial, if the last link has it.
    fn end(&self, serial: u32) -> Option<Command>
        ensures { result ≡ end_of (name_of self.now.names serial) }
    {
        match name_of(self.names.as_slice(), serial) {
            Some(now) => Some(Command::End(now)),
            None => None,
        }
    }

    /// The command that this one becomes, if it isn't left out. A Skeleton that is made says this time of day, as
    /// Skeleton 3.0 writes it in its fishead, unless one that is left out says another; `NO_UTC` says that it isn't
    /// known. Only a link's begin takes memory, and only if something is changed: to put those streams together that
    /// stay, if Skeletons are left out of the link, and for names and serials for which there was no room. `Memory` also
    /// says that no serial is free. After it change no further command.
    pub fn change(&mut self, command: Command, utc: [u8; 20]) -> Result<Option<Command>, Memory>
        ensures changed { IfOk result (λ now. (taken : List ℕ) (commands given : List CommandOf)
            → HasChangedBeside taken self.old commands given → IsPlain command
            → HasChangedBeside taken self.new (commands ++ command ∷ []) (given ++ option_list now)) }
        ensures options { self.new.options ≡ self.old.options }
        ensures same { is_none self.old.options ≡ true → result ≡ Ok (Some command) }
        ensures times { IfOk result (λ now. BeginAt utc self.old.options (command ∷ []) (option_list now)) }
        ensures stays { begins command ≡ false → self.new ≡ self.old }
        ensures name_room { self.old.name_room ≤ self.new.name_room }
        ensures full { OnErr result ((is_none self.old.options ≡ false) × (begins command ≡ true)) }
        ensures lacks { OnErr result (LacksMemory self.old self.new command) }
    {
        if self.options.is_none() {
            return Ok(Some(command));
        }
        match command {
            Command::Begin(begin) => self.begin(begin, utc).map(Some),
            Command::Put(put) => Ok(self.put(put)),
            Command::End(serial) => Ok(self.end(serial)),
        }
    }

    /// The commands that these become at this time of day, in the same memory. After `Memory`, which comes only if
    /// something is changed and a link begins among them that takes memory, change no further command.
    pub fn apply(
        &mut self,
        mut commands: Vec<Command>,
        utc: [u8; 20],
    ) -> Result<Vec<Command>, Memory>
        ensures changed { IfOk result (λ now. (taken : List ℕ) (before given : List CommandOf)
            → HasChangedBeside taken self.old before given → AllByRecursion IsPlain commands.items
            → HasChangedBeside taken self.new (before ++ commands.items) (given ++ now.items)) }
        ensures options { self.new.options ≡ self.old.options }
        ensures same { is_none self.old.options ≡ true → IfOk result (λ now. now.items ≡ commands.items) }
        ensures times { IfOk result (λ now. BeginAt utc self.old.options commands.items now.items) }
        ensures full { OnErr result ((is_none self.old.options ≡ false) × (list_any begins commands.items ≡ true)) }
        ensures lacks { OnErr result (LacksMemoryAmong self.old self.new commands.items) }
    {
        if self.options.is_none() {
            return Ok(commands);
        }
        let mut kept = 0;
        for place in 0..commands.len() {
            // What takes its place is never seen: no command becomes more than one.
            let command = mem::replace(&mut commands[place], Command::End(0));
            match self.change(command, utc) {
                Ok(changed) => kept = put_back(&mut commands, kept, changed),
                Err(refused) => return Err(refused),
            }
        }
        commands.truncate(kept);
        Ok(commands)
    }
}

/// Puts a command, if there is one, at this place. Returns the place of the next.
fn put_back(commands: &mut Vec<Command>, place: usize, command: Option<Command>) -> usize
    requires { place < length commands.old.items }
    ensures items { commands.new.items ≡ put_at commands.old.items place command }
    ensures next { result ≡ place + length (option_list command) }
{
    match command {
        Some(command) => {
            commands[place] = command;
            place + 1
        }
        None => place,
    }
}
