//! A recording that goes on after its file was opened again.
ghost use Rattle.std.specs.Prelude.{◌≡◌, ◌<◌, ◌+◌, ◌++◌, [], length, map, nat_eq, vec_capacity, vec_len, IfOk, OnOk, OnErr};
ghost use Rattle.std.specs.List.{filter, list_any};
ghost use Rattle.import_changes.specs.Changed.{HasChangedBeside};
ghost use Rattle.import_changes.specs.Steps.{BeginAt};
ghost use Rattle.import_record.specs.Begun.{open_after};
ghost use Rattle.import_record.specs.Resuming.{IsAsBefore, Resumes, end_again, ends_of, has_open, holds_open, is_left, is_over, link_again};
ghost use Rattle.import_record.specs.Steps.{state_of};
ghost use Rattle.ogg_command.specs.declared.command.Command.{Command as CommandOf};

use crate::Memory;
use crate::begun::{BegunStream, all_again, keep_all_open};
use crate::reading::ImportRun;
use import_changes::{ChangeOptions, Changes};
use link_chain::StreamState;
use ogg_command::{Begin, Command, Listed};
use std::alloc::Global;

/// A link that is begun again.
#[derive(Drop)]
struct Again {
    changes: Changes,
    given: Vec<Command>,
    ours: Vec<u32>,
}

impl ImportRun {
    /// The commands that are to be run before the next step, after the file was opened again, in which a fault of the
    /// disk may have lost what waited. `streams` are those of its last link, and `serials` all that it has. If it has
    /// each stream open that the input has, only the others are ended. Otherwise all that is open is ended, and if the
    /// input's link is open it begins again: with the streams that are open, and with those that have ended and had no
    /// packet but their headers, as a Skeleton, under serials that are free. After `Memory`, which comes only if a command
    /// is to be run, all is as before.
    pub fn resume(
        &mut self,
        streams: &[StreamState],
        serials: &[u32],
    ) -> Result<Vec<Command>, Memory>
        ensures resumes { IfOk result (λ commands. Resumes streams.now serials.now (state_of self.old) (state_of self.new) commands.items) }
        ensures same { self.new.input ≡ self.old.input }
        ensures err { OnErr result (state_of self.new ≡ state_of self.old) }
        // Memory is taken for commands alone: it isn't wanted if nothing is to be run.
        ensures full { OnErr result (IsAsBefore streams.now (state_of self.old).begun.serials → ⊥) }
    {
        let mut commands = Vec::new(self.alloc);
        if holds_open(streams, self.begun.serials.as_slice()) {
            push_ends(&mut commands, self.begun.serials.as_slice(), streams)?;
            return Ok(commands);
        }
        push_ends(&mut commands, &[], streams)?;
        let Again {
            changes,
            mut given,
            ours,
        } = begin_again(
            self.alloc,
            self.options,
            self.utc,
            serials,
            self.begun.streams.as_slice(),
        )?;
        commands.append(&mut given)?;
        self.changes = changes;
        self.begun.serials = ours;
        Ok(commands)
    }
}

/// Begins a link of these streams again, at this time of day in a file that has these serials.
fn begin_again(
    alloc: Global,
    options: ChangeOptions,
    utc: [u8; 20],
    serials: &[u32],
    streams: &[BegunStream],
) -> Result<Again, Memory>
    ensures changed { IfOk result (λ again. HasChangedBeside serials.now again.changes (link_again streams.now) again.given.items) }
    ensures times { IfOk result (λ again. BeginAt utc options (link_again streams.now) again.given.items) }
    ensures options { IfOk result (λ again. again.changes.options ≡ options) }
    ensures ours { IfOk result (λ again. again.ours.items ≡ open_after [] again.given.items) }
{
    let mut changes = Changes::new(alloc, options);
    changes.avoid(serials)?;
    let commands = link_again(alloc, streams)?;
    let given = changes.apply(commands, utc)?;
    let mut ours = Vec::new(alloc);
    keep_all_open(alloc, &mut ours, given.as_slice())?;
    Ok(Again {
        changes,
        given,
        ours,
    })
}

/// The link of these streams again, as the input gave it.
fn link_again(alloc: Global, streams: &[BegunStream]) -> Result<Vec<Command>, Memory>
    ensures { IfOk result (λ commands. commands.items ≡ link_again streams.now) }
{
    let mut commands = Vec::new(alloc);
    let again = all_again(alloc, streams)?;
    commands.push(Command::Begin(Begin {
        skeleton: None,
        streams: Listed::of(again),
    }))?;
    push_ends_again(&mut commands, streams)?;
    Ok(commands)
}

/// Whether the stream has ended and had no packet but its headers.
fn is_over(begun: &BegunStream) -> bool
    ensures { result ≡ is_over begun.now }
{
    begun.ended && !begun.has_packets
}

/// Appends the ends of the streams that had no packet but their headers. After `Memory` only some were appended.
fn push_ends_again(commands: &mut Vec<Command>, streams: &[BegunStream]) -> Result<(), Memory>
    ensures { OnOk result (commands.new.items ≡ commands.old.items ++ map end_again (filter is_over streams.now)) }
{
    for begun in streams {
        if is_over(begun) {
            commands.push(Command::End(begun.stream.serial))?;
        }
    }
    Ok(())
}

/// Whether a stream of the file's last link, which has these streams, has this serial and is open.
fn has_open(streams: &[StreamState], serial: u32) -> bool
    ensures { result ≡ has_open streams.now serial }
{
    streams
        .iter()
        .any(|stream| stream.serial == serial && !stream.ended)
}

/// Whether each of these is the serial of a stream that is open in the file.
fn holds_open(streams: &[StreamState], ours: &[u32]) -> bool
    ensures { result ≡ holds_open streams.now ours.now }
{
    ours.iter().all(|serial| has_open(streams, *serial))
}

/// Whether the stream is open and none of these.
fn is_left(ours: &[u32], stream: &StreamState) -> bool
    ensures { result ≡ is_left ours.now stream.now }
{
    !stream.ended && !has(ours, stream.serial)
}

/// Whether this serial is one of these.
fn has(ours: &[u32], serial: u32) -> bool
    ensures { result ≡ list_any (nat_eq serial) ours.now }
{
    ours.iter().any(|other| serial == *other)
}

/// Appends the ends of the open streams that are none of these. After `Memory` only some were appended.
fn push_ends(
    commands: &mut Vec<Command>,
    ours: &[u32],
    streams: &[StreamState],
) -> Result<(), Memory>
    ensures ends { OnOk result (commands.new.items ≡ commands.old.items ++ ends_of ours.now streams.now) }
    ensures full { OnErr result (vec_capacity commands.old < vec_len commands.old + length (ends_of ours.now streams.now)) }
{
    for stream in streams {
        if is_left(ours, stream) {
            commands.push(Command::End(stream.serial))?;
        }
    }
    Ok(())
}
