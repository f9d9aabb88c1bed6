//! What a chain will be after a command, planned before it is.
ghost use Rattle.std.specs.Prelude.{◌≡◌, ◌≤◌, ◌<◌, ◌+◌, ◌^◌, IfOk, length, map};
ghost use Rattle.std.specs.List.{fold};
ghost use Rattle.link_chain.specs.ChainState.{ChainState};
ghost use Rattle.link_chain.specs.Places.{HaveOwnSerials};
ghost use Rattle.link_chain.specs.Progress.{change_at, ended_by, next_in};
ghost use Rattle.chain_rules.specs.Decision.{decision};
ghost use Rattle.chain_rules.specs.Encoding.{runs_of, with_run};
ghost use Rattle.chain_rules.specs.Limits.{most_streams};

use crate::checks::decide_put;
use link_chain::{MOST_STREAMS, StreamState, place_of};
use ogg_command::{Command, Put, Refusal};
use std::marker::Model;

/// What the chain will be after a command: the streams of its last link, and the size of the command's pages. Its
/// owner takes the room once; each plan takes the place of the one before.
#[derive(Debug, Drop)]
pub struct Plan {
    streams: [StreamState; MOST_STREAMS],
    count: usize,
    size: u64,
}

impl Model for Plan {
    ghost use Rattle.std.specs.Prelude.{◌≤◌, take};
    ghost use Rattle.chain_rules.specs.Limits.{most_streams};
    ghost use Rattle.chain_rules.specs.Plan.{PlanState};

    ghost Value = { PlanState };

    ghost view = { λ p. record { streams = take p.count p.streams; size = p.size } };

    ghost invariant = { λ p. p.count ≤ most_streams };
}

impl Plan {
    /// The room for a plan.
    pub fn new() -> Plan {
        Plan {
            streams: [StreamState::NOBODY; MOST_STREAMS],
            count: 0,
            size: 0,
        }
    }

    /// The streams of the last link, after the command.
    pub fn streams(&self) -> &[StreamState]
        ensures value { result.now ≡ self.now.streams }
        ensures few { length self.now.streams ≤ most_streams }
    {
        let (streams, _) = self.streams.split_at(self.count);
        streams
    }

    /// How many bytes the command's pages have.
    pub fn size(&self) -> u64
        ensures { result ≡ self.now.size }
    {
        self.size
    }

    /// Plans that the chain goes on with these streams after pages of this size.
    pub(crate) fn set(&mut self, streams: &[StreamState], size: u64)
        requires { length streams.now ≤ most_streams }
        ensures streams { self.new.streams ≡ streams.now }
        ensures size { self.new.size ≡ size }
    {
        let (front, _) = self.streams.split_at_mut(streams.len());
        front.copy_from_slice(streams);
        self.count = streams.len();
        self.size = size;
    }

    /// Decides a put of these streams, after this many bytes, and plans it.
    pub(crate) fn put(
        &mut self,
        streams: &[StreamState],
        bytes: u64,
        put: &Put,
    ) -> Result<u64, Refusal>
        requires streams { length streams.now ≤ most_streams }
        requires distinct { HaveOwnSerials streams.now }
        requires counted { bytes < 2 ^ 63 }
        ensures decides { (chain : ChainState) → chain.streams ≡ streams.now → chain.length_of ≡ bytes
            → result ≡ decision chain (Command.Put put.now) }
        ensures streams { IfOk result (λ _. self.new.streams ≡ fold with_run streams.now (runs_of put.now.entries)) }
        ensures size { IfOk result (λ size. self.new.size ≡ size) }
    {
        match decide_put(&mut self.streams, streams, bytes, put) {
            Ok(size) => {
                self.count = streams.len();
                self.size = size;
                Ok(size)
            }
            Err(refusal) => Err(refusal),
        }
    }

    /// Plans the end of the stream with this serial, by a page of this size.
    pub(crate) fn end(&mut self, streams: &[StreamState], serial: u32, size: u64)
        requires streams { length streams.now ≤ most_streams }
        requires distinct { HaveOwnSerials streams.now }
        requires numbered { next_in streams.now serial < 2 ^ 32 }
        ensures streams { self.new.streams
            ≡ map (change_at serial (ended_by (next_in streams.now serial + 1))) streams.now }
        ensures size { self.new.size ≡ size }
    {
        let (front, _) = self.streams.split_at_mut(streams.len());
        front.copy_from_slice(streams);
        end_stream(front, serial);
        self.count = streams.len();
        self.size = size;
    }
}

/// Ends the stream with this serial by a page without packets.
fn end_stream(streams: &mut [StreamState], serial: u32)
    requires distinct { HaveOwnSerials streams.old }
    requires numbered { next_in streams.old serial < 2 ^ 32 }
    ensures { streams.new ≡ map (change_at serial (ended_by (next_in streams.old serial + 1))) streams.old }
{
    let place = place_of(streams, 0, serial);
    if place >= streams.len() {
        return;
    }
    let stream = &mut streams[place];
    stream.next_sequence += 1;
    stream.ended = true;
}
