//! Where listeners may join what is recorded.
ghost use Rattle.std.specs.Prelude.{◌≡◌, None, Some, IfOk};
ghost use Rattle.serve_live.specs.Boundaries.{no_link, place_to_join};
ghost use Rattle.station_hub.specs.Places.{answered_by, committed_to, doubted, noted, reopened_to};

use feed_replies::Reply;
use ogg_command::Refusal;
use serve_live::{Boundaries, JoinPlace};
use std::alloc::{AllocError as Memory, Global};
use std::marker::Model;

/// Where the pages of a `Begin` stand in the file.
#[derive(Clone, Copy, Debug, PartialEq, Eq)]
pub struct BeginPlace {
    pub begin: u64,
    pub end: u64,
}

/// A command that was answered, and the file after it. Lengths are bytes.
#[derive(Clone, Copy, Debug, PartialEq, Eq)]
pub struct Answered {
    /// The command is a `Begin`.
    pub begins: bool,
    /// How long the file was before the command, with what waited.
    pub before: u64,
    /// How long it is with the command's pages.
    pub after: u64,
    /// How long the committed bytes are.
    pub end: u64,
    /// A stream of the last link goes on.
    pub is_open: bool,
}

/// The boundaries between commands at which listeners may join the open link. A boundary is one by the recorder's
/// answers, and only once it is committed. Offsets are those of the file.
#[derive(Drop)]
pub struct Places {
    boundaries: Boundaries,
    // where the pages stand of the last `Begin` that isn't known to be committed
    begun: Option<BeginPlace>,
}

impl Model for Places {
    ghost use Rattle.station_hub.specs.Places.{PlacesState};

    ghost Value = { PlacesState };

    ghost view = { λ p. record { boundaries = p.boundaries; begun = p.begun } };
}

impl Places {
    /// No link is open. Memory is taken for all boundaries that are ever kept.
    pub fn new(alloc: Global) -> Result<Places, Memory>
        ensures { IfOk result (λ places. places ≡ record { boundaries = no_link; begun = None }) }
    {
        Ok(Places {
            boundaries: Boundaries::new(alloc)?,
            begun: None,
        })
    }

    /// Where a listener joins, if a link is open whose beginning is known.
    pub fn place(&self) -> Option<JoinPlace>
        ensures { result ≡ place_to_join self.now.boundaries }
    {
        self.boundaries.place()
    }

    /// A command got this reply.
    pub fn answered(&mut self, reply: Reply, answered: Answered)
        ensures { self.new ≡ answered_by reply answered self.old }
    {
        match reply {
            Reply::Held(_) => self.note(answered),
            Reply::Kept(_) => {
                self.note(answered);
                self.committed(answered.end, answered.is_open);
            }
            Reply::Refused(Refusal::Disk) => self.doubt(answered.begins),
            Reply::Refused(_) => {}
        }
    }

    /// The disk failed at a command. If it was a `Begin`, nobody joins before the next one: it may be kept.
    fn doubt(&mut self, begins: bool)
        ensures { self.new ≡ doubted begins self.old }
    {
        if begins {
            self.boundaries.ended();
            self.begun = None;
        }
    }

    /// A command was taken, and its pages stand there. It may wait for its commit.
    fn note(&mut self, answered: Answered)
        ensures { self.new ≡ noted answered.begins (record { begin = answered.before; end = answered.after }) self.old }
    {
        if answered.begins {
            self.begun = Some(BeginPlace {
                begin: answered.before,
                end: answered.after,
            });
        }
    }

    /// All that waited is committed: the committed bytes end at `end`. A stream is open there, or none.
    pub fn committed(&mut self, end: u64, is_open: bool)
        ensures { self.new ≡ committed_to end is_open self.old }
    {
        match self.begun.take() {
            Some(place) => {
                self.boundaries.begun(place.begin, place.end);
                if place.end < end {
                    self.boundaries.went_on(end);
                }
            }
            None => self.boundaries.went_on(end),
        }
        if !is_open {
            self.boundaries.ended();
        }
    }

    /// The file was opened again, which had `before` committed bytes and has `end`: what waited is lost, or was committed
    /// after all.
    pub fn reopened(&mut self, before: u64, end: u64, is_open: bool)
        ensures { self.new ≡ reopened_to before end is_open self.old }
    {
        if before < end {
            self.committed(end, is_open);
        } else {
            self.begun = None;
        }
    }
}
