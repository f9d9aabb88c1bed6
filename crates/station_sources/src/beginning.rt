//! A source that gets the air, and goes on in a file that was opened again.
ghost use Rattle.std.specs.Prelude.{◌≡◌, IfOk};
ghost use Rattle.station_sources.specs.Beginning.{GoesOnIn, HasBegun};

use crate::Memory;
use crate::air::{Feeder, OnAir};
use import_changes::ChangeOptions;
use import_record::ImportRun;
use link_chain::StreamState;
use ogg_command::Command;
use serve_sources::Body;
use std::alloc::Global;

/// How many bytes of a stream are read at once: a page, and as many again.
const ROOM: usize = 131_072;

impl OnAir {
    /// A source of which no byte has come. Its streams are begun as the options ask, under serials that aren't among
    /// these if they are renumbered.
    pub fn new(
        alloc: Global,
        feeder: Feeder,
        body: Option<Body>,
        options: ChangeOptions,
        serials: &[u32],
    ) -> Result<OnAir, Memory>
        ensures { IfOk result (λ air. HasBegun feeder body options serials.now air) }
    {
        let import = ImportRun::new(alloc, ROOM, options, serials)?;
        Ok(OnAir {
            feeder,
            import,
            body,
            pending: Vec::new(alloc),
            at: 0,
            decoded: 0,
            starved: false,
            ended: false,
            complete: false,
            short: false,
            lost: false,
            has_page: false,
            foreign: false,
        })
    }

    /// The commands with which the stream goes on in a file that was opened again, whose last link has these streams, and
    /// all of whose streams have these serials: none if its link is open there.
    pub fn resume(
        &mut self,
        streams: &[StreamState],
        serials: &[u32],
    ) -> Result<Vec<Command>, Memory>
        ensures same { self.new ≡ record self.old { import = self.new.import } }
        ensures resumes { IfOk result (λ commands. GoesOnIn streams.now serials.now commands.items self.old self.new) }
    {
        self.import.resume(streams, serials)
    }
}
