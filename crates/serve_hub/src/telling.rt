//! What a hub tells of its file, if there is one.
ghost use Rattle.std.specs.Prelude.{◌≡◌, ◌++◌, List, None, Option, is_some, length};
ghost use Rattle.ogg_page.specs.Page.{Page};
ghost use Rattle.link_chain.specs.ChainState.{chain_state_of};
ghost use Rattle.serve_machine.specs.Hub.{HubState, is_failed};
ghost use Rattle.serve_hub.specs.declared.opening.Lost.{Lost as LostOf};
ghost use Rattle.serve_hub.specs.Parts.{failed_in, is_at_rest, is_settled, length_in, links_in, serials_in, streams_in};
ghost use Rattle.serve_hub.specs.Showing.{HasLinks, Shows, ShowsPlace};

use crate::hub::Hub;
use crate::opening::Lost;
use chain_rules::StreamState;
use disk_model::Disk;
use file_recorder::Recorder;
use link_chain::{bytes_are_one_chain, is_open};

/// How many bytes are committed and wait. Without a file it is the last end that is known.
pub(crate) fn length_of<D: Disk>(file: &Option<Recorder<D>>, lost: &Option<Lost<D>>) -> u64
    ensures length { result ≡ length_in file.now lost.now }
    ensures machine { (machine : HubState) → ShowsPlace D.Disk file.now lost.now machine → machine.in_doubt ≡ None
        → result ≡ length (machine.committed ++ machine.held) }
{
    match file {
        Some(recorder) => recorder.length(),
        None => match lost {
            Some(lost) => lost.end,
            None => 0,
        },
    }
}

/// The streams of the last link, with what waits.
pub(crate) fn streams_of<D: Disk>(file: &Option<Recorder<D>>) -> &[StreamState]
    ensures streams { result.now ≡ streams_in file.now }
    ensures machine { (lost : Option (LostOf D)) (machine : HubState) (links : List (List Page))
        → ShowsPlace D.Disk file.now lost machine → HasLinks machine links
        → result.now ≡ (chain_state_of links).streams }
{
    // For the proof alone.
    bytes_are_one_chain();
    match file {
        Some(recorder) => {
            // For the proof alone.
            let _end = recorder.end();
            recorder.streams()
        }
        None => &[],
    }
}

/// The serials of all streams, those that wait included.
pub(crate) fn serials_of<D: Disk>(file: &Option<Recorder<D>>) -> &[u32]
    ensures serials { result.now ≡ serials_in file.now }
    ensures machine { (lost : Option (LostOf D)) (machine : HubState) (links : List (List Page))
        → ShowsPlace D.Disk file.now lost machine → HasLinks machine links
        → result.now ≡ (chain_state_of links).serials }
{
    // For the proof alone.
    bytes_are_one_chain();
    match file {
        Some(recorder) => {
            // For the proof alone.
            let _end = recorder.end();
            recorder.serials().as_slice()
        }
        None => &[],
    }
}

/// How many links there are, those that wait included.
pub(crate) fn links_of<D: Disk>(file: &Option<Recorder<D>>) -> u64
    ensures links { result ≡ links_in file.now }
    ensures machine { (lost : Option (LostOf D)) (machine : HubState) (links : List (List Page))
        → ShowsPlace D.Disk file.now lost machine → HasLinks machine links
        → result ≡ (chain_state_of links).links }
{
    // For the proof alone.
    bytes_are_one_chain();
    match file {
        Some(recorder) => {
            // For the proof alone.
            let _end = recorder.end();
            recorder.links()
        }
        None => 0,
    }
}

/// Whether the disk has failed, or there is no file.
pub(crate) fn has_failed<D: Disk>(file: &Option<Recorder<D>>) -> bool
    ensures failed { result ≡ failed_in file.now }
    ensures machine { (lost : Option (LostOf D)) (machine : HubState) → ShowsPlace D.Disk file.now lost machine
        → result ≡ is_failed machine }
{
    match file {
        Some(recorder) => recorder.is_failed(),
        None => true,
    }
}

/// Whether all that was accepted is kept.
fn settled<D: Disk>(file: &Option<Recorder<D>>) -> bool
    ensures { result ≡ is_settled file.now }
{
    match file {
        Some(recorder) => !recorder.is_failed() && recorder.held() == 0,
        None => false,
    }
}

impl<D: Disk> Hub<D> {
    /// The length of the committed bytes and of those of the commands that wait. Without a file it is the last end
    /// that is known. After a fault of the disk it still counts those of the group in doubt.
    pub fn length(&self) -> u64
        ensures length { result ≡ length_in self.now.file self.now.lost }
        ensures machine { (machine : HubState) → Shows D.Disk self.now machine → machine.in_doubt ≡ None
            → result ≡ length (machine.committed ++ machine.held) }
    {
        length_of(&self.file, &self.lost)
    }

    /// The streams of the last link, with what waits, in the order of their first pages. Without a file there are
    /// none.
    pub fn streams(&self) -> &[StreamState]
        ensures streams { result.now ≡ streams_in self.now.file }
        ensures machine { (machine : HubState) (links : List (List Page)) → Shows D.Disk self.now machine
            → HasLinks machine links → result.now ≡ (chain_state_of links).streams }
    {
        streams_of(&self.file)
    }

    /// The serials of all streams of the file, those that wait included, in the order of their first pages. Without a
    /// file there are none.
    pub fn serials(&self) -> &[u32]
        ensures serials { result.now ≡ serials_in self.now.file }
        ensures machine { (machine : HubState) (links : List (List Page)) → Shows D.Disk self.now machine
            → HasLinks machine links → result.now ≡ (chain_state_of links).serials }
    {
        serials_of(&self.file)
    }

    /// How many links the file has, those that wait included. Without a file there are none.
    pub fn links(&self) -> u64
        ensures links { result ≡ links_in self.now.file }
        ensures machine { (machine : HubState) (links : List (List Page)) → Shows D.Disk self.now machine
            → HasLinks machine links → result ≡ (chain_state_of links).links }
    {
        links_of(&self.file)
    }

    /// Whether there is a file: there is none after a reopening that failed.
    pub fn has_file(&self) -> bool
        ensures file { result ≡ is_some self.now.file }
        ensures machine { (machine : HubState) → Shows D.Disk self.now machine → result ≡ machine.has_file }
    {
        self.file.is_some()
    }

    /// Whether the disk has failed, or there is no file. Then each command is refused as `Failed` until a reopening.
    pub fn is_failed(&self) -> bool
        ensures failed { result ≡ failed_in self.now.file }
        ensures machine { (machine : HubState) → Shows D.Disk self.now machine → result ≡ is_failed machine }
    {
        has_failed(&self.file)
    }

    /// Whether all that was accepted is kept: the disk hasn't failed, and nothing waits. Without a file it isn't.
    pub fn is_settled(&self) -> bool
        ensures { result ≡ is_settled self.now.file }
    {
        settled(&self.file)
    }

    /// Whether that is so, and no stream is open.
    pub fn is_at_rest(&self) -> bool
        ensures { result ≡ is_at_rest self.now.file }
    {
        match &self.file {
            Some(recorder) => self.is_settled() && !is_open(recorder.streams()),
            None => false,
        }
    }
}
