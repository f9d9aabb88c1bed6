//! A cut: what is still to be given of it.
ghost use Rattle.std.specs.Prelude.{false, nat_eq, ◌≡◌, ◌≢◌, ◌≤◌, ◌<◌, ℕ, List, [], ◌++◌, Err, length, min, take, drop, IfOk, IsErr, OnErr};
ghost use Rattle.std.specs.List.{AllByRecursion};
ghost use Rattle.ogg_page.specs.Page.{Page, IsPage};
ghost use Rattle.ogg_page.specs.Window.{KeepsSource};
ghost use Rattle.link_chain.specs.ChainState.{chain_state_of};
ghost use Rattle.link_chain.specs.Links.{AreLinks};
ghost use Rattle.serve_live.specs.Hearing.{IsHearing};
ghost use Rattle.serve_live.specs.Joined.{IsNew};
ghost use Rattle.serve_live.specs.Names.{gap_in};
ghost use Rattle.serve_live.specs.Listening.{HasFailed, ListenerState};
ghost use Rattle.serve_live.specs.Live.{Moment};
ghost use Rattle.serve_live.specs.Places.{IsPlaceIn};
ghost use Rattle.archive_cut.specs.Cut.{HasNumbers, ends_of};
ghost use Rattle.archive_cut.specs.Cutting.{GivesOf, IsCutting, IsLeftOf, IsSameLink};
ghost use Rattle.archive_cut.specs.Heads.{AreWalked};
ghost use Rattle.archive_cut.specs.Starting.{IsStart, IsStartJoined, IsStartWaiting};

use crate::endings::ends_of;
use crate::fault::CutFault;
use crate::heads::{take_link, take_pages};
use crate::stretch::copy_text;
use archive_times::Join;
use link_chain::StreamState;
use ogg_page::{PageSource, SourceFault};
use serve_live::{JoinFault, JoinPlace, Listener, listeners_hear_what_they_should};
use std::alloc::Global;
use std::marker::Model;

/// What is still to be given of a cut.
#[derive(Debug, Drop)]
pub struct Cut {
    listener: Listener,
    end: u64,
    text: Vec<u8>,
    sent: usize,
}

impl Model for Cut {
    ghost use Rattle.std.specs.Prelude.{◌≤◌, drop, length};
    ghost use Rattle.archive_cut.specs.Cutting.{CutState};

    ghost Value = { CutState };

    ghost view = { λ c. record { listener = c.listener; end = c.end; text = drop c.sent c.text.items } };

    ghost invariant = { λ c. c.sent ≤ length c.text.items };
}

/// The cut from a place where no link is open.
fn waiting<S: PageSource>(
    alloc: Global,
    source: &mut S,
    start: u64,
    end: u64,
) -> Result<Cut, CutFault>
    ensures cuts { (committed more : List ℕ) (links : List (List Page)) (moment : Moment) → S.is_honest source.old
        → S.bytes source.old ≡ committed ++ more → length committed ≡ end → AreLinks committed links
        → IsStartWaiting links moment start → IfOk result (λ cut. IsCutting moment committed cut []) }
    ensures cause { (committed more : List ℕ) (links : List (List Page)) (moment : Moment) → S.is_honest source.old
        → S.bytes source.old ≡ committed ++ more → length committed ≡ end → AreLinks committed links
        → IsStartWaiting links moment start → result ≡ Err CutFault.Source
        → HasFailed (S.failures source.old) (S.failures source.new) }
    ensures numbers { (committed more : List ℕ) (links : List (List Page)) (moment : Moment) → S.is_honest source.old
        → S.bytes source.old ≡ committed ++ more → length committed ≡ end → AreLinks committed links
        → IsStartWaiting links moment start → result ≡ Err CutFault.NoNumber → HasNumbers links → ⊥ }
    ensures later { S.failures source.old ≤ S.failures source.new }
    ensures source { KeepsSource S.bytes S.is_honest S.size S.only_reads source.old source.new }
{
    let mut streams = Vec::new(alloc);
    match take_pages(source, start, end, &mut streams) {
        Ok(()) => {
            listeners_hear_what_they_should();
            let listener = Listener::wait(alloc, start);
            Cut::new(alloc, listener, end, streams.as_slice(), false)
        }
        Err(fault) => Err(fault),
    }
}

/// The listener that joins a link, of which the pages end at `link_end`.
fn join_link<S: PageSource>(
    alloc: Global,
    source: &mut S,
    place: JoinPlace,
    link_end: u64,
    streams: &[StreamState],
) -> Result<Listener, CutFault>
    ensures joins { (committed more : List ℕ) (links : List (List Page)) (moment : Moment) → S.is_honest source.old
        → S.bytes source.old ≡ committed ++ more → length committed ≡ link_end → AreLinks committed links
        → streams.now ≡ (chain_state_of links).streams → IsPlaceIn links moment place
        → IfOk result (λ listener. IsHearing moment committed listener []) }
    ensures cause { (committed more : List ℕ) (links : List (List Page)) (moment : Moment) → S.is_honest source.old
        → S.bytes source.old ≡ committed ++ more → length committed ≡ link_end → AreLinks committed links
        → streams.now ≡ (chain_state_of links).streams → IsPlaceIn links moment place
        → result ≡ Err CutFault.Source → HasFailed (S.failures source.old) (S.failures source.new) }
    ensures number { result ≢ Err CutFault.NoNumber }
    ensures later { S.failures source.old ≤ S.failures source.new }
    ensures source { KeepsSource S.bytes S.is_honest S.size S.only_reads source.old source.new }
{
    match Listener::join(alloc, source, place, link_end, streams) {
        Ok(listener) => Ok(listener),
        Err(JoinFault::Source) => Err(CutFault::Source),
        Err(JoinFault::Memory) => Err(CutFault::Memory),
    }
}

/// A listener that has joined a link, where the link's pages end, and the link's streams there.
#[derive(Drop)]
struct Joining {
    listener: Listener,
    link_end: u64,
    streams: Vec<StreamState>,
}

/// Joins the link that is open at a place of a file whose committed bytes end at `end`.
fn join_at<S: PageSource>(
    alloc: Global,
    source: &mut S,
    link: Join,
    start: u64,
    end: u64,
) -> Result<Joining, CutFault>
    ensures hears { (committed more : List ℕ) (links : List (List Page)) (moment : Moment) → S.is_honest source.old
        → S.bytes source.old ≡ committed ++ more → length committed ≡ end → AreLinks committed links
        → IsStartJoined links moment start link → IfOk result (λ joining. IsHearing moment committed joining.listener []
        × IsSameLink moment committed (nat_eq joining.link_end end)) }
    ensures streams { (committed more : List ℕ) (links : List (List Page)) (moment : Moment) → S.is_honest source.old
        → S.bytes source.old ≡ committed ++ more → length committed ≡ end → AreLinks committed links
        → IsStartJoined links moment start link
        → IfOk result (λ joining. AreWalked (S.bytes source.old) (chain_state_of links).streams end joining.link_end joining.streams.items) }
    ensures cause { (committed more : List ℕ) (links : List (List Page)) (moment : Moment) → S.is_honest source.old
        → S.bytes source.old ≡ committed ++ more → length committed ≡ end → AreLinks committed links
        → IsStartJoined links moment start link → result ≡ Err CutFault.Source
        → HasFailed (S.failures source.old) (S.failures source.new) }
    ensures number { result ≢ Err CutFault.NoNumber }
    ensures later { S.failures source.old ≤ S.failures source.new }
    ensures source { KeepsSource S.bytes S.is_honest S.size S.only_reads source.old source.new }
{
    let place = JoinPlace {
        begin: link.begin,
        begun: link.begun,
        boundary: start,
    };
    let mut streams = Vec::new(alloc);
    match take_pages(source, link.begin, start, &mut streams) {
        Ok(()) => match take_link(source, start, end, &mut streams) {
            Ok(link_end) => match join_link(alloc, source, place, link_end, streams.as_slice()) {
                Ok(listener) => {
                    listeners_hear_what_they_should();
                    Ok(Joining {
                        listener,
                        link_end,
                        streams,
                    })
                }
                Err(fault) => Err(fault),
            },
            Err(fault) => Err(fault),
        },
        Err(fault) => Err(fault),
    }
}

/// The cut from a place in a link that is open.
fn joined<S: PageSource>(
    alloc: Global,
    source: &mut S,
    link: Join,
    start: u64,
    end: u64,
) -> Result<Cut, CutFault>
    ensures cuts { (committed more : List ℕ) (links : List (List Page)) (moment : Moment) → S.is_honest source.old
        → S.bytes source.old ≡ committed ++ more → length committed ≡ end → AreLinks committed links
        → IsStartJoined links moment start link → IfOk result (λ cut. IsCutting moment committed cut []) }
    ensures cause { (committed more : List ℕ) (links : List (List Page)) (moment : Moment) → S.is_honest source.old
        → S.bytes source.old ≡ committed ++ more → length committed ≡ end → AreLinks committed links
        → IsStartJoined links moment start link → result ≡ Err CutFault.Source
        → HasFailed (S.failures source.old) (S.failures source.new) }
    ensures numbers { (committed more : List ℕ) (links : List (List Page)) (moment : Moment) → S.is_honest source.old
        → S.bytes source.old ≡ committed ++ more → length committed ≡ end → AreLinks committed links
        → IsStartJoined links moment start link → result ≡ Err CutFault.NoNumber → HasNumbers links → ⊥ }
    ensures later { S.failures source.old ≤ S.failures source.new }
    ensures source { KeepsSource S.bytes S.is_honest S.size S.only_reads source.old source.new }
{
    match join_at(alloc, source, link, start, end) {
        Ok(joining) => {
            let Joining {
                listener,
                link_end,
                streams,
            } = joining;
            let mut streams = streams;
            match take_pages(source, link_end, end, &mut streams) {
                Ok(()) => Cut::new(alloc, listener, end, streams.as_slice(), link_end == end),
                Err(fault) => Err(fault),
            }
        }
        Err(fault) => Err(fault),
    }
}

/// The listener that hears a file from a place on, in the link that is open there. The committed bytes end at `end`, and as
/// more are committed it hears these. The heads of the link's pages are read. Memory is taken for its streams.
pub fn hear_from<S: PageSource>(
    alloc: Global,
    source: &mut S,
    link: Join,
    from: u64,
    end: u64,
) -> Result<Listener, CutFault>
    ensures hears { (committed more : List ℕ) (links : List (List Page)) (moment : Moment) → S.is_honest source.old
        → S.bytes source.old ≡ committed ++ more → length committed ≡ end → AreLinks committed links
        → IsStartJoined links moment from link → IfOk result (λ listener. IsHearing moment committed listener []) }
    ensures cause { (committed more : List ℕ) (links : List (List Page)) (moment : Moment) → S.is_honest source.old
        → S.bytes source.old ≡ committed ++ more → length committed ≡ end → AreLinks committed links
        → IsStartJoined links moment from link → result ≡ Err CutFault.Source
        → HasFailed (S.failures source.old) (S.failures source.new) }
    ensures later { S.failures source.old ≤ S.failures source.new }
    ensures source { KeepsSource S.bytes S.is_honest S.size S.only_reads source.old source.new }
{
    match join_at(alloc, source, link, from, end) {
        Ok(joining) => Ok(joining.listener),
        Err(fault) => Err(fault),
    }
}

impl Cut {
    /// A cut from where the listener joined up to `end`. `streams` are those of the file's last link there; `same` says
    /// whether it is the link that was joined. Memory is taken for a page for each stream that is open there.
    pub fn new(
        alloc: Global,
        listener: Listener,
        end: u64,
        streams: &[StreamState],
        same: bool,
    ) -> Result<Cut, CutFault>
        ensures cuts { (moment : Moment) (committed : List ℕ) (links : List (List Page)) → IsHearing moment committed listener []
            → length committed ≡ end → AreLinks committed links → streams.now ≡ (chain_state_of links).streams
            → IsSameLink moment committed same → IfOk result (λ cut. IsCutting moment committed cut []) }
        ensures kept { IfOk result (λ cut. (cut.listener ≡ listener) × (cut.end ≡ end)) }
        // A stream that is open has no number left.
        ensures numbers { result ≡ Err CutFault.NoNumber → AllByRecursion IsPage (ends_of streams.now) → ⊥ }
        // Nothing is read.
        ensures reads { result ≢ Err CutFault.Source }
    {
        let text = ends_of(alloc, &listener, same, streams)?;
        Ok(Cut {
            listener,
            end,
            text,
            sent: 0,
        })
    }

    /// The cut of a file from `start` up to `end`, which are places between commands. At `start` the link is open that
    /// is joined, or none is, and pages follow. The heads of the pages are read from the joined link's beginning on.
    /// Memory is taken for the streams of a link, and for a page for each.
    pub fn between<S: PageSource>(
        alloc: Global,
        source: &mut S,
        start: u64,
        join: Option<Join>,
        end: u64,
    ) -> Result<Cut, CutFault>
        ensures cuts { (committed more : List ℕ) (links : List (List Page)) (moment : Moment) → S.is_honest source.old
            → S.bytes source.old ≡ committed ++ more → length committed ≡ end → AreLinks committed links
            → IsStart links moment start join → IfOk result (λ cut. IsCutting moment committed cut []) }
        // A fault of the source has a cause.
        ensures cause { (committed more : List ℕ) (links : List (List Page)) (moment : Moment) → S.is_honest source.old
            → S.bytes source.old ≡ committed ++ more → length committed ≡ end → AreLinks committed links
            → IsStart links moment start join → result ≡ Err CutFault.Source
            → HasFailed (S.failures source.old) (S.failures source.new) }
        // A stream that is open at the end has no number left.
        ensures numbers { (committed more : List ℕ) (links : List (List Page)) (moment : Moment) → S.is_honest source.old
            → S.bytes source.old ≡ committed ++ more → length committed ≡ end → AreLinks committed links
            → IsStart links moment start join → result ≡ Err CutFault.NoNumber → HasNumbers links → ⊥ }
        ensures later { S.failures source.old ≤ S.failures source.new }
        ensures source { KeepsSource S.bytes S.is_honest S.size S.only_reads source.old source.new }
    {
        match join {
            Some(link) => joined(alloc, source, link, start, end),
            None => waiting(alloc, source, start, end),
        }
    }

    /// The cut of a file from a place where no link is open up to another, by the streams of the file's last link there, as
    /// the heads of its pages leave them (`take_page`). Memory is taken for a page for each that is open.
    pub fn waits(
        alloc: Global,
        start: u64,
        end: u64,
        streams: &[StreamState],
    ) -> Result<Cut, CutFault>
        ensures listener { IfOk result (λ cut. IsNew start 0 start [] cut.listener × (cut.end ≡ end)) }
        ensures cuts { (moment : Moment) (committed : List ℕ) (links : List (List Page))
            → ((listener : ListenerState) → IsNew start 0 start [] listener → IsHearing moment committed listener [])
            → length committed ≡ end → AreLinks committed links → streams.now ≡ (chain_state_of links).streams
            → IsSameLink moment committed false → IfOk result (λ cut. IsCutting moment committed cut []) }
        ensures numbers { result ≡ Err CutFault.NoNumber → AllByRecursion IsPage (ends_of streams.now) → ⊥ }
        // Nothing is read.
        ensures reads { result ≢ Err CutFault.Source }
    {
        let listener = Listener::wait(alloc, start);
        Cut::new(alloc, listener, end, streams, false)
    }

    /// How many numbers of the stream aren't heard of the link that is joined, as long as no other begins.
    pub fn gap(&self, serial: u32) -> u64
        ensures { result ≡ gap_in self.now.listener.names serial }
    {
        self.listener.gap(serial)
    }

    /// The pages that end what is open where the cut ends, as far as they aren't given.
    pub fn ends(&self) -> &[u8]
        ensures { result.now ≡ self.now.text }
    {
        let (_, text) = self.text.as_slice().split_at(self.sent);
        text
    }

    /// The cut without the pages that end what is open where it ends.
    pub fn left_open(self) -> Cut
        ensures { result ≡ record self { text = [] } }
    {
        let Cut {
            listener,
            end,
            mut text,
            ..
        } = self;
        text.clear();
        Cut {
            listener,
            end,
            text,
            sent: 0,
        }
    }

    /// Fills the buffer with the bytes of the cut that come next. It returns how many these are: fewer than go in only
    /// at the cut's end. No memory is taken.
    ///
    /// After `SourceFault` the cut is as it was, and the buffer may hold anything.
    pub fn pull<S: PageSource>(
        &mut self,
        source: &mut S,
        buffer: &mut [u8],
    ) -> Result<usize, SourceFault>
        ensures gives { (committed more rest : List ℕ) → S.is_honest source.old → S.bytes source.old ≡ committed ++ more
            → IsLeftOf committed self.old rest
            → IfOk result (λ count. GivesOf committed rest (length buffer.old) buffer.new count self.new) }
        // A fault has a cause, and a byte was to be given.
        ensures cause { (committed more rest : List ℕ) → S.is_honest source.old → S.bytes source.old ≡ committed ++ more
            → IsLeftOf committed self.old rest → IsErr result
            → HasFailed (S.failures source.old) (S.failures source.new) × (0 < min (length rest) (length buffer.old)) }
        ensures same { OnErr result (self.new ≡ self.old) }
        ensures within { IfOk result (λ count. count ≤ length buffer.old) }
        ensures later { S.failures source.old ≤ S.failures source.new }
        ensures source { KeepsSource S.bytes S.is_honest S.size S.only_reads source.old source.new }
    {
        match self.listener.pull(source, self.end, buffer) {
            Ok(heard) => {
                let (_, text) = self.text.as_slice().split_at(self.sent);
                let (_, room) = buffer.split_at_mut(heard);
                let told = copy_text(text, room);
                self.sent += told;
                Ok(heard + told)
            }
            Err(fault) => Err(fault),
        }
    }
}
