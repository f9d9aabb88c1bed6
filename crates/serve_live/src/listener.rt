//! A listener: what it has still to hear.
ghost use Rattle.std.specs.Prelude.{◌≡◌, ◌≤◌, ◌<◌, ◌-◌, ℕ, List, [], ◌∷◌, ◌++◌, Err, length, map, min, IfOk, IsErr, OnErr, OnOk};
ghost use Rattle.ogg_page.specs.Page.{Page, bytes_of_pages};
ghost use Rattle.link_chain.specs.ChainState.{chain_state_of};
ghost use Rattle.link_chain.specs.Links.{AreLinks};
ghost use Rattle.serve_live.specs.Names.{gap_in};
ghost use Rattle.serve_live.specs.Following.{GoesOn, names_on};
ghost use Rattle.serve_live.specs.Hearing.{IsHearing};
ghost use Rattle.serve_live.specs.Joined.{IsNew, ends_of};
ghost use Rattle.serve_live.specs.Live.{Moment};
ghost use Rattle.serve_live.specs.Noting.{noted};
ghost use Rattle.serve_live.specs.Places.{IsPlaceIn};
ghost use Rattle.serve_live.specs.declared.joined.LinkPart.TheVariants.{Beginning, Since};
ghost use Rattle.ogg_page.specs.Window.{KeepsSource};
ghost use Rattle.serve_live.specs.Listening.{Gives, HasFailed, IsLeft, has_heard_all};
ghost use Rattle.serve_live.specs.Pulling.{HasMoved};

use crate::fault::JoinFault;
use crate::joined::{JoinedStream, LinkPart, names_of, note_pages, streams_of_now};
use crate::names::{StreamName, name_in, names_on};
use crate::pages::PageLeft;
use crate::pieces::{pull_behind, pull_part};
use link_chain::StreamState;
use ogg_page::{LAST, Memory, PageHead, PageSource, SourceFault, write_page};
use std::alloc::Global;
use std::marker::Model;

/// Where a listener joins a link, by offsets in the file.
#[derive(Clone, Copy, Debug, PartialEq, Eq)]
pub struct JoinPlace {
    /// Where the link's first page begins.
    pub begin: u64,
    /// Where the pages end with which the link began.
    pub begun: u64,
    /// Where the pages end that are passed over.
    pub boundary: u64,
}

/// What a listener has still to hear of what is committed, and will be.
#[derive(Debug, Drop)]
pub struct Listener {
    begin_place: u64,
    begin_left: u64,
    text: Vec<u8>,
    sent: usize,
    names: Vec<StreamName>,
    left: PageLeft,
}

impl Model for Listener {
    ghost use Rattle.std.specs.Prelude.{◌≤◌, [], if◌then◌else◌, drop, length};
    ghost use Rattle.serve_live.specs.Listening.{ListenerState};

    ghost Value = { ListenerState };

    ghost view = { λ l. record {
      begin_place = l.begin_place;
      begin_left = l.begin_left;
      text = drop l.sent l.text.items;
      names = if l.left.anew then [] else l.names.items;
      place = l.left.place;
      skip = l.left.skip;
    } };

    ghost invariant = { λ l. l.sent ≤ length l.text.items };
}

/// Appends the page that ends a stream, if the stream ended unheard.
fn add_end(stream: &JoinedStream, text: &mut Vec<u8>) -> Result<(), Memory>
    ensures { OnOk result (text.new.items ≡ text.old.items ++ bytes_of_pages (ends_of (stream.now ∷ []))) }
{
    if !stream.ended || stream.begun_ended {
        return Ok(());
    }
    match u32::try_from(stream.begun_next) {
        Ok(sequence) => {
            let head = PageHead {
                flags: LAST,
                position: stream.position,
                serial: stream.serial,
                sequence,
            };
            write_page(&head, &[], &[], text)
        }
        Err(_) => Ok(()),
    }
}

/// The pages that end the streams that ended unheard.
fn ends_of(alloc: Global, streams: &[JoinedStream]) -> Result<Vec<u8>, Memory>
    ensures text { IfOk result (λ text. text.items ≡ bytes_of_pages (ends_of streams.now)) }
    ensures full { OnErr result (0 < length streams.now) }
{
    let mut text = Vec::new(alloc);
    for stream in streams {
        add_end(stream, &mut text)?;
    }
    Ok(text)
}

/// Notes what the pages of a link say of its streams: those of its beginning, and those since the boundary.
fn note_link<S: PageSource>(
    source: &mut S,
    place: JoinPlace,
    end: u64,
    streams: &mut [JoinedStream],
) -> Result<(), SourceFault>
    ensures noted { (committed more : List ℕ) (links : List (List Page)) (moment : Moment) → S.is_honest source.old
        → S.bytes source.old ≡ committed ++ more → length committed ≡ end → AreLinks committed links
        → (at : IsPlaceIn links moment place)
        → OnOk result (streams.new ≡ map (noted Since at.since) (map (noted Beginning moment.begin) streams.old)) }
    ensures cause { (committed more : List ℕ) (links : List (List Page)) (moment : Moment) → S.is_honest source.old
        → S.bytes source.old ≡ committed ++ more → length committed ≡ end → AreLinks committed links
        → IsPlaceIn links moment place → IsErr result → HasFailed (S.failures source.old) (S.failures source.new) }
    ensures later { S.failures source.old ≤ S.failures source.new }
    ensures source { KeepsSource S.bytes S.is_honest S.size S.only_reads source.old source.new }
{
    match note_pages(
        source,
        place.begin,
        place.begun,
        LinkPart::Beginning,
        streams,
    ) {
        Ok(()) => note_pages(source, place.boundary, end, LinkPart::Since, streams),
        Err(fault) => Err(fault),
    }
}

/// A listener that joins at the place, and knows the streams.
fn new_listener(
    alloc: Global,
    place: JoinPlace,
    streams: &[JoinedStream],
) -> Result<Listener, Memory>
    ensures new { IfOk result (λ listener. IsNew place.begin (place.begun - place.begin) place.boundary streams.now listener) }
    ensures full { OnErr result (0 < length streams.now) }
{
    let text = ends_of(alloc, streams)?;
    let names = names_of(alloc, streams)?;
    Ok(Listener {
        begin_place: place.begin,
        begin_left: place.begun.saturating_sub(place.begin),
        text,
        sent: 0,
        names,
        left: PageLeft {
            place: place.boundary,
            skip: 0,
            anew: false,
        },
    })
}

impl Listener {
    /// A listener that joins the last link at a place. The committed bytes end at `end`, and `states` are those of the
    /// link's streams there. Of the pages of the link's beginning and of those since the boundary the heads are read.
    /// Memory is taken for the streams, and for a page for each stream that ended unheard: none if there are no streams.
    pub fn join<S: PageSource>(
        alloc: Global,
        source: &mut S,
        place: JoinPlace,
        end: u64,
        states: &[StreamState],
    ) -> Result<Listener, JoinFault>
        ensures joins { (committed more : List ℕ) (links : List (List Page)) (moment : Moment) → S.is_honest source.old
            → S.bytes source.old ≡ committed ++ more → length committed ≡ end → AreLinks committed links
            → states.now ≡ (chain_state_of links).streams → IsPlaceIn links moment place
            → IfOk result (λ listener. IsHearing moment committed listener []) }
        // A fault of the source has a cause.
        ensures cause { (committed more : List ℕ) (links : List (List Page)) (moment : Moment) → S.is_honest source.old
            → S.bytes source.old ≡ committed ++ more → length committed ≡ end → AreLinks committed links
            → states.now ≡ (chain_state_of links).streams → IsPlaceIn links moment place
            → result ≡ Err JoinFault.Source → HasFailed (S.failures source.old) (S.failures source.new) }
        // Memory is taken for the streams alone.
        ensures memory { result ≡ Err JoinFault.Memory → 0 < length states.now }
        ensures later { S.failures source.old ≤ S.failures source.new }
        ensures source { KeepsSource S.bytes S.is_honest S.size S.only_reads source.old source.new }
    {
        let mut streams = streams_of_now(alloc, states)?;
        match note_link(source, place, end, streams.as_mut_slice()) {
            Ok(()) => Ok(new_listener(alloc, place, streams.as_slice())?),
            Err(_) => Err(JoinFault::Source),
        }
    }

    /// A listener that joins while no link is open: the committed bytes end at `end`, and the next link is heard from
    /// its first page on.
    pub fn wait(alloc: Global, end: u64) -> Listener
        ensures { IsNew end 0 end [] result }
    {
        Listener {
            begin_place: end,
            begin_left: 0,
            text: Vec::new(alloc),
            sent: 0,
            names: Vec::new(alloc),
            left: PageLeft {
                place: end,
                skip: 0,
                anew: true,
            },
        }
    }

    /// A listener that hears on in the next file, in which the link goes on that this one has heard so far. `old` are the
    /// streams that are open in its file, and `new` those that go on with them in the next, in order, as the pages leave
    /// them with which the link begins there. These end at `begun`, and aren't heard: what follows is heard under the
    /// serials that this listener has heard, and with the numbers that follow. Memory is taken for the streams alone: none
    /// if no stream goes on.
    pub fn go_on(
        &self,
        alloc: Global,
        begun: u64,
        old: &[StreamState],
        new: &[StreamState],
    ) -> Result<Listener, Memory>
        ensures on { IfOk result (λ listener. GoesOn begun (names_on self.now.names old.now new.now) listener) }
        // Memory is taken for the streams that go on alone.
        ensures memory { OnErr result ((0 < length old.now) × (0 < length new.now)) }
    {
        let names = names_on(alloc, self.names_heard(), old, new)?;
        Ok(Listener {
            begin_place: begun,
            begin_left: 0,
            text: Vec::new(alloc),
            sent: 0,
            names,
            left: PageLeft {
                place: begun,
                skip: 0,
                anew: false,
            },
        })
    }

    /// The streams that aren't heard as they are.
    fn names_heard(&self) -> &[StreamName]
        ensures { result.now ≡ self.now.names }
    {
        if self.left.anew {
            &[]
        } else {
            self.names.as_slice()
        }
    }

    /// How many numbers of the stream with this serial aren't heard, until another link begins.
    pub fn gap(&self, serial: u32) -> u64
        ensures { result ≡ gap_in self.now.names serial }
    {
        name_in(self.names_heard(), serial).less
    }

    /// Whether all is heard that is committed, up to `end`.
    pub fn has_heard_all(&self, end: u64) -> bool
        ensures { result ≡ has_heard_all end self.now }
    {
        let (_, text) = self.text.as_slice().split_at(self.sent);
        self.begin_left == 0 && text.is_empty() && end <= self.left.place
    }

    /// Fills the buffer with the bytes that are heard next, up to the end of what is committed. It returns how many
    /// these are. No memory is taken.
    ///
    /// After `SourceFault` the listener is as it was, and the buffer may hold anything.
    pub fn pull<S: PageSource>(
        &mut self,
        source: &mut S,
        end: u64,
        buffer: &mut [u8],
    ) -> Result<usize, SourceFault>
        ensures gives { (committed more rest : List ℕ) → S.is_honest source.old → S.bytes source.old ≡ committed ++ more
            → length committed ≡ end → IsLeft committed self.old rest
            → IfOk result (λ count. Gives committed rest (length buffer.old) buffer.new count self.new) }
        ensures moves { (committed more rest : List ℕ) → S.is_honest source.old → S.bytes source.old ≡ committed ++ more
            → length committed ≡ end → IsLeft committed self.old rest → IfOk result (λ count. HasMoved committed self.old self.new) }
        // A fault has a cause, and a byte was to be given.
        ensures cause { (committed more rest : List ℕ) → S.is_honest source.old → S.bytes source.old ≡ committed ++ more
            → length committed ≡ end → IsLeft committed self.old rest → IsErr result
            → HasFailed (S.failures source.old) (S.failures source.new) × (0 < min (length rest) (length buffer.old)) }
        ensures same { OnErr result (self.new ≡ self.old) }
        ensures within { IfOk result (λ count. count ≤ length buffer.old) }
        ensures later { S.failures source.old ≤ S.failures source.new }
        ensures source { KeepsSource S.bytes S.is_honest S.size S.only_reads source.old source.new }
    {
        match pull_part(source, self.begin_place, self.begin_left, buffer) {
            Ok(begun) => {
                let (_, text) = self.text.as_slice().split_at(self.sent);
                let (_, room) = buffer.split_at_mut(begun);
                match pull_behind(source, end, text, self.names.as_slice(), self.left, room) {
                    Ok((told, heard, left)) => {
                        self.begin_place += begun as u64;
                        self.begin_left -= begun as u64;
                        self.sent += told;
                        self.left = left;
                        Ok(begun + told + heard)
                    }
                    Err(fault) => Err(fault),
                }
            }
            Err(fault) => Err(fault),
        }
    }
}
