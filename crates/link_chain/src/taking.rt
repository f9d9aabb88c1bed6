//! Pages that were read, taken one after the other.
ghost use Rattle.std.specs.Prelude.{◌≡◌, ◌≤◌, ◌<◌, ◌+◌, ◌++◌, ◌∷◌, ◌^◌, ℕ, [], Option, None, OnOk, OnErr, map, length, nat_eq, vec_len, vec_capacity};
ghost use Rattle.std.specs.List.{list_all};
ghost use Rattle.link_chain.specs.ChainState.{ChainState};
ghost use Rattle.link_chain.specs.Rules.{first_broken};
ghost use Rattle.link_chain.specs.Progress.{change_at};
ghost use Rattle.link_chain.specs.Taking.{is_one_packet, is_whole_packet, opening_rules, joining_rules, later_rules, leaves_open, fault_of_page};
ghost use Rattle.link_chain.specs.declared.stream_state.StreamState.{StreamState as State};
ghost use Rattle.link_chain.specs.Followed.{followed, entered};
ghost use Rattle.ogg_page.specs.Lacing.{ends_open};
ghost use Rattle.ogg_page.specs.Sizes.{full_value};

use crate::Memory;
use crate::chain_fault::ChainFault;
use crate::limits::{MOST_LINKS, MOST_STREAMS, POSITIONS};
use crate::serials::Serials;
use crate::stream_state::StreamState;
use crate::streams::{is_open, stream_in};
use ogg_page::{FULL_VALUE, Page};

/// Whether the lacing values are those of exactly one whole packet.
fn is_one_packet(lacing: &[u8]) -> bool
    ensures { result ≡ is_one_packet lacing.now }
{
    match lacing {
        [full @ .., last] => are_full(full) && *last < FULL_VALUE,
        [] => false,
    }
}

/// Whether all of the lacing values are those of whole segments.
fn are_full(values: &[u8]) -> bool
    ensures { result ≡ list_all (λ (value : ℕ). nat_eq value full_value) values.now }
{
    values.iter().all(|value| *value == FULL_VALUE)
}

/// Whether the page holds exactly one whole packet, as each stream's first page does.
pub fn is_whole_packet(page: &Page<'_>) -> bool
    ensures { result ≡ is_whole_packet page.now }
{
    !page.is_continued() && is_one_packet(page.lacing())
}

/// Whether the lacing values say that their last packet goes on.
fn ends_open(lacing: &[u8]) -> bool
    ensures { result ≡ ends_open lacing.now }
{
    lacing.last() == Some(&FULL_VALUE)
}

/// Whether a packet of the stream goes on after the page.
fn leaves_open(stream: StreamState, page: &Page<'_>) -> bool
    ensures { result ≡ leaves_open page.now stream }
{
    if page.lacing().is_empty() {
        !stream.finished
    } else {
        ends_open(page.lacing())
    }
}

/// The first rule that the first page of a link breaks.
fn broken_by_opening(links: u64, page: &Page<'_>) -> Option<ChainFault>
    ensures { (chain : ChainState) → chain.links ≡ links → result ≡ first_broken (opening_rules chain page.now) }
{
    if !is_whole_packet(page) {
        return Some(ChainFault::BosShape);
    }
    if links >= MOST_LINKS {
        return Some(ChainFault::TooMany);
    }
    None
}

/// The first rule that the first page of one more stream of an open link breaks.
fn broken_by_joining(streams: &[StreamState], has_data: bool, page: &Page<'_>) -> Option<ChainFault>
    ensures { (chain : ChainState) → chain.streams ≡ streams.now → chain.has_data ≡ has_data
        → result ≡ first_broken (joining_rules chain page.now) }
{
    if has_data {
        return Some(ChainFault::BosWhileOpen);
    }
    if stream_in(streams, page.serial()).is_some() {
        return Some(ChainFault::SerialTwice);
    }
    if !is_whole_packet(page) {
        return Some(ChainFault::BosShape);
    }
    if streams.len() >= MOST_STREAMS {
        return Some(ChainFault::TooMany);
    }
    None
}

/// The first rule that a page breaks that isn't marked as its stream's first.
fn broken_by_later(streams: &[StreamState], links: u64, page: &Page<'_>) -> Option<ChainFault>
    ensures { (chain : ChainState) → chain.streams ≡ streams.now → chain.links ≡ links
        → result ≡ first_broken (later_rules chain page.now) }
{
    if links == 0 {
        return Some(ChainFault::BosPlace);
    }
    let Some(stream) = stream_in(streams, page.serial()) else {
        return Some(ChainFault::NoStream);
    };
    if stream.ended {
        return Some(ChainFault::AfterEos);
    }
    if u64::from(page.sequence()) != stream.next_sequence {
        return Some(ChainFault::Sequence);
    }
    if page.is_continued() == stream.finished {
        return Some(ChainFault::Continued);
    }
    if page.is_last() && leaves_open(stream, page) {
        return Some(ChainFault::EosUnfinished);
    }
    None
}

/// The first rule that a page breaks.
#[tactic(auto, unfolding(crate::specs::Taking::fault_of_page))]
pub fn broken_by_page(
    streams: &[StreamState],
    has_data: bool,
    links: u64,
    page: &Page<'_>,
) -> Option<ChainFault>
    ensures { (chain : ChainState) → chain.streams ≡ streams.now → chain.has_data ≡ has_data → chain.links ≡ links
        → result ≡ fault_of_page chain page.now }
{
    if !page.is_first() {
        return broken_by_later(streams, links, page);
    }
    if is_open(streams) {
        broken_by_joining(streams, has_data, page)
    } else {
        broken_by_opening(links, page)
    }
}

/// A stream after one more page.
fn behind_page(stream: StreamState, page: &Page<'_>) -> StreamState
    ensures { result ≡ followed page.now stream }
{
    StreamState {
        serial: stream.serial,
        next_sequence: u64::from(page.sequence()) + 1,
        last_position: if page.position() < POSITIONS {
            page.position()
        } else {
            stream.last_position
        },
        ended: stream.ended || page.is_last(),
        finished: !leaves_open(stream, page),
    }
}

/// A stream after its first page.
fn behind_first(page: &Page<'_>) -> StreamState
    ensures { result ≡ entered page.now }
{
    let stream = StreamState {
        serial: page.serial(),
        finished: true,
        ..StreamState::NOBODY
    };
    behind_page(stream, page)
}

fn with_page(stream: StreamState, page: &Page<'_>) -> StreamState
    ensures { result ≡ change_at page.now.serial (followed page.now) stream }
{
    if stream.serial == page.serial() {
        behind_page(stream, page)
    } else {
        stream
    }
}

/// Counts in a page of one of these streams.
pub fn follow(streams: &mut [StreamState], page: &Page<'_>)
    ensures { streams.new ≡ map (change_at page.now.serial (followed page.now)) streams.old }
{
    for stream in streams.iter_mut() {
        *stream = with_page(*stream, page);
    }
}

/// Puts the stream of a link's first page in the place of the streams of the link before. After
/// `Memory` the streams and serials are as they were.
pub fn open_link(
    streams: &mut Vec<StreamState>,
    serials: &mut Serials,
    page: &Page<'_>,
) -> Result<(), Memory>
    ensures streams { OnOk result (streams.new.items ≡ entered page.now ∷ []) }
    ensures count { OnOk result (vec_len streams.new ≡ 1) }
    ensures serials { OnOk result (serials.new.listed ≡ serials.old.listed ++ page.now.serial ∷ []) }
    ensures same { OnErr result ((streams.new.items ≡ streams.old.items) × (serials.new.listed ≡ serials.old.listed)) }
    ensures full { OnErr result (1 ≤ vec_capacity streams.old → 1 ≤ serials.old.room → ⊥) }
{
    if streams.is_empty() {
        streams.reserve(1)?;
    }
    serials.reserve(1)?;
    streams.clear();
    streams.push_reserved(behind_first(page));
    serials.push_reserved(page.serial());
    Ok(())
}

/// Adds the stream of a first page. After `Memory` the streams and serials are as they were.
pub fn join_link(
    streams: &mut Vec<StreamState>,
    serials: &mut Serials,
    page: &Page<'_>,
) -> Result<(), Memory>
    ensures streams { OnOk result (streams.new.items ≡ streams.old.items ++ entered page.now ∷ []) }
    ensures count { OnOk result (vec_len streams.new ≡ vec_len streams.old + 1) }
    ensures serials { OnOk result (serials.new.listed ≡ serials.old.listed ++ page.now.serial ∷ []) }
    ensures same { OnErr result ((streams.new.items ≡ streams.old.items) × (serials.new.listed ≡ serials.old.listed)) }
    ensures full { OnErr result (vec_len streams.old + 1 ≤ vec_capacity streams.old → 1 ≤ serials.old.room → ⊥) }
{
    streams.reserve(1)?;
    serials.reserve(1)?;
    streams.push_reserved(behind_first(page));
    serials.push_reserved(page.serial());
    Ok(())
}

/// Adds the serials of a link's streams.
pub fn add_serials(serials: &mut Serials, streams: &[StreamState])
    requires { length streams.now ≤ serials.old.room }
    ensures { serials.new.listed ≡ serials.old.listed ++ map (λ (stream : State). stream.serial) streams.now }
{
    for stream in streams {
        serials.push_reserved(stream.serial);
    }
}
