//! The streams of a new link, checked one after the other.
ghost use Rattle.std.specs.Prelude.{◌≡◌, ◌≤◌, ◌<◌, ◌+◌, ◌-◌, ◌*◌, ◌++◌, ℕ, [], ◌∷◌, ◌&&◌, false, Some, IfSome, is_some, length, sum_by, nat_lt, nat_le, nat_eq, take, drop, map, reverse, List};
ghost use Rattle.std.specs.List.{list_any, list_all, flat_map};
ghost use Rattle.std.specs.Option.{SomeIff};
ghost use Rattle.link_chain.specs.Rules.{first_broken};
ghost use Rattle.chain_rules.specs.Limits.{longest_batch};
ghost use Rattle.link_chain.specs.ChainState.{ChainState};
ghost use Rattle.chain_rules.specs.Begun.{stream_count, skeleton_serial};
ghost use Rattle.chain_rules.specs.Decision.{stream_rules, streams_rules, skeleton_rules, parts_rules, has_many_parts, has_many_headers, has_many_fields, has_long_message, header_bytes, is_positive};
ghost use Rattle.skeleton3.specs.Fields.{is_field, is_media_type};
ghost use Rattle.ogg_command.specs.declared.command.NewStream.{NewStream as StreamOf};

use crate::limits::{LONGEST_BATCH, LONGEST_FIRST, LONGEST_PACKET, MOST_HEADERS};
use command_pages::split_headers;
use link_chain::{MOST_STREAMS, Serials};
use ogg_command::{Begin, Listed, NewStream, Refusal, SkeletonHead};
use skeleton3::{Field, MOST_FIELDS, is_field, is_media_type};

/// How many streams a link has; its Skeleton counts.
pub fn stream_count(begin: &Begin) -> usize
    ensures { result ≡ stream_count begin.now }
{
    begin.streams.as_slice().len() + usize::from(begin.skeleton.is_some())
}

/// Whether a link has more parts than it may have.
pub fn has_many_parts(begin: &Begin) -> bool
    ensures { result ≡ has_many_parts begin.now }
{
    let streams = begin.streams.as_slice();
    stream_count(begin) > MOST_STREAMS || have_many_headers(streams) || have_many_fields(streams)
}

/// Whether one of the streams has more headers than it may have.
fn have_many_headers(streams: &[NewStream]) -> bool
    ensures { result ≡ list_any has_many_headers streams.now }
{
    streams
        .iter()
        .any(|stream| stream.headers.len() > MOST_HEADERS)
}

/// Whether one of the streams has more message fields than it may have.
fn have_many_fields(streams: &[NewStream]) -> bool
    ensures { result ≡ list_any has_many_fields streams.now }
{
    streams
        .iter()
        .any(|stream| stream.fields.len() > MOST_FIELDS)
}

/// Whether a number is above 0.
fn is_positive(number: i64) -> bool
    ensures { result ≡ is_positive number }
{
    number > 0
}

/// Whether a command may have these message fields.
fn are_fields(fields: &[Field]) -> bool
    ensures { result ≡ list_all is_field fields.now }
{
    fields.iter().all(|field| is_field(field))
}

/// The first rule that the head of a link's Skeleton breaks.
fn broken_by_skeleton(serials: &Serials, head: &SkeletonHead) -> Option<Refusal>
    ensures { (chain : ChainState) → chain.serials ≡ serials.now.listed → result ≡ first_broken (skeleton_rules chain head.now) }
{
    if serials.contains(head.serial) {
        return Some(Refusal::SerialTaken);
    }
    if !(is_positive(head.presentation.1) && is_positive(head.base.1)) {
        return Some(Refusal::BadRate);
    }
    None
}

/// The first rule that a stream breaks, after the streams before it in its link.
fn broken_by_stream(
    serials: &Serials,
    skeleton: Option<SkeletonHead>,
    earlier: &[NewStream],
    stream: &NewStream,
) -> Option<Refusal>
    ensures { (chain : ChainState) → chain.serials ≡ serials.now.listed →
        result ≡ first_broken (stream_rules chain (is_some skeleton) (reverse (map (λ (s : StreamOf). s.serial) earlier.now) ++ skeleton_serial skeleton) stream.now) }
{
    if serials.contains(stream.serial) || is_earlier(skeleton, earlier, stream.serial) {
        return Some(Refusal::SerialTaken);
    }
    let headers = stream.headers.as_slice();
    if headers.is_empty() {
        return Some(Refusal::NoHeader);
    }
    let (first, others) = split_headers(headers);
    if has_longer(first, LONGEST_FIRST) {
        return Some(Refusal::HeadTooLong);
    }
    if has_longer(others, LONGEST_PACKET) {
        return Some(Refusal::PacketTooLong);
    }
    if skeleton.is_some()
        && !(is_media_type(stream.media.as_slice()) && are_fields(stream.fields.as_slice()))
    {
        return Some(Refusal::BadType);
    }
    if skeleton.is_some() && !(is_positive(stream.rate.0) && is_positive(stream.rate.1)) {
        return Some(Refusal::BadRate);
    }
    None
}

/// The first rule that one of a link's streams breaks.
fn broken_by_streams(
    serials: &Serials,
    skeleton: Option<SkeletonHead>,
    streams: &[NewStream],
) -> Option<Refusal>
    ensures { (chain : ChainState) → chain.serials ≡ serials.now.listed →
        result ≡ first_broken (streams_rules chain (is_some skeleton) (skeleton_serial skeleton) streams.now) }
{
    for (i, stream) in streams.iter().enumerate() {
        let (earlier, _) = streams.split_at(i);
        let broken = broken_by_stream(serials, skeleton, earlier, stream);
        if broken.is_some() {
            return broken;
        }
    }
    None
}

/// The first rule that a Skeleton breaks, or else one of the streams that it describes.
fn broken_by_described(
    serials: &Serials,
    head: SkeletonHead,
    streams: &[NewStream],
) -> Option<Refusal>
    ensures { (chain : ChainState) → chain.serials ≡ serials.now.listed →
        result ≡ first_broken (parts_rules chain (Some head) streams.now) }
{
    let broken = broken_by_skeleton(serials, &head);
    if broken.is_some() {
        return broken;
    }
    broken_by_streams(serials, Some(head), streams)
}

/// The first rule that the Skeleton of a link breaks, or else one of its streams.
pub fn broken_by_parts(
    serials: &Serials,
    skeleton: Option<SkeletonHead>,
    streams: &[NewStream],
) -> Option<Refusal>
    ensures { (chain : ChainState) → chain.serials ≡ serials.now.listed →
        result ≡ first_broken (parts_rules chain skeleton streams.now) }
{
    match skeleton {
        None => broken_by_streams(serials, None, streams),
        Some(head) => broken_by_described(serials, head, streams),
    }
}

/// Whether the Skeleton or one of the streams has this serial.
fn is_earlier(skeleton: Option<SkeletonHead>, streams: &[NewStream], serial: u32) -> bool
    ensures { result ≡ list_any (nat_eq serial) (reverse (map (λ (s : StreamOf). s.serial) streams.now) ++ skeleton_serial skeleton) }
{
    has_serial(streams, serial) || skeleton.is_some_and(|head| serial == head.serial)
}

/// Whether one of the streams has this serial.
fn has_serial(streams: &[NewStream], serial: u32) -> bool
    ensures { result ≡ list_any (nat_eq serial) (reverse (map (λ (s : StreamOf). s.serial) streams.now)) }
{
    has_stream(streams, serial)
}

fn has_stream(streams: &[NewStream], serial: u32) -> bool
    ensures { result ≡ list_any (λ (s : StreamOf). nat_eq serial s.serial) streams.now }
{
    streams.iter().any(|stream| serial == stream.serial)
}

/// Whether one of the packets has more bytes than this.
fn has_longer(packets: &[Listed<u8>], most: usize) -> bool
    ensures { result ≡ list_any (λ (packet : List ℕ). nat_lt most (length packet)) packets.now }
{
    packets.iter().any(|packet| packet.len() > most)
}

/// What is left of a number of bytes after the packets; none if the packets have more bytes
/// together.
fn left_behind(left: u64, packets: &[Listed<u8>]) -> Option<u64>
    ensures { SomeIff result (sum_by length packets.now ≤ left) (left - sum_by length packets.now) }
{
    let mut left = left;
    for packet in packets {
        left = left.checked_sub(packet.len() as u64)?;
    }
    Some(left)
}

/// Whether the headers are too long together.
pub fn is_long_begin(streams: &[NewStream]) -> bool
    ensures { result ≡ nat_lt longest_batch (sum_by header_bytes streams.now) }
{
    let mut left = LONGEST_BATCH;
    for stream in streams {
        match left_behind(left, stream.headers.as_slice()) {
            Some(less) => left = less,
            None => return true,
        }
    }
    false
}
