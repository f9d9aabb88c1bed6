//! Which commands fit a record of version 2.
ghost use Rattle.std.specs.Prelude.{◌≡◌, ◌↔◌, length, IsTrue};
ghost use Rattle.std.specs.List.{AllByRecursion, flat_map};
ghost use Rattle.feed_records.specs.Fits.{BeginFits, HasFewParts, PutFits, capped};
ghost use Rattle.feed_records.specs.Record.{FitsField, FitsRecord, entry_bytes, field_bytes, packet_bytes, skeleton_bytes, stream_bytes};
ghost use Rattle.feed_records.specs.declared.version.Version.TheVariants.{Two};

use crate::widths::{COUNT, ENTRY, FIELD, LENGTH, MOST_PAYLOAD, STREAM};
use ogg_command::{Begin, Command, Entry, Listed, NewStream, Put, SkeletonHead};
use skeleton3::Field;

/// Counts and lengths that a record has two bytes for are below this.
const MOST_COUNT: usize = 65_536;

/// Whether `write_command_2` can write the command: its counts and lengths fit their fields, and its payload has
/// 33,554,432 bytes at most. No memory is taken.
pub fn fits_record_2(command: &Command) -> bool
    ensures { IsTrue result ↔ FitsRecord Two command.now }
{
    match command {
        Command::Begin(begin) => begin_fits(begin),
        Command::Put(put) => put_fits(put),
        Command::End(_) => true,
    }
}

fn begin_fits(begin: &Begin) -> bool
    ensures { IsTrue result ↔ BeginFits begin.now }
{
    let streams = begin.streams.as_slice();
    if streams.len() >= MOST_COUNT {
        return false;
    }
    let size = streams_size(streams)
        .saturating_add(skeleton_size(&begin.skeleton))
        .saturating_add(COUNT);
    if size > MOST_PAYLOAD {
        return false;
    }
    have_few_parts(streams)
}

fn put_fits(put: &Put) -> bool
    ensures { IsTrue result ↔ PutFits put.now }
{
    let entries = put.entries.as_slice();
    if entries.len() >= MOST_COUNT {
        return false;
    }
    entries_size(entries).saturating_add(COUNT) <= MOST_PAYLOAD
}

/// Whether each stream has few enough headers and message fields, and whether these and the media type are short
/// enough.
fn have_few_parts(streams: &[NewStream]) -> bool
    ensures { IsTrue result ↔ AllByRecursion HasFewParts streams.now }
{
    for stream in streams {
        if !has_few_parts(stream) {
            return false;
        }
    }
    true
}

fn has_few_parts(stream: &NewStream) -> bool
    ensures { IsTrue result ↔ HasFewParts stream.now }
{
    stream.headers.len() < MOST_COUNT
        && stream.media.len() < MOST_COUNT
        && stream.fields.len() < MOST_COUNT
        && are_short(stream.fields.as_slice())
}

fn are_short(fields: &[Field]) -> bool
    ensures { IsTrue result ↔ AllByRecursion FitsField fields.now }
{
    for field in fields {
        if !(field.name().len() < MOST_COUNT && field.value().len() < MOST_COUNT) {
            return false;
        }
    }
    true
}

/// How long the spelling of a Skeleton's head, or of its absence, is. If a size is greater than the greatest `usize`,
/// that `usize` is returned, here and for the other sizes.
fn skeleton_size(skeleton: &Option<SkeletonHead>) -> usize
    ensures { result ≡ capped (length (skeleton_bytes skeleton.now)) }
{
    match skeleton {
        None => 1,
        Some(head) => head.utc.as_slice().len().saturating_add(37),
    }
}

/// How long the spelling of the streams is.
fn streams_size(streams: &[NewStream]) -> usize
    ensures { result ≡ capped (length (flat_map (stream_bytes Two) streams.now)) }
{
    let mut size = 0usize;
    for stream in streams {
        size = size.saturating_add(stream_size(stream));
    }
    size
}

fn stream_size(stream: &NewStream) -> usize
    ensures { result ≡ capped (length (stream_bytes Two stream.now)) }
{
    let headers = headers_size(stream.headers.as_slice());
    let fields = fields_size(stream.fields.as_slice());
    headers
        .saturating_add(fields)
        .saturating_add(stream.media.len())
        .saturating_add(STREAM + COUNT)
}

fn headers_size(headers: &[Listed<u8>]) -> usize
    ensures { result ≡ capped (length (flat_map packet_bytes headers.now)) }
{
    let mut size = 0usize;
    for header in headers {
        size = size.saturating_add(LENGTH).saturating_add(header.len());
    }
    size
}

fn fields_size(fields: &[Field]) -> usize
    ensures { result ≡ capped (length (flat_map field_bytes fields.now)) }
{
    let mut size = 0usize;
    for field in fields {
        size = size
            .saturating_add(FIELD)
            .saturating_add(field.name().len())
            .saturating_add(field.value().len());
    }
    size
}

fn entries_size(entries: &[Entry]) -> usize
    ensures { result ≡ capped (length (flat_map entry_bytes entries.now)) }
{
    let mut size = 0usize;
    for entry in entries {
        size = size
            .saturating_add(ENTRY)
            .saturating_add(entry.packet.len());
    }
    size
}
