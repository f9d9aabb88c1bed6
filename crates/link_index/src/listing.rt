//! The listing of a file's links and streams.
ghost use Rattle.std.specs.Prelude.{◌≡◌, ◌≤◌, ◌<◌, ◌+◌, ◌++◌, ℕ, List, OnOk, OnErr, length, vec_len, vec_capacity};
ghost use Rattle.std.specs.List.{flat_map};
ghost use Rattle.link_index.specs.Listing.{committed_line, link_line, state_word, stream_line, entry_lines, listing, lines_from};
ghost use Rattle.link_index.specs.Rows.{ArePacked, entry_of, entries_of};

use crate::Memory;
use crate::info::{LinkInfo, StreamInfo};
use crate::rows::{Row, streams_of};
use text_line::Line;

/// Appends the listing of a file whose committed bytes end here. After `Memory` the vector is unchanged.
pub fn append_listing(
    end: u64,
    rows: &[Row],
    streams: &[StreamInfo],
    out: &mut Vec<u8>,
) -> Result<(), Memory>
    requires { ArePacked 0 rows.now (length streams.now) }
    ensures ok { OnOk result (out.new.items ≡ out.old.items ++ listing end (entries_of streams.now rows.now)) }
    ensures err { OnErr result (out.new.items ≡ out.old.items) }
    ensures full { OnErr result (vec_capacity out.old < vec_len out.old + length (listing end (entries_of streams.now rows.now))) }
{
    let len = out.len();
    match append_lines(end, rows, streams, out) {
        Ok(()) => Ok(()),
        Err(Memory) => {
            out.truncate(len);
            Err(Memory)
        }
    }
}

/// Appends the lines. After `Memory` a part of them stands in the vector.
fn append_lines(
    end: u64,
    rows: &[Row],
    streams: &[StreamInfo],
    out: &mut Vec<u8>,
) -> Result<(), Memory>
    requires { ArePacked 0 rows.now (length streams.now) }
    ensures ok { OnOk result (out.new.items ≡ out.old.items ++ listing end (entries_of streams.now rows.now)) }
    ensures kept { (added : List ℕ) × (out.new.items ≡ out.old.items ++ added) }
    ensures full { OnErr result (vec_capacity out.old < vec_len out.old + length (listing end (entries_of streams.now rows.now))) }
{
    match out.extend_from_slice(committed_line(end).as_slice()) {
        Ok(()) => append_rows(rows, streams, out),
        Err(memory) => Err(memory),
    }
}

/// Appends the lines of links and of their streams. After `Memory` a part of them stands in the vector.
fn append_rows(rows: &[Row], streams: &[StreamInfo], out: &mut Vec<u8>) -> Result<(), Memory>
    requires { ArePacked 0 rows.now (length streams.now) }
    ensures ok { OnOk result (out.new.items ≡ out.old.items ++ lines_from 0 (entries_of streams.now rows.now)) }
    ensures kept { (added : List ℕ) × (out.new.items ≡ out.old.items ++ added) }
    ensures full { OnErr result (vec_capacity out.old < vec_len out.old + length (lines_from 0 (entries_of streams.now rows.now))) }
    ensures capacity { vec_capacity out.old ≤ vec_capacity out.new }
{
    let mut rest = rows;
    let mut number = 0;
    while let Some((row, others)) = rest.split_first() {
        match append_row(number, row, streams, out) {
            Ok(()) => {}
            Err(memory) => return Err(memory),
        }
        rest = others;
        number += 1;
    }
    Ok(())
}

/// Appends the line of a link and those of its streams. After `Memory` a part of them stands in the vector.
fn append_row(
    number: u64,
    row: &Row,
    streams: &[StreamInfo],
    out: &mut Vec<u8>,
) -> Result<(), Memory>
    requires { row.now.first + row.now.count ≤ length streams.now }
    ensures ok { OnOk result (out.new.items ≡ out.old.items ++ entry_lines number (entry_of streams.now row.now)) }
    ensures kept { (added : List ℕ) × (out.new.items ≡ out.old.items ++ added) }
    ensures full { OnErr result (vec_capacity out.old < vec_len out.old + length (entry_lines number (entry_of streams.now row.now))) }
    ensures capacity { vec_capacity out.old ≤ vec_capacity out.new }
{
    match out.extend_from_slice(link_line(number, row.info()).as_slice()) {
        Ok(()) => append_streams(streams_of(row, streams), out),
        Err(memory) => Err(memory),
    }
}

/// Appends the lines of streams. After `Memory` a part of them stands in the vector.
fn append_streams(streams: &[StreamInfo], out: &mut Vec<u8>) -> Result<(), Memory>
    ensures ok { OnOk result (out.new.items ≡ out.old.items ++ flat_map stream_line streams.now) }
    ensures kept { (added : List ℕ) × (out.new.items ≡ out.old.items ++ added) }
    ensures full { OnErr result (vec_capacity out.old < vec_len out.old + length (flat_map stream_line streams.now)) }
    ensures capacity { vec_capacity out.old ≤ vec_capacity out.new }
{
    let mut rest = streams;
    while let Some((stream, others)) = rest.split_first() {
        match out.extend_from_slice(stream_line(stream).as_slice()) {
            Ok(()) => {}
            Err(memory) => return Err(memory),
        }
        rest = others;
    }
    Ok(())
}

/// How far the committed bytes go.
fn committed_line(end: u64) -> Line
    ensures { result.text ≡ committed_line end }
{
    let mut line = Line::new();
    line.put_number(end);
    line.put_text(b"committed ");
    line
}

/// A link's number, counted from 0, the offset at which it begins, its length, and how many streams it has.
fn link_line(number: u64, link: LinkInfo) -> Line
    ensures { result.text ≡ link_line number link }
{
    let mut line = Line::new();
    line.put_number(u64::from(link.streams));
    line.put_text(b" ");
    line.put_number(link.length);
    line.put_text(b" ");
    line.put_number(link.start);
    line.put_text(b" ");
    line.put_number(number);
    line.put_text(b"link ");
    line
}

/// A stream's serial, bytes and pages, and whether it has ended.
fn stream_line(stream: &StreamInfo) -> Line
    ensures { result.text ≡ stream_line stream.now }
{
    let mut line = Line::new();
    line.put_text(state_word(stream.ended));
    line.put_text(b" ");
    line.put_number(stream.pages);
    line.put_text(b" ");
    line.put_number(stream.bytes);
    line.put_text(b" ");
    line.put_number(u64::from(stream.serial));
    line.put_text(b"stream ");
    line
}

/// Whether a stream has ended, in a word.
fn state_word(ended: bool) -> &'static [u8]
    ensures word { result.now ≡ state_word ended }
    ensures short { length result.now ≤ 5 }
{
    if ended { b"ended" } else { b"open" }
}
