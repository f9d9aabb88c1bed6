//! The stream that a line belongs to, and the packet that it becomes.
ghost use Rattle.std.specs.Prelude.{◌≡◌, ◌<◌, ◌≤◌, ◌++◌, ◌∷◌, ◌+◌, ◌^◌, [], Ok, Err, OnOk, OnErr, IfOk, IfErr, MatchResult, Option, List, ℕ, length, position, Some, None, ◌==◌};
ghost use Rattle.line_packets.specs.Placing.{entries_of, left_line, left_of, named_from, placed};

use crate::Memory;
use crate::streams::Streams;
use ogg_command::{Entry, Listed};
use text_line::Line;

/// The longest line that is recorded, in bytes.
pub const LONGEST_LINE: usize = 8_388_608;

/// Why a line is left out.
#[derive(Clone, Copy, Debug, PartialEq, Eq)]
pub enum LeftOut {
    /// It has more bytes than a line may have.
    TooLong,
    /// No stream has the name in front of its first tab, or it has no tab.
    NoStream,
}

/// The line that tells that the line with this number is left out.
pub fn left_line(number: u64, left: LeftOut) -> Line
    ensures { result.text ≡ left_line number left }
{
    let mut line = Line::new();
    match left {
        LeftOut::TooLong => line.put_text(b" TooLong"),
        LeftOut::NoStream => line.put_text(b" NoStream"),
    }
    line.put_number(number);
    line.put_text(b"left out ");
    line
}

/// The place of a name, if there is one.
fn named(names: &[Listed<u8>], name: &[u8]) -> Option<usize>
    ensures place { result ≡ named_from 0 name.now names.now }
    ensures inside { (place : ℕ) → result ≡ Some place → place < length names.now }
{
    let mut rest = names;
    let mut place = 0;
    while let Some((other, others)) = rest.split_first() {
        if *other.as_slice() == *name {
            return Some(place);
        }
        rest = others;
        place += 1;
    }
    None
}

/// Where the first tab stands.
fn first_tab(line: &[u8]) -> Option<usize>
    ensures { result ≡ position (λ byte. byte == 9) line.now }
{
    line.iter().position(|byte| *byte == b'\t')
}

/// The serial of the stream that a line belongs to, and its packet.
fn placed<'a>(streams: &Streams, line: &'a [u8]) -> Result<(u32, &'a [u8]), LeftOut>
    ensures { MatchResult result (λ (serial, packet). placed streams.now line.now ≡ Ok (serial, packet.now))
        (λ left. placed streams.now line.now ≡ Err left) }
{
    if !streams.tagged {
        return Ok((1, line));
    }
    let Some(tab) = first_tab(line) else {
        return Err(LeftOut::NoStream);
    };
    match named(streams.names.as_slice(), &line[..tab]) {
        Some(place) => Ok((place as u32 + 1, &line[tab + 1..])),
        None => Err(LeftOut::NoStream),
    }
}

/// Appends the entry of a line that isn't too long, or says why it has none. After `Memory` nothing is appended.
fn put_placed(
    streams: &Streams,
    line: &[u8],
    position: u64,
    entries: &mut Vec<Entry>,
) -> Result<Option<LeftOut>, Memory>
    requires { length line.now ≤ 8388608 }
    ensures left { IfOk result (λ left. left ≡ left_of streams.now line.now) }
    ensures entries { OnOk result (entries.new.items ≡ entries.old.items ++ entries_of streams.now position line.now) }
{
    let (serial, packet) = match placed(streams, line) {
        Ok(placed) => placed,
        Err(left) => return Ok(Some(left)),
    };
    let packet = Listed::of(packet.to_vec(*entries.allocator())?);
    entries.push(Entry {
        serial,
        position,
        packet,
    })?;
    Ok(None)
}

/// Appends the entry of a line, or says why it has none. After `Memory` nothing is appended.
pub(crate) fn put_line(
    streams: &Streams,
    line: &[u8],
    position: u64,
    entries: &mut Vec<Entry>,
) -> Result<Option<LeftOut>, Memory>
    ensures left { IfOk result (λ left. left ≡ left_of streams.now line.now) }
    ensures entries { OnOk result (entries.new.items ≡ entries.old.items ++ entries_of streams.now position line.now) }
{
    if line.len() > LONGEST_LINE {
        return Ok(Some(LeftOut::TooLong));
    }
    put_placed(streams, line, position, entries)
}
