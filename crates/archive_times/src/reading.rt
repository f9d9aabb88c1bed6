//! Lines, read from any bytes.
ghost use Rattle.std.specs.Prelude.{◌≡◌, ◌↔◌, ◌++◌, ℕ, List, IfSome, IsTrue};
ghost use Rattle.std.specs.Option.{IsSomeAnd};
ghost use Rattle.archive_times.specs.Reading.{line_read, join_read, number_on};
ghost use Rattle.archive_times.specs.Times.{AreLinesOf, Follows, IsNext, behind_feed, last_of, line_text};
ghost use Rattle.archive_times.specs.declared.line.Line.{Line as LineOf};

use crate::line::{Join, Line, is_join};

/// The number at the front, and what follows the byte after it. A number that is too great is cut to the greatest.
pub fn number_at_front(text: &[u8]) -> (u64, &[u8])
    ensures number { result.0 ≡ (number_on 0 text.now).0 }
    ensures rest { result.1.now ≡ (number_on 0 text.now).1 }
{
    let mut value: u64 = 0;
    for (at, byte) in text.iter().enumerate() {
        match byte {
            b'0'..=b'9' => value = value
                .saturating_mul(10)
                .saturating_add(u64::from(*byte - b'0')),
            _ => return (value, &text[at + 1..]),
        }
    }
    (value, &[])
}

fn join_read(text: &[u8]) -> Option<Join>
    ensures { result ≡ join_read text.now }
{
    if let [b'-', ..] = text {
        return None;
    }
    let (begin, rest) = number_at_front(text);
    let (begun, _) = number_at_front(rest);
    Some(Join { begin, begun })
}

/// The line that the text begins with, if it begins with one.
fn line_read(text: &[u8]) -> Line
    ensures { result ≡ line_read text.now }
{
    let (offset, rest) = number_at_front(text);
    let (time, rest) = number_at_front(rest);
    let join = join_read(rest);
    Line { offset, time, join }
}

fn follows(line: Line, last: Option<Line>) -> bool
    ensures { IsTrue result ↔ Follows last line }
{
    match last {
        Some(last) => last.offset < line.offset && last.time <= line.time,
        None => true,
    }
}

fn is_next(line: Line, last: Option<Line>, committed: u64) -> bool
    ensures { IsTrue result ↔ IsNext committed last line }
{
    line.offset <= committed && is_join(line.join, line.offset) && follows(line, last)
}

/// The line at the front of the text and what follows it, if it may come after `last` and these bytes are committed.
pub fn next_line(text: &[u8], last: Option<Line>, committed: u64) -> Option<(Line, &[u8])>
    // Exactly the texts that are written are read.
    ensures line { IfSome result (λ (line, rest). IsNext committed last line × (text.now ≡ line_text line ++ rest.now)) }
    ensures each { (line : LineOf) (rest : List ℕ) → IsNext committed last line → text.now ≡ line_text line ++ rest
        → IsSomeAnd result (λ (read, after). (read ≡ line) × (after.now ≡ rest)) }
{
    let line = line_read(text);
    // What was read may be no line at all, or one with zeros in front: only its own text is taken.
    let written = line.text();
    match text.strip_prefix(written.as_slice()) {
        Some(rest) if is_next(line, last, committed) => Some((line, rest)),
        _ => None,
    }
}

/// The last of the lines at the front of the text, or `last` if there is none, and what follows it.
pub fn last_line(text: &[u8], last: Option<Line>, committed: u64) -> (Option<Line>, &[u8])
    ensures { (lines : List LineOf) × AreLinesOf committed last text.now lines result.1.now × (result.0 ≡ last_of last lines) }
{
    let mut last = last;
    let mut rest = text;
    while let Some((line, after)) = next_line(rest, last, committed) {
        last = Some(line);
        rest = after;
    }
    (last, rest)
}

/// What follows the first line feed.
pub fn after_line_feed(text: &[u8]) -> &[u8]
    ensures { result.now ≡ behind_feed text.now }
{
    for (at, byte) in text.iter().enumerate() {
        if *byte == b'\n' {
            return &text[at + 1..];
        }
    }
    &[]
}
