//! Where a file stood at a time.
ghost use Rattle.std.specs.Prelude.{◌≡◌, ◌+◌, ℕ, List, None, nat_le};
ghost use Rattle.archive_times.specs.Times.{AreLinesOf, last_of};
ghost use Rattle.archive_times.specs.declared.line.Line.{Line as LineOf};
ghost use Rattle.archive_cut.specs.Placing.{at_begin, at_end, at_line, end_of, stood_at};

use archive_times::{Join, Line, last_line, line_at, lines_are_known_by_their_text, next_line};

/// By how much the next file's beginning may lie after the time in its name, in milliseconds: names tell seconds.
const NAMED_WITHIN: u64 = 1000;

/// What is known of a file beside its lines of times. Times are in milliseconds since 1970.
#[derive(Clone, Copy, Debug, PartialEq, Eq)]
pub struct Recorded {
    /// When the file was begun, by its name.
    pub begin: u64,
    /// When the next file was begun, by its name, or now: the time of what follows the last line.
    pub later: u64,
    /// How many of its bytes are committed.
    pub committed: u64,
}

/// Where a file stood at a time.
#[derive(Clone, Copy, Debug, PartialEq, Eq)]
pub struct Stand {
    /// How many bytes were committed.
    pub offset: u64,
    /// The link that was open, if one was and more follows.
    pub join: Option<Join>,
}

/// Whether all of the file was committed by then, whatever its lines say: the next one was begun a second ago.
pub fn is_before(later: u64, time: u64) -> bool
    ensures { result ≡ nat_le (later + 1000) time }
{
    match later.checked_add(NAMED_WITHIN) {
        Some(sure) => sure <= time,
        None => false,
    }
}

fn at_end(file: Recorded) -> Stand
    ensures { result ≡ at_end file }
{
    Stand {
        offset: file.committed,
        join: None,
    }
}

fn at_line(line: Option<Line>) -> Stand
    ensures { result ≡ at_line line }
{
    match line {
        Some(line) => Stand {
            offset: line.offset,
            join: line.join,
        },
        None => Stand {
            offset: 0,
            join: None,
        },
    }
}

/// The time of what follows the last line.
fn end_of(file: Recorded, last: Option<Line>) -> u64
    ensures { result ≡ end_of file last }
{
    match last {
        Some(last) => last.time.max(file.later),
        None => file.later.max(file.begin),
    }
}

/// The last of the lines at the front of the text.
fn last_of(times: &[u8], committed: u64) -> Option<Line>
    ensures { (lines : List LineOf) (rest : List ℕ) → AreLinesOf committed None times.now lines rest
        → result ≡ last_of None lines }
{
    lines_are_known_by_their_text();
    let (last, _) = last_line(times, None, committed);
    last
}

/// Where the file stood at the time, by the text of its lines. What follows the last line has the time at which the next
/// file was begun.
pub fn stood_at(times: &[u8], file: Recorded, time: u64) -> Stand
    ensures { (lines : List LineOf) (rest : List ℕ) → AreLinesOf file.committed None times.now lines rest
        → result ≡ stood_at file lines time }
{
    if is_before(file.later, time) {
        return at_end(file);
    }
    if time < file.begin {
        return at_line(None);
    }
    let last = last_of(times, file.committed);
    if end_of(file, last) <= time {
        return at_end(file);
    }
    at_line(line_at(times, file.committed, time))
}

/// The time of the first of the lines at the front of the text that tells of this many bytes or more.
fn time_from(times: &[u8], committed: u64, offset: u64) -> Option<u64> {
    let mut last = None;
    let mut rest = times;
    while let Some((line, after)) = next_line(rest, last, committed) {
        if line.offset >= offset {
            return Some(line.time);
        }
        last = Some(line);
        rest = after;
    }
    None
}

/// The link that begins where the file does, by the lines at the front of the text. There is none if they don't speak of
/// it.
pub fn first_link(times: &[u8], committed: u64) -> Option<Join> {
    let mut last = None;
    let mut rest = times;
    while let Some((line, after)) = next_line(rest, last, committed) {
        if let Some(link) = line.join {
            return if link.begin == 0 { Some(link) } else { None };
        }
        last = Some(line);
        rest = after;
    }
    None
}

/// The last link of which the lines at the front of the text speak.
pub fn last_link(times: &[u8], committed: u64) -> Option<Join> {
    let mut found = None;
    let mut last = None;
    let mut rest = times;
    while let Some((line, after)) = next_line(rest, last, committed) {
        if line.join.is_some() {
            found = line.join;
        }
        last = Some(line);
        rest = after;
    }
    found
}

/// When the first `offset` bytes of the file were committed.
pub fn time_of(times: &[u8], file: Recorded, offset: u64) -> u64 {
    match time_from(times, file.committed, offset) {
        Some(time) => time.max(file.begin),
        None => end_of(file, last_of(times, file.committed)),
    }
}

/// By which time a cut counts the first `offset` bytes of the file. A second after the next file was begun it counts all
/// of them, whatever the lines say.
pub fn counted_at(times: &[u8], file: Recorded, offset: u64) -> u64 {
    let time = time_of(times, file, offset);
    match file.later.checked_add(NAMED_WITHIN) {
        Some(sure) => time.min(sure),
        None => time,
    }
}
