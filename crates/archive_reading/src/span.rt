//! When a file was recorded.
ghost use Rattle.std.specs.Prelude.{◌≡◌, ◌↔◌, ◌<◌, ◌^◌, IsTrue};
ghost use Rattle.archive_reading.specs.Span.{GoesOnWith, IsAfter, IsGap, IsUntil, Overlaps, begin_of, end_of, span_of, told_bytes, told_end};

use archive_names::{LAST_SECOND, Name};
use archive_times::Line;

/// For how long there must be nothing, that it is told, in milliseconds.
pub const GAP: u64 = 10_000;

/// When a file was recorded, in milliseconds since 1970.
#[derive(Clone, Copy, Debug, PartialEq, Eq)]
pub struct Span {
    /// When it was begun: the second that its name tells.
    pub begin: u64,
    /// The last time of what is in it.
    pub end: u64,
}

/// When a file was begun, in milliseconds since 1970: the second that its name tells.
pub fn begin_of(name: Name) -> u64
    ensures { result ≡ begin_of name }
{
    name.begin.min(LAST_SECOND) * 1000
}

fn told_end(begin: u64, last: Option<Line>) -> u64
    ensures { result ≡ told_end begin last }
{
    match last {
        Some(line) => line.time.max(begin),
        None => begin,
    }
}

fn told_bytes(last: Option<Line>) -> u64
    ensures { result ≡ told_bytes last }
{
    match last {
        Some(line) => line.offset,
        None => 0,
    }
}

/// When the file was recorded, by its last line of times and how many bytes of it are committed. `later` is when the
/// next file was begun, or now: that is the time of what follows the last line.
pub fn span_of(name: Name, last: Option<Line>, bytes: u64, later: u64) -> Span
    ensures { result ≡ span_of name last bytes later }
{
    let begin = begin_of(name);
    let told = told_end(begin, last);
    let end = if told_bytes(last) < bytes {
        told.max(later)
    } else {
        told
    };
    Span { begin, end }
}

fn is_after(since: Option<u64>, time: u64) -> bool
    ensures { IsTrue result ↔ IsAfter since time }
{
    match since {
        Some(since) => since < time,
        None => true,
    }
}

fn is_until(until: Option<u64>, time: u64) -> bool
    ensures { IsTrue result ↔ IsUntil until time }
{
    match until {
        Some(until) => time <= until,
        None => true,
    }
}

/// Whether something of the file may lie after `since` and not after `until`.
pub fn overlaps(span: Span, since: Option<u64>, until: Option<u64>) -> bool
    ensures { IsTrue result ↔ Overlaps since until span }
{
    is_after(since, span.end) && is_until(until, span.begin)
}

/// Whether the first link of the file goes on with the last one of the file before, by their names.
pub fn goes_on_with(before: Name, next: Name) -> bool
    ensures { IsTrue result ↔ GoesOnWith before next }
{
    next.goes_on && before.number.checked_add(1) == Some(next.number)
}

/// Whether between a file and the next one there is nothing for so long that it is told.
pub fn is_gap(before: Span, next: Span) -> bool
    ensures { IsTrue result ↔ IsGap before next }
{
    match next.begin.checked_sub(before.end) {
        Some(between) => between >= GAP,
        None => false,
    }
}
