//! What the lines say of a time, and when one is written.
ghost use Rattle.std.specs.Prelude.{◌≡◌, ℕ, List, None, ◌↔◌, IsTrue};
ghost use Rattle.archive_times.specs.Asked.{IsDue, IsUntold, line_at};
ghost use Rattle.archive_times.specs.Times.{AreLinesOf};
ghost use Rattle.archive_times.specs.declared.line.Line.{Line as LineOf};

use crate::line::{Join, Line};
use crate::reading::next_line;

/// Whether a line is to be written, by what the clock said at the last one and what it says now, in milliseconds.
pub fn is_due(written: Option<u64>, now: u64) -> bool
    ensures { IsTrue result ↔ IsDue written now }
{
    match written {
        Some(written) => written.abs_diff(now) >= 1000,
        None => true,
    }
}

/// Whether a line is to be written since none tells yet of the link that is open, by the last line and by where the link is
/// joined.
pub fn is_untold(last: Option<Line>, join: Option<Join>) -> bool
    ensures { IsTrue result ↔ IsUntold last join }
{
    match (last, join) {
        (_, None) => false,
        (None, Some(_)) => true,
        (Some(last), Some(join)) => last.offset < join.begun,
    }
}

/// The last of the lines at the front of the text whose time is at most this one, if one is.
pub fn line_at(text: &[u8], committed: u64, time: u64) -> Option<Line>
    ensures { (lines : List LineOf) (rest : List ℕ) → AreLinesOf committed None text.now lines rest
        → result ≡ line_at None lines time }
{
    let mut last = None;
    let mut rest = text;
    while let Some((line, after)) = next_line(rest, last, committed) {
        if line.time > time {
            return last;
        }
        last = Some(line);
        rest = after;
    }
    last
}
