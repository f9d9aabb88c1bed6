//! What `verify` decides of a file.
ghost use Rattle.std.specs.Prelude.{◌≡◌, ◌↔◌, ◌+◌, ◌∷◌, ◌++◌, [], ℕ, List, None, IsTrue, drop, length, min};
ghost use Rattle.file_actions.specs.Checks.{IsReached, IsSoundTail, LacksBefore, fault_after, is_excused, last_fault, seconds_left};
ghost use Rattle.archive_times.specs.Times.{AreLinesOf, has_no_line_feed, last_of, times_text};
ghost use Rattle.archive_times.specs.declared.line.Line.{Line as LineOf};
ghost use Rattle.file_actions.specs.Times.{AreBelow, HavePassed, IsFirstFault, first_of, first_text, most};

use archive_names::Name;
use archive_reading::Listed;
use archive_times::{Line, next_line};

/// Whether `tail` bytes may follow the last page, the first of which is this one. The file that is written now may
/// have what a stop leaves there.
pub(crate) fn is_sound_tail(is_written: bool, tail: u64, first: u8) -> bool
    ensures { IsTrue result ↔ IsSoundTail is_written tail first }
{
    if is_written {
        tail < 2 || first == 0
    } else {
        tail == 0
    }
}

/// Whether a file goes on with one that isn't there. `before` is the file before it in the folder.
pub(crate) fn lacks_before(before: Option<Listed>, name: Name) -> bool
    ensures { IsTrue result ↔ LacksBefore before name }
{
    match before {
        Some(before) => {
            name.goes_on
                && !before.is_kept
                && before.name.number.checked_add(1) != Some(name.number)
        }
        None => false,
    }
}

/// The seconds that are left, if what is done took `passed` milliseconds. They are cut where they would be too many.
pub(crate) fn seconds_left(passed: u64, done: u64, total: u64) -> u64
    ensures { result ≡ seconds_left passed done total }
{
    passed.saturating_mul(total.saturating_sub(done)) / done.max(1) / 1000
}

/// What is wrong with lines of times, at a byte of their text.
#[derive(Clone, Copy, Debug, PartialEq, Eq)]
pub(crate) enum TimesFault {
    /// No line stands here that may follow the one before.
    Line(u64),
    /// A line stands here whose offset is none between two pages.
    Page(u64),
}

/// The first fault of lines, when a place passes. The next line stands at this byte of their text.
fn fault_after(
    fault: Option<TimesFault>,
    next: Option<Line>,
    at: u64,
    place: u64,
) -> Option<TimesFault>
    ensures { result ≡ fault_after fault next at place }
{
    match (fault, next) {
        (Some(fault), _) => Some(fault),
        (None, Some(line)) if line.offset < place => Some(TimesFault::Page(at)),
        (None, _) => None,
    }
}

/// Whether the next line speaks of this place.
fn is_reached(next: Option<Line>, place: u64) -> bool
    ensures { IsTrue result ↔ IsReached next place }
{
    match next {
        Some(line) => line.offset == place,
        None => false,
    }
}

/// Whether a text has no line feed.
fn is_torn(text: &[u8]) -> bool
    ensures { result ≡ has_no_line_feed text.now }
{
    text.iter().all(|byte| *byte != b'\n')
}

/// Whether what follows the lines is no fault.
fn is_excused(is_written: bool, rest: &[u8]) -> bool
    ensures { result ≡ is_excused is_written rest.now }
{
    match rest {
        [] => true,
        [_, ..] => is_written && is_torn(rest),
    }
}

/// The first fault of lines, after all places.
fn last_fault(
    is_written: bool,
    fault: Option<TimesFault>,
    next: Option<Line>,
    at: u64,
    rest: &[u8],
) -> Option<TimesFault>
    ensures { result ≡ last_fault is_written fault next at rest.now }
{
    match (fault, next) {
        (Some(fault), _) => Some(fault),
        (None, Some(_)) => Some(TimesFault::Page(at)),
        (None, None) => {
            if is_excused(is_written, rest) {
                None
            } else {
                Some(TimesFault::Line(at))
            }
        }
    }
}

/// The line at the front of a text that may follow the last one, and how many bytes come after it. If there is none,
/// that is the whole text.
fn line_on(text: &[u8], last: Option<Line>) -> (Option<Line>, usize)
    ensures { (left : List LineOf) (rest : List ℕ) → AreLinesOf most last text.now left rest
        → (result.0 ≡ first_of left) × (result.1 + length (times_text (first_text left)) ≡ length text.now) }
{
    match next_line(text, last, u64::MAX) {
        Some((line, after)) => (Some(line), after.len()),
        None => (None, text.len()),
    }
}

/// Lines of times, compared with the places between pages as these pass.
#[derive(Debug, Drop)]
pub(crate) struct Places {
    text: Vec<u8>,
    /// The line that is waited for.
    next: Option<Line>,
    /// Where it begins in the text, or what is no line.
    at: usize,
    /// Where it ends, or what is no line begins.
    end: usize,
    fault: Option<TimesFault>,
}

impl Places {
    /// No place has passed.
    pub(crate) fn of(text: Vec<u8>) -> Places
        ensures { (lines : List LineOf) (rest : List ℕ) → AreLinesOf most None text.items lines rest
            → HavePassed [] lines rest result }
    {
        let mut places = Places {
            text,
            next: None,
            at: 0,
            end: 0,
            fault: None,
        };
        places.step();
        places
    }

    /// What follows the line.
    fn rest(&self) -> &[u8]
        ensures { result.now ≡ drop (min self.now.end (length self.now.text.items)) self.now.text.items }
    {
        let text = self.text.as_slice();
        let (_, rest) = text.split_at(self.end.min(text.len()));
        rest
    }

    /// Goes on to the next line.
    fn step(&mut self)
        ensures line { (front left : List LineOf) (rest : List ℕ) → AreLinesOf most None self.old.text.items (front ++ left) rest
            → self.old.next ≡ last_of None front → self.old.end ≡ length (times_text front)
            → (self.new.next ≡ first_of left) × (self.new.end ≡ length (times_text (front ++ first_text left))) }
        ensures at { self.new.at ≡ self.old.end }
        ensures same { (self.new.text.items ≡ self.old.text.items) × (self.new.fault ≡ self.old.fault) }
    {
        let (next, left) = line_on(self.rest(), self.next);
        self.at = self.end;
        self.end = self.text.len().saturating_sub(left);
        self.next = next;
    }

    /// A page begins at this place, or the last one ends there.
    pub(crate) fn pass(&mut self, place: u64)
        ensures { (places : List ℕ) (lines : List LineOf) (rest : List ℕ) → HavePassed places lines rest self.old
            → AreBelow place places → HavePassed (places ++ place ∷ []) lines rest self.new }
    {
        self.fault = fault_after(self.fault, self.next, self.at as u64, place);
        if is_reached(self.next, place) {
            self.step();
        }
    }

    /// The first fault, after all places. The last line of a file that is written now may be torn.
    pub(crate) fn fault(&self, is_written: bool) -> Option<TimesFault>
        ensures { (places : List ℕ) (lines : List LineOf) (rest : List ℕ) → HavePassed places lines rest self.now
            → IsFirstFault is_written places lines rest result }
    {
        last_fault(
            is_written,
            self.fault,
            self.next,
            self.at as u64,
            self.rest(),
        )
    }
}
