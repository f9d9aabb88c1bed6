//! A line, and its text.
ghost use Rattle.std.specs.Prelude.{◌≡◌, ◌≤◌, ◌↔◌, ℕ, IfSome, IsSome, IsTrue};
ghost use Rattle.archive_times.specs.Asked.{OffsetRises, line_after};
ghost use Rattle.archive_times.specs.Times.{IsJoin, IsNext, line_text};

use text_line::Line as LineText;

/// The greatest length of a line: four numbers of 20 digits, and what stands between them.
pub const LONGEST_LINE: usize = 84;

/// Where the link that is open is joined.
#[derive(Clone, Copy, Debug, PartialEq, Eq)]
pub struct Join {
    /// Where the link's first page begins.
    pub begin: u64,
    /// Where the pages end with which the link began.
    pub begun: u64,
}

/// So many bytes of the file were committed at this time.
#[derive(Clone, Copy, Debug, PartialEq, Eq)]
pub struct Line {
    /// How many bytes were committed.
    pub offset: u64,
    /// In milliseconds since 1970.
    pub time: u64,
    /// The link that was open, if one was.
    pub join: Option<Join>,
}

pub(crate) fn is_join(join: Option<Join>, offset: u64) -> bool
    ensures { IsTrue result ↔ IsJoin offset join }
{
    match join {
        Some(join) => join.begin <= join.begun && join.begun <= offset,
        None => true,
    }
}

fn offset_rises(last: Option<Line>, offset: u64) -> bool
    ensures { IsTrue result ↔ OffsetRises last offset }
{
    match last {
        Some(last) => last.offset < offset,
        None => true,
    }
}

impl Line {
    /// The line that is written after `last` when `offset` bytes are committed, if it tells of more than the last one.
    /// A clock that goes back gives the last time again.
    pub fn after(last: Option<Line>, offset: u64, now: u64, join: Option<Join>) -> Option<Line>
        ensures line { IfSome result (λ line. line ≡ line_after last offset now join) }
        ensures some { IsSome result ↔ (OffsetRises last offset × IsJoin offset join) }

        // Whoever reads takes it, if these bytes are committed.
        ensures next { IfSome result (λ line. (committed : ℕ) → offset ≤ committed → IsNext committed last line) }
    {
        if !offset_rises(last, offset) || !is_join(join, offset) {
            return None;
        }
        let time = match last {
            Some(last) => last.time.max(now),
            None => now,
        };
        Some(Line { offset, time, join })
    }

    /// The line as it stands in its file.
    pub fn text(self) -> LineText
        ensures { result.text ≡ line_text self }
    {
        let mut text = LineText::new();
        match self.join {
            Some(join) => {
                text.put_number(join.begun);
                text.put_text(b" ");
                text.put_number(join.begin);
            }
            None => text.put_text(b"- -"),
        }
        text.put_text(b" ");
        text.put_number(self.time);
        text.put_text(b" ");
        text.put_number(self.offset);
        text
    }
}
