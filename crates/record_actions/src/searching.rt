//! How far a search for the next page has come, in bytes that are of no page.
ghost use Rattle.std.specs.Prelude.{◌≡◌, ◌<◌, ◌≤◌, ◌-◌, ◌*◌, ◌^◌, IfSome, IfNone, min};
ghost use Rattle.record_actions.specs.Searching.{from_line, searched_line};

use text_line::Line;

/// Once so many bytes without a page have come, that is told.
const MANY: u64 = 1_048_576;

/// A search for the next page of an input.
#[derive(Clone, Copy, Debug, PartialEq, Eq)]
pub struct Search {
    // the offset behind the last page
    from: u64,
    // how many bytes without a page are told next
    next: u64,
}

impl Search {
    /// A search from this offset on.
    pub fn at(from: u64) -> Search
        ensures { result ≡ record { from = from; next = 1048576 } }
    {
        Search { from, next: MANY }
    }

    /// The input was read up to this offset, and there was no page. How many bytes without a page are to be told, if any
    /// are: those so far once they are a mebibyte, and then each time that they are twice as many.
    pub fn passed(&mut self, offset: u64) -> Option<u64>
        ensures few { IfNone result ((offset - self.old.from < self.old.next) × (self.new ≡ self.old)) }
        ensures many { IfSome result (λ bytes. (bytes ≡ offset - self.old.from) × (self.old.next ≤ bytes)
            × (self.new.from ≡ self.old.from) × (self.new.next ≡ min (2 * bytes) (2 ^ 64 - 1))) }
    {
        let bytes = offset.saturating_sub(self.from);
        if bytes < self.next {
            return None;
        }
        self.next = bytes.saturating_mul(2);
        Some(bytes)
    }

    /// The line that tells of so many bytes without a page.
    pub fn line(self, bytes: u64) -> Line
        ensures { result.text ≡ searched_line self.from bytes }
    {
        let mut line = from(self.from);
        line.put_number(bytes);
        line.put_text(b"no page in the ");
        line
    }
}

/// The end of such a line, which says where the bytes begin.
fn from(offset: u64) -> Line
    ensures text { result.text ≡ from_line offset }
    ensures room { 60 ≤ result.room }
{
    let mut line = Line::new();
    line.put_text(b" on");
    line.put_number(offset);
    line.put_text(b" bytes from ");
    line
}
