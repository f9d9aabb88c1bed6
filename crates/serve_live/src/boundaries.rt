//! Where a listener joins the link that is recorded.
ghost use Rattle.std.specs.Prelude.{◌≡◌, ℕ, [], ◌∷◌, ◌++◌, IfOk};
ghost use Rattle.serve_live.specs.Boundaries.{begun_at, forgotten, gone_on, may_forget, no_link, place_to_join};

use crate::listener::JoinPlace;
use circular_buffer::HeapCircularBuffer;
use ogg_page::Memory;
use std::alloc::Global;
use std::marker::Model;

/// A listener joins where at least this many bytes are committed from there on, if the link has as many: a browser
/// plays nothing before it has some 32 KiB.
pub const AHEAD: u64 = 65_536;

/// How many boundaries are kept. Each stands at least 27 bytes after the one before, since no page is shorter. So 2,428
/// of them at most have fewer than `AHEAD` bytes after them; one more is joined, and there is room for the next.
const MOST: usize = 2_430;

/// The boundaries between commands at which a listener may join the open link, as the recorder's answers tell them.
/// Offsets are those of the file. Memory is taken when it is made, and never again.
#[derive(Drop)]
pub struct Boundaries {
    begin: u64,
    begun: u64,
    kept: HeapCircularBuffer<u64>,
}

impl Model for Boundaries {
    ghost use Rattle.std.specs.Prelude.{◌≡◌};
    ghost use Rattle.serve_live.specs.Boundaries.{BoundariesState};

    ghost Value = { BoundariesState };

    ghost view = { λ b. record { begin = b.begin; begun = b.begun; kept = b.kept.items; room = b.kept.capacity } };

    ghost invariant = { λ b. b.kept.capacity ≡ 2430 };
}

/// Forgets the oldest boundaries as long as the next one has enough bytes after it.
fn forget(kept: &mut HeapCircularBuffer<u64>, end: u64)
    ensures kept { kept.new.items ≡ forgotten end kept.old.items }
    ensures room { kept.new.capacity ≡ kept.old.capacity }
{
    'old: while may_forget(kept, end) {
        kept.pop_front();
    }
}

/// Whether enough bytes are committed after the second of the boundaries, if there is one.
fn may_forget(kept: &HeapCircularBuffer<u64>, end: u64) -> bool
    ensures { result ≡ may_forget end kept.now.items }
{
    match kept.get(1) {
        Some(place) => end.saturating_sub(*place) >= AHEAD,
        None => false,
    }
}

impl Boundaries {
    /// No link is open.
    pub fn new(alloc: Global) -> Result<Boundaries, Memory>
        ensures { IfOk result (λ boundaries. boundaries ≡ no_link) }
    {
        Ok(Boundaries {
            begin: 0,
            begun: 0,
            kept: HeapCircularBuffer::with_capacity(alloc, MOST)?,
        })
    }

    /// A `Begin` was kept: its pages stand from `begin` up to `end`.
    pub fn begun(&mut self, begin: u64, end: u64)
        ensures { self.new ≡ begun_at begin end }
    {
        self.begin = begin;
        self.begun = end;
        self.kept.clear();
        self.kept.push_back(end);
    }

    /// Another command was kept, whose pages end at `end`, and the link is still open. Of a link whose `Begin` isn't
    /// known, as of one that was found open, no boundary is kept.
    pub fn went_on(&mut self, end: u64)
        ensures { self.new ≡ gone_on end self.old }
    {
        if self.kept.is_empty() {
            return;
        }
        self.kept.push_back(end);
        forget(&mut self.kept, end);
    }

    /// The link has ended. Nobody joins it.
    pub fn ended(&mut self)
        ensures { self.new ≡ record self.old { kept = [] } }
    {
        self.kept.clear();
    }

    /// Where a listener joins the open link: at the newest boundary from which `AHEAD` bytes are committed, or at the
    /// end of its beginning.
    pub fn place(&self) -> Option<JoinPlace>
        ensures { result ≡ place_to_join self.now }
    {
        let boundary = *self.kept.front()?;
        Some(JoinPlace {
            begin: self.begin,
            begun: self.begun,
            boundary,
        })
    }
}
