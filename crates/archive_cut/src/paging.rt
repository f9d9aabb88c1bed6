//! A cut that is given page by page.

use crate::cut::Cut;
use crate::heads::{Said, said_with_size};
use crate::stretch::Stretch;
use ogg_page::{Memory, PageSource, SourceFault};
use std::alloc::Global;

/// How many bytes of a cut are held at once: some of the longest pages.
const ROOM: usize = 1 << 18;

/// What gives the bytes of a cut.
#[derive(Debug, Drop)]
enum Feed {
    Cut(Cut),
    Stretch(Stretch),
}

/// A cut, of which some bytes are held, so that pages are whole. Pages that are passed are held on, one after the other,
/// until they are let go or more is read.
#[derive(Drop)]
pub struct Paged {
    feed: Feed,
    room: Vec<u8>,
    // where the pages begin that were passed, where the next page begins, and how many bytes are held
    passed: usize,
    from: usize,
    to: usize,
}

/// The bytes between two places, as far as there are any.
fn between(bytes: &[u8], from: usize, to: usize) -> &[u8] {
    let (front, _) = bytes.split_at(to.min(bytes.len()));
    let (_, part) = front.split_at(from.min(front.len()));
    part
}

/// Moves the bytes between two places to the front, and returns how many they are.
fn move_to_front(bytes: &mut [u8], from: usize, to: usize) -> usize {
    let to = to.min(bytes.len());
    let from = from.min(to);
    bytes.copy_within(from..to, 0);
    to - from
}

/// What is said of the page at the front, and its size, if its bytes are all there.
fn whole_page(bytes: &[u8]) -> Option<(Said, usize)> {
    match said_with_size(bytes) {
        Some((said, size)) => if size <= bytes.len() {
            Some((said, size))
        } else {
            None
        },
        None => None,
    }
}

fn pull<S: PageSource>(
    feed: &mut Feed,
    source: &mut S,
    buffer: &mut [u8],
) -> Result<usize, SourceFault> {
    match feed {
        Feed::Cut(cut) => cut.pull(source, buffer),
        Feed::Stretch(stretch) => stretch.pull(source, buffer),
    }
}

/// Fills the room behind the first bytes, and returns how many bytes it has then.
fn fill_behind<S: PageSource>(
    feed: &mut Feed,
    source: &mut S,
    room: &mut [u8],
    front: usize,
) -> Result<usize, SourceFault> {
    let front = front.min(room.len());
    let (_, free) = room.split_at_mut(front);
    match pull(feed, source, free) {
        Ok(count) => Ok(front.saturating_add(count)),
        Err(fault) => Err(fault),
    }
}

/// Room for the pages of a cut.
pub fn page_room(alloc: Global) -> Result<Vec<u8>, Memory> {
    let mut room = Vec::new(alloc);
    room.resize(ROOM, 0)?;
    Ok(room)
}

impl Paged {
    /// The pages of a cut, in this room (`page_room`).
    pub fn of_cut(cut: Cut, room: Vec<u8>) -> Paged {
        Paged {
            feed: Feed::Cut(cut),
            room,
            passed: 0,
            from: 0,
            to: 0,
        }
    }

    /// The pages of a stretch of a file.
    pub fn of_stretch(stretch: Stretch, room: Vec<u8>) -> Paged {
        Paged {
            feed: Feed::Stretch(stretch),
            room,
            passed: 0,
            from: 0,
            to: 0,
        }
    }

    /// The room, for another cut.
    pub fn into_room(self) -> Vec<u8> {
        self.room
    }

    /// The bytes that are held and weren't passed.
    fn held(&self) -> &[u8] {
        between(self.room.as_slice(), self.from, self.to)
    }

    /// What is said of the next page, and its size, if it is held as a whole.
    pub fn next(&self) -> Option<(Said, usize)> {
        whole_page(self.held())
    }

    /// Reads more. The pages that were passed are let go. It is false at the cut's end; else the next page is whole then.
    pub fn fill<S: PageSource>(&mut self, source: &mut S) -> Result<bool, SourceFault> {
        let front = move_to_front(self.room.as_mut_slice(), self.from, self.to);
        self.passed = 0;
        self.from = 0;
        self.to = front;
        match fill_behind(&mut self.feed, source, self.room.as_mut_slice(), front) {
            Ok(to) => self.to = to,
            Err(fault) => return Err(fault),
        }
        if self.held().is_empty() {
            return Ok(false);
        }
        if self.next().is_some() {
            Ok(true)
        } else {
            Err(SourceFault)
        }
    }

    /// The bytes of the next page, of this size.
    pub fn page(&self, size: usize) -> &[u8] {
        between(self.held(), 0, size)
    }

    /// The same, to be changed.
    pub fn page_mut(&mut self, size: usize) -> &mut [u8] {
        let to = self.to.min(self.room.len());
        let (front, _) = self.room.as_mut_slice().split_at_mut(to);
        let (_, held) = front.split_at_mut(self.from.min(to));
        let size = size.min(held.len());
        let (page, _) = held.split_at_mut(size);
        page
    }

    /// Passes the next page, of this size.
    pub fn pass(&mut self, size: usize) {
        self.from = self.from.saturating_add(size).min(self.to);
    }

    /// The pages that were passed, one after the other, and not let go.
    pub fn passed(&self) -> &[u8] {
        between(self.room.as_slice(), self.passed, self.from)
    }

    /// Lets go of the pages that were passed.
    pub fn let_go(&mut self) {
        self.passed = self.from;
    }
}
