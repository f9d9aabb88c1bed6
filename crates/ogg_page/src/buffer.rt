//! Room for one page, in which it is made piece by piece.
ghost use Rattle.std.specs.Prelude.{◌≡◌, ◌+◌, ◌≤◌, ◌++◌, ◌∷◌, [], Some, IfOk, IsSome, length, sum};
ghost use Rattle.ogg_page.specs.Page.{Page, page_bytes, page_of};
ghost use Rattle.ogg_page.specs.PageInWork.{PageInWork, started};
ghost use Rattle.ogg_page.specs.Sizes.{most_values, room_size};

use crate::Memory;
use crate::head::PageHead;
use crate::placing::{close_room, put_at};
use crate::sizes::{FIXED_SIZE, LONGEST_PAGE};
use std::alloc::Global;
use std::marker::Model;

/// The longest page, and the byte that closes a file after it.
pub(crate) const ROOM: usize = LONGEST_PAGE + 1;

/// Room for one page, made once. A page is made in it: [`start`](PageBuffer::start) with its lacing
/// values, [`put`](PageBuffer::put) its body, [`finish`](PageBuffer::finish) with its head.
#[derive(Drop)]
pub struct PageBuffer {
    room: Vec<u8>,
    values: usize,
    size: usize,
    head: Option<PageHead>,
}

impl Model for PageBuffer {
    ghost use Rattle.ogg_page.specs.PageInWork.{PageInWork, IsInRoom, lacing_in, body_in, finished_in};

    ghost Value = { PageInWork };

    ghost view = { λ b. record {
      lacing = lacing_in b.values b.room.items;
      body = body_in b.values b.size b.room.items;
      finished = finished_in b.head b.values b.size b.room.items;
    } };

    ghost invariant = { λ b. IsInRoom b.head b.values b.size b.room.items };
}

impl PageBuffer {
    /// Makes the room, of 65,308 bytes. No other call takes memory. The buffer is then as after a
    /// `start` with no values.
    pub fn new(alloc: Global) -> Result<PageBuffer, Memory>
        ensures { IfOk result (λ buffer. buffer ≡ started []) }
    {
        let mut room = Vec::with_capacity(alloc, ROOM)?;
        room.resize(ROOM, 0)?;
        Ok(PageBuffer::over(room))
    }

    /// A buffer in this room.
    pub(crate) fn over(room: Vec<u8>) -> PageBuffer
        requires { length room.items ≡ room_size }
        ensures { result ≡ started [] }
    {
        PageBuffer {
            room,
            values: 0,
            size: 0,
            head: None,
        }
    }

    /// The room, whatever lies in it.
    pub(crate) fn into_room(self) -> Vec<u8>
        ensures { length result.items ≡ room_size }
    {
        self.room
    }

    /// Begins a page with these lacing values, at most 255.
    pub fn start(&mut self, lacing: &[u8])
        requires { length lacing.now ≤ most_values }
        ensures { self.new ≡ started lacing.now }
    {
        put_at(&mut self.room, FIXED_SIZE, lacing);
        self.values = lacing.len();
        self.size = 0;
        self.head = None;
    }

    /// Appends to the page's body, which stays at most as long as its lacing values add up to.
    pub fn put(&mut self, bytes: &[u8])
        requires { length self.old.body + length bytes.now ≤ sum self.old.lacing }
        ensures { self.new ≡ record { lacing = self.old.lacing; body = self.old.body ++ bytes.now; finished = self.old.finished } }
    {
        put_at(&mut self.room, FIXED_SIZE + self.values + self.size, bytes);
        self.size += bytes.len();
    }

    /// Makes it a page. The body is as long as the lacing values add up to.
    pub fn finish(&mut self, head: &PageHead)
        requires { length self.old.body ≡ sum self.old.lacing }
        ensures { self.new ≡ record {
          lacing = self.old.lacing;
          body = self.old.body;
          finished = Some (page_of head.now self.old.lacing self.old.body);
        } }
    {
        close_room(&mut self.room, head, self.values, self.size);
        self.head = Some(*head);
    }

    /// The bytes of the finished page.
    pub fn bytes(&self) -> &[u8]
        requires { IsSome self.now.finished }
        ensures { (page : Page) → self.now.finished ≡ Some page → result.now ≡ page_bytes page }
    {
        &self.room[..FIXED_SIZE + self.values + self.size]
    }

    /// The bytes of the finished page, and the byte 0 that closes a file after it.
    pub fn closed(&self) -> &[u8]
        requires { IsSome self.now.finished }
        ensures { (page : Page) → self.now.finished ≡ Some page → result.now ≡ page_bytes page ++ 0 ∷ [] }
    {
        &self.room[..FIXED_SIZE + self.values + self.size + 1]
    }
}
