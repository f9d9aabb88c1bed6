//! The parts of a packet.
ghost use Rattle.std.specs.Prelude.{◌≡◌, ◌++◌, ◌∷◌, [], take, MatchOption};
ghost use Rattle.ogg_page.specs.Page.{IsPage};
ghost use Rattle.packet_view.specs.Packets.{with_part};
ghost use Rattle.packet_view.specs.Front.{front_size};
ghost use Rattle.packet_view.specs.Packet.{ArePages, slices_of, slices_in};

use crate::front::split_front;
use crate::unread::{Front, Unread};
use ogg_page::{Page, split_known_page};
use std::marker::Model;

/// The parts of a packet, in order, as an iterator. None is empty.
#[derive(Debug, Drop)]
pub struct Parts<'a> {
    first: &'a [u8],
    serial: u32,
    /// The pages after the one in which the packet begins, up to the one in which it ends.
    more: &'a [u8],
}

impl<'a> Model for Parts<'a> {
    ghost use Rattle.std.specs.Prelude.{List, ℕ, ◌++◌, []};
    ghost use Rattle.packet_view.specs.Packets.{with_part};
    ghost use Rattle.packet_view.specs.Packet.{ArePages, slices_of, slices_in};

    ghost Value = { List (List ℕ) };

    ghost view = { λ p. slices_of (with_part [] 0 p.first.now) ++ slices_in p.serial p.more.now };

    ghost invariant = { λ p. ArePages p.more.now };
}

impl<'a> Parts<'a> {
    pub(crate) fn new(first: &'a [u8], serial: u32, more: &'a [u8]) -> Parts<'a>
        requires { ArePages more.now }
        ensures { result ≡ slices_of (with_part [] 0 first.now) ++ slices_in serial more.now }
    {
        Parts {
            first,
            serial,
            more,
        }
    }
}

impl<'a> Iterator for Parts<'a> {
    ghost use Rattle.std.specs.Iterator.{YieldsFirstRef, item_count};

    type Item = &'a [u8];

    ghost next_gives = { YieldsFirstRef (λ s. s) };

    ghost remaining = { item_count (λ s. s) };

    fn next(&mut self) -> Option<&'a [u8]> {
        if !self.first.is_empty() {
            let (first, none) = self.first.split_at(self.first.len());
            self.first = none;
            return Some(first);
        }
        let (part, more) = next_part(self.serial, self.more)?;
        self.more = more;
        Some(part)
    }
}

/// The first part in these pages, and the pages after its own.
fn next_part<'a>(serial: u32, pages: &'a [u8]) -> Option<(&'a [u8], &'a [u8])>
    requires { ArePages pages.now }
    ensures { MatchOption result (slices_in serial pages.now ≡ []) (λ (part, more). (slices_in serial pages.now ≡ part.now ∷ slices_in serial more.now) × ArePages more.now) }
{
    let mut rest = pages;
    while !rest.is_empty() {
        let (page, more) = split_known_page(rest);
        if page.serial() == serial {
            let part = front_of(&page);
            if !part.is_empty() {
                return Some((part, more));
            }
        }
        rest = more;
    }
    None
}

/// The page's bytes of the first packet in it.
fn front_of<'a>(page: &Page<'a>) -> &'a [u8]
    requires { IsPage page.now }
    ensures { result.now ≡ take (front_size page.now.lacing) page.now.body }
{
    let unread = Unread {
        lacing: page.lacing(),
        body: page.body(),
        place: 0,
        position: None,
    };
    match split_front(unread) {
        Front::Ends(piece, _) | Front::GoesOn(piece) => piece,
    }
}
