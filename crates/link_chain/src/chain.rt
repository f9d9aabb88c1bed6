//! The chain of the links so far.
ghost use Rattle.std.specs.Prelude.{◌≡◌, ◌≤◌, ◌<◌, ◌+◌, ◌^◌, List, [], OnOk, OnErr, Err, Some, None, length};
ghost use Rattle.ogg_page.specs.Page.{Page as PageValue, page_size};
ghost use Rattle.link_chain.specs.Limits.{most_streams, most_links};

use crate::Memory;
use crate::chain_fault::ChainFault;
use crate::serials::Serials;
use crate::stream_state::StreamState;
use crate::streams::{drop_packet, first_unfinished, is_open};
use crate::taking::{add_serials, broken_by_page, follow, join_link, open_link};
use ogg_page::Page;
use std::alloc::Global;
use std::marker::Model;

/// The chain of the links so far, as far as the rules for a next page or command depend on it.
#[derive(Debug, Drop)]
pub struct Chain {
    // the streams of the last link
    streams: Vec<StreamState>,
    has_data: bool,
    serials: Serials,
    links: u64,
    bytes: u64,
}

impl Model for Chain {
    ghost use Rattle.std.specs.Prelude.{◌≤◌, ◌<◌, ◌^◌, vec_len, vec_capacity};
    ghost use Rattle.link_chain.specs.Places.{HaveOwnSerials};
    ghost use Rattle.link_chain.specs.Room.{ChainWithRoom};
    ghost use Rattle.link_chain.specs.Limits.{most_streams};

    ghost Value = { ChainWithRoom };

    ghost view = { λ s. record {
      chain = record {
        streams = s.streams.items;
        has_data = s.has_data;
        serials = s.serials.listed;
        links = s.links;
        length_of = s.bytes;
      };
      stream_room = vec_capacity s.streams;
      serial_room = s.serials.room;
    } };

    ghost invariant = { λ s. (vec_len s.streams ≤ most_streams) × (s.bytes < 2 ^ 63) × HaveOwnSerials s.streams.items };
}

impl Chain {
    ghost use Rattle.link_chain.specs.ChainState.{chain_state_of, is_open};
    ghost use Rattle.link_chain.specs.Places.{HaveOwnSerials};
    ghost use Rattle.link_chain.specs.Taking.{fault_of_page, links_with, unfinished_stream, HasRoomFor};
    ghost use Rattle.link_chain.specs.Followed.{opened, joined, continued, with_link, moved_on, dropped, after_page};
    ghost use Rattle.link_chain.specs.Progress.{stream_in};
    ghost use Rattle.link_chain.specs.declared.chain_fault.ChainFault.{ChainFault as ChainFaultOf};

    /// The chain of no links.
    pub fn new(alloc: Global) -> Self
        ensures { result.chain ≡ chain_state_of [] }
    {
        Chain {
            streams: Vec::new(alloc),
            has_data: false,
            serials: Serials::new(alloc),
            links: 0,
            bytes: 0,
        }
    }

    /// The streams of the last link, in the order of their first pages.
    pub fn streams(&self) -> &[StreamState]
        ensures value { result.now ≡ self.now.chain.streams }
        ensures few { length self.now.chain.streams ≤ most_streams }
        ensures own { HaveOwnSerials self.now.chain.streams }
    {
        self.streams.as_slice()
    }

    /// The serials of all streams of all links.
    pub fn serials(&self) -> &Serials
        ensures { result.now.listed ≡ self.now.chain.serials }
    {
        &self.serials
    }

    /// How many links there are.
    pub fn links(&self) -> u64
        ensures { result ≡ self.now.chain.links }
    {
        self.links
    }

    /// Whether the last link has a page that is no stream's first.
    pub fn has_data(&self) -> bool
        ensures { result ≡ self.now.chain.has_data }
    {
        self.has_data
    }

    /// How many bytes their pages have.
    pub fn len(&self) -> u64
        ensures value { result ≡ self.now.chain.length_of }
        ensures small { self.now.chain.length_of < 2 ^ 63 }
    {
        self.bytes
    }

    /// Why a page may not follow: the fault that `take_page` reports, apart from `Memory`. The chain stays as it is.
    pub fn fault_of(&self, page: &Page<'_>) -> Option<ChainFault>
        ensures { result ≡ fault_of_page self.now.chain page.now }
    {
        broken_by_page(self.streams.as_slice(), self.has_data, self.links, page)
    }

    /// Takes a page that was read into the chain, or reports why it may not follow: the first fault in this order. A
    /// page that isn't its stream's first: `BosPlace`, `NoStream`, `AfterEos`, `Sequence`, `Continued`,
    /// `EosUnfinished`. A first page that begins a link, since all streams have ended: `BosShape`, `TooMany`. Another
    /// first page: `BosWhileOpen`, `SerialTwice`, `BosShape`, `TooMany`. Last comes `Memory`, which only a first page
    /// can meet. After a fault the chain is as it was (RFC 3533, sections 4 to 6).
    pub fn take_page(&mut self, page: &Page<'_>) -> Result<(), ChainFault>
        requires { self.old.chain.length_of + page_size page.now < 2 ^ 63 }
        ensures fault { (fault : ChainFaultOf) → fault_of_page self.old.chain page.now ≡ Some fault → result ≡ Err fault }
        ensures memory { fault_of_page self.old.chain page.now ≡ None → OnErr result ((result ≡ Err ChainFault.Memory) × (HasRoomFor self.old page.now → ⊥)) }
        ensures links { OnOk result ((links : List (List PageValue)) → self.old.chain ≡ chain_state_of links
            → self.new.chain ≡ chain_state_of (links_with links page.now)) }
        ensures after { OnOk result (self.new.chain ≡ after_page self.old.chain page.now) }
        ensures grows { OnOk result (self.new.chain.length_of ≡ self.old.chain.length_of + page_size page.now) }
        ensures same { OnErr result (self.new.chain ≡ self.old.chain) }
    {
        if let Some(fault) = self.fault_of(page) {
            return Err(fault);
        }
        if !page.is_first() {
            self.continue_link(page);
        } else if self.is_open() {
            self.join_link(page)?;
        } else {
            self.open_link(page)?;
        }
        Ok(())
    }

    /// Whether a stream of the last link hasn't ended.
    fn is_open(&self) -> bool
        ensures { result ≡ is_open self.now.chain }
    {
        is_open(self.streams.as_slice())
    }

    fn continue_link(&mut self, page: &Page<'_>)
        requires { self.old.chain.length_of + page_size page.now < 2 ^ 63 }
        ensures { self.new.chain ≡ continued self.old.chain page.now }
    {
        follow(self.streams.as_mut_slice(), page);
        self.has_data = true;
        self.bytes += page.whole().len() as u64;
    }

    fn join_link(&mut self, page: &Page<'_>) -> Result<(), Memory>
        requires long { self.old.chain.length_of + page_size page.now < 2 ^ 63 }
        requires few { length self.old.chain.streams < most_streams }
        requires fresh { stream_in self.old.chain.streams page.now.serial ≡ None }
        ensures ok { OnOk result (self.new.chain ≡ joined self.old.chain page.now) }
        ensures err { OnErr result (self.new.chain ≡ self.old.chain) }
        ensures full { OnErr result (length self.old.chain.streams + 1 ≤ self.old.stream_room → 1 ≤ self.old.serial_room → ⊥) }
    {
        join_link(&mut self.streams, &mut self.serials, page)?;
        self.bytes += page.whole().len() as u64;
        Ok(())
    }

    fn open_link(&mut self, page: &Page<'_>) -> Result<(), Memory>
        requires long { self.old.chain.length_of + page_size page.now < 2 ^ 63 }
        requires few { self.old.chain.links < most_links }
        ensures ok { OnOk result (self.new.chain ≡ opened self.old.chain page.now) }
        ensures err { OnErr result (self.new.chain ≡ self.old.chain) }
        ensures full { OnErr result (1 ≤ self.old.stream_room → 1 ≤ self.old.serial_room → ⊥) }
    {
        let links = self.links + 1;
        open_link(&mut self.streams, &mut self.serials, page)?;
        self.links = links;
        self.has_data = false;
        self.bytes += page.whole().len() as u64;
        Ok(())
    }

    /// Makes the room for a link of this number of streams. The chain stays as it is. After `Memory` a part of the
    /// room may be made.
    pub fn reserve_link(&mut self, streams: usize) -> Result<(), Memory>
        ensures chain { self.new.chain ≡ self.old.chain }
        ensures streams { OnOk result (streams ≤ self.new.stream_room) }
        ensures serials { OnOk result (streams ≤ self.new.serial_room) }
        ensures full { OnErr result (streams ≤ self.old.stream_room → streams ≤ self.old.serial_room → ⊥) }
    {
        let more = streams.saturating_sub(self.streams.len());
        self.streams.reserve(more)?;
        self.serials.reserve(streams)?;
        Ok(())
    }

    /// Adds a link of these streams, whose pages have `bytes` bytes in all. `has_data` says whether some of them are
    /// no stream's first. It takes no memory: `reserve_link` has made the room.
    pub fn add_link(&mut self, streams: &[StreamState], has_data: bool, bytes: u64)
        requires few { length streams.now ≤ most_streams }
        requires own { HaveOwnSerials streams.now }
        requires stream_room { length streams.now ≤ self.old.stream_room }
        requires serial_room { length streams.now ≤ self.old.serial_room }
        requires links { self.old.chain.links < most_links }
        requires long { self.old.chain.length_of + bytes < 2 ^ 63 }
        ensures { self.new.chain ≡ with_link self.old.chain streams.now has_data bytes }
    {
        self.streams.clear();
        self.streams.extend_from_slice(streams).unwrap();
        add_serials(&mut self.serials, streams);
        self.has_data = has_data;
        self.links += 1;
        self.bytes += bytes;
    }

    /// Goes on after further pages of the last link, of `bytes` bytes in all. None of them is its stream's first. The
    /// streams are these now, in the same order. It takes no memory.
    pub fn go_on(&mut self, streams: &[StreamState], bytes: u64)
        requires count { length streams.now ≡ length self.old.chain.streams }
        requires own { HaveOwnSerials streams.now }
        requires long { self.old.chain.length_of + bytes < 2 ^ 63 }
        ensures chain { self.new.chain ≡ moved_on self.old.chain streams.now bytes }
        ensures stream_room { self.new.stream_room ≡ self.old.stream_room }
        ensures serial_room { self.new.serial_room ≡ self.old.serial_room }
    {
        self.streams.as_mut_slice().copy_from_slice(streams);
        self.has_data = true;
        self.bytes += bytes;
    }

    /// Drops the unfinished packet of the stream with this serial, of which its pages have `bytes` bytes. It takes no
    /// memory.
    pub fn drop_packet(&mut self, serial: u32, bytes: u64)
        ensures { self.new.chain ≡ dropped self.old.chain serial bytes }
    {
        drop_packet(self.streams.as_mut_slice(), serial);
        self.bytes = self.bytes.saturating_sub(bytes);
    }

    /// The serial of the first stream of the last link, in the order of their first pages, that has
    /// an unfinished packet. In the links before it none has one, once their pages were taken.
    pub fn unfinished(&self) -> Option<u32>
        ensures { result ≡ unfinished_stream self.now.chain }
    {
        let stream = first_unfinished(self.streams.as_slice())?;
        Some(stream.serial)
    }
}
