//! The index of the bytes so far.
ghost use Rattle.std.specs.Prelude.{◌≡◌, ◌↔◌, ◌≤◌, ◌<◌, ◌+◌, ◌++◌, ◌^◌, ℕ, List, [], true, false, Some, None, IsOk, OnOk, OnErr, IfOk, IfErr, IfSome, IsSome, Err, length, vec_len, vec_capacity};
ghost use Rattle.ogg_page.specs.LogicalStream.{is_first};
ghost use Rattle.ogg_page.specs.Page.{Page as PageValue, page_size};
ghost use Rattle.link_index.specs.Adding.{fault_at};

use crate::Memory;
use crate::fault::IndexFault;
use crate::info::{LinkInfo, StreamInfo};
use crate::listing::append_listing;
use crate::rows::{Row, continue_link, join_link, open_link, streams_of};
use link_chain::{Chain, ChainFault, StreamState, TakesInTurn, is_open};
use ogg_page::{Page, split_page};
use std::alloc::Global;
use std::marker::Model;

/// The places of the links and streams of a file, as far as its bytes were added.
#[derive(Debug, Drop)]
pub struct Index {
    chain: Chain,
    rows: Vec<Row>,
    streams: Vec<StreamInfo>,
}

impl Model for Index {
    ghost use Rattle.std.specs.Prelude.{◌-◌, vec_len, vec_capacity};
    ghost use Rattle.link_index.specs.Adding.{IndexState};
    ghost use Rattle.link_index.specs.Rows.{IsKept, entries_of};

    ghost Value = { IndexState };

    ghost view = { λ s. record {
      chain = s.chain;
      entries = entries_of s.streams.items s.rows.items;
      link_room = vec_capacity s.rows - vec_len s.rows;
      stream_room = vec_capacity s.streams - vec_len s.streams;
    } };

    ghost invariant = { λ s. IsKept s.chain.chain s.rows.items s.streams.items };
}

impl Index {
    ghost use Rattle.std.specs.Prelude.{Ok, Err, Option, slice_get};
    ghost use Rattle.std.specs.Option.{option_map};
    ghost use Rattle.link_chain.specs.ChainState.{chain_state_of};
    ghost use Rattle.link_chain.specs.Taking.{fault_of_page, links_with, HasRoomFor};
    ghost use Rattle.link_chain.specs.declared.chain_fault.ChainFault.{ChainFault as ChainFaultOf};
    ghost use Rattle.link_index.specs.Adding.{AddsPages, IndexState, IsIndexOf};
    ghost use Rattle.link_index.specs.Index.{LinkEntry};
    ghost use Rattle.link_index.specs.Listing.{listing};

    /// The index of no bytes. It takes no memory.
    pub fn new(alloc: Global) -> Index
        ensures { IsIndexOf [] result }
    {
        Index {
            chain: Chain::new(alloc),
            rows: Vec::new(alloc),
            streams: Vec::new(alloc),
        }
    }

    /// The index of bytes that are joined links, or the first fault in them, as `add` reports it.
    pub fn scan(alloc: Global, bytes: &[u8]) -> Result<Index, IndexFault>
        ensures ok { IfOk result (λ index. AddsPages [] bytes.now index (Ok tt)) }
        ensures err { IfErr result (λ fault. (index : IndexState) × AddsPages [] bytes.now index (Err fault)) }
    {
        let mut index = Index::new(alloc);
        match index.add(bytes) {
            Ok(()) => Ok(index),
            Err(fault) => Err(fault),
        }
    }

    /// Adds the pages of a chunk, which begins at the offset `end` of the file. The chunk is cut from the file
    /// between pages. The pages before a fault are added, and `end` says how far they go.
    pub fn add(&mut self, chunk: &[u8]) -> Result<(), IndexFault>
        requires { self.old.chain.chain.length_of + length chunk.now < 2 ^ 63 }
        ensures { (links : List (List PageValue)) → IsIndexOf links self.old → AddsPages links chunk.now self.new result }
    {
        let mut rest = chunk;
        while !rest.is_empty() {
            let (page, after) = match split_page(rest) {
                Ok(split) => split,
                Err(fault) => return Err(IndexFault::Page(self.end(), fault)),
            };
            if let Err(fault) = self.add_page(&page) {
                return Err(fault_at(self.end(), fault));
            }
            rest = after;
        }
        Ok(())
    }

    /// Adds a page that was read, which stands at the offset `end` of the file. The faults are those of
    /// `Chain::take_page`, in their order. `Memory` is the last of them: for want of it only a stream's first page is
    /// refused. After a fault the index is as it was.
    pub fn add_page(&mut self, page: &Page<'_>) -> Result<(), ChainFault>
        requires { self.old.chain.chain.length_of + page_size page.now < 2 ^ 63 }
        ensures fault { (fault : ChainFaultOf) → fault_of_page self.old.chain.chain page.now ≡ Some fault → result ≡ Err fault }
        ensures memory { fault_of_page self.old.chain.chain page.now ≡ None → OnErr result ((result ≡ Err ChainFault.Memory)
            × (HasRoomFor self.old.chain page.now → 1 ≤ self.old.link_room → 1 ≤ self.old.stream_room → ⊥)) }
        ensures later { is_first page.now ≡ false → fault_of_page self.old.chain.chain page.now ≡ None → IsOk result }
        ensures index { OnOk result ((links : List (List PageValue)) → IsIndexOf links self.old → IsIndexOf (links_with links page.now) self.new) }
        ensures grows { OnOk result (self.new.chain.chain.length_of ≡ self.old.chain.chain.length_of + page_size page.now) }
        ensures same { OnErr result ((self.new.chain.chain ≡ self.old.chain.chain) × (self.new.entries ≡ self.old.entries)) }
    {
        if page.is_first() {
            self.add_first(page)
        } else {
            self.chain.take_page(page)?;
            continue_link(&mut self.rows, self.streams.as_mut_slice(), page);
            Ok(())
        }
    }

    /// Adds a stream's first page.
    fn add_first(&mut self, page: &Page<'_>) -> Result<(), ChainFault>
        requires fits { self.old.chain.chain.length_of + page_size page.now < 2 ^ 63 }
        requires first { is_first page.now ≡ true }
        ensures fault { (fault : ChainFaultOf) → fault_of_page self.old.chain.chain page.now ≡ Some fault → result ≡ Err fault }
        ensures memory { fault_of_page self.old.chain.chain page.now ≡ None → OnErr result ((result ≡ Err ChainFault.Memory)
            × (HasRoomFor self.old.chain page.now → 1 ≤ self.old.link_room → 1 ≤ self.old.stream_room → ⊥)) }
        ensures index { OnOk result ((links : List (List PageValue)) → IsIndexOf links self.old → IsIndexOf (links_with links page.now) self.new) }
        ensures grows { OnOk result (self.new.chain.chain.length_of ≡ self.old.chain.chain.length_of + page_size page.now) }
        ensures same { OnErr result ((self.new.chain.chain ≡ self.old.chain.chain) × (self.new.entries ≡ self.old.entries)) }
    {
        // Room is made before the chain takes the page, so that nothing has to be taken back.
        if let Some(fault) = self.chain.fault_of(page) {
            return Err(fault);
        }
        self.rows.reserve(1)?;
        self.streams.reserve(1)?;
        let start = self.chain.len();
        let joins = is_open(self.chain.streams());
        self.chain.take_page(page)?;
        if joins {
            join_link(&mut self.rows, &mut self.streams, page);
        } else {
            open_link(&mut self.rows, &mut self.streams, start, page);
        }
        Ok(())
    }

    /// The streams of the last link as its pages leave them, in the order of their first pages.
    pub fn last_streams(&self) -> &[StreamState]
        ensures value { result.now ≡ self.now.chain.chain.streams }
        ensures last { (links : List (List PageValue)) → IsIndexOf links self.now → result.now ≡ (chain_state_of links).streams }
    {
        self.chain.streams()
    }

    /// The offset up to which the file's bytes were added.
    pub fn end(&self) -> u64
        ensures { result ≡ self.now.chain.chain.length_of }
    {
        self.chain.len()
    }

    /// How many links there are, at most 65,536.
    pub fn links(&self) -> u32
        ensures { result ≡ length self.now.entries }
    {
        self.rows.len() as u32
    }

    /// The link with this number, counted from 0.
    pub fn link(&self, number: u32) -> Option<LinkInfo>
        ensures { result ≡ option_map (λ (entry : LinkEntry). entry.info) (slice_get self.now.entries number) }
    {
        let row = self.rows.as_slice().get(number as usize)?;
        Some(row.info())
    }

    /// The streams of the link with this number, in the order of their first pages.
    pub fn streams(&self, number: u32) -> Option<&[StreamInfo]>
        ensures some { IsSome result ↔ (number < length self.now.entries) }
        ensures streams { IfSome result (λ streams. (entry : LinkEntry) × (slice_get self.now.entries number ≡ Some entry)
            × (streams.now ≡ entry.streams)) }
    {
        let row = self.rows.as_slice().get(number as usize)?;
        Some(streams_of(row, self.streams.as_slice()))
    }

    /// Appends the listing: a line for the committed bytes, one for each link, and one for each of its streams. After
    /// `Memory` the vector is unchanged.
    pub fn write_listing(&self, out: &mut Vec<u8>) -> Result<(), Memory>
        ensures ok { OnOk result (out.new.items ≡ out.old.items ++ listing self.now.chain.chain.length_of self.now.entries) }
        ensures err { OnErr result (out.new.items ≡ out.old.items) }
        ensures full { OnErr result (vec_capacity out.old < vec_len out.old + length (listing self.now.chain.chain.length_of self.now.entries)) }
    {
        append_listing(
            self.end(),
            self.rows.as_slice(),
            self.streams.as_slice(),
            out,
        )
    }
}

impl TakesInTurn for Index {
    ghost use Rattle.link_index.specs.Adding.{IsIndexOf};
    ghost use Rattle.link_index.specs.Indexing.{IsRefused};

    ghost is_of = { IsIndexOf };

    ghost size = { λ index. index.chain.chain.length_of };

    ghost refuses = { IsRefused };

    fn size(&self) -> u64 {
        self.end()
    }

    fn take(&mut self, page: &Page<'_>) -> Result<(), ChainFault> {
        self.add_page(page)
    }
}

/// The fault of an index whose chain doesn't take the page at this offset.
pub fn fault_at(offset: u64, fault: ChainFault) -> IndexFault
    ensures { result ≡ fault_at offset fault }
{
    match fault {
        ChainFault::Memory => IndexFault::Memory,
        fault => IndexFault::Chain(offset, fault),
    }
}
