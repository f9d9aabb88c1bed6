//! Vectors grow, and a growth that is refused is noted.
ghost use Rattle.std.specs.Prelude.{◌≡◌, ◌≤◌, ◌<◌, ◌+◌, ◌^◌, ◌++◌, ◌∷◌, [], List, None, Bool, true, false, OnOk, OnErr, length};
ghost use Rattle.ogg_page.specs.Page.{Page as PageValue, page_size};
ghost use Rattle.link_chain.specs.ChainState.{chain_state_of};
ghost use Rattle.link_chain.specs.Followed.{after_page};
ghost use Rattle.link_chain.specs.Taking.{HasRoomFor, fault_of_page, links_with};
ghost use Rattle.import_gather.specs.Refusals.{IsNoted};

use link_chain::Chain;
use ogg_command::Memory;
use ogg_page::Page;
use std::alloc::{AllocError, Global};
use std::marker::Model;

/// Grows vectors, and notes when a growth was refused. What was noted stays noted.
#[derive(Debug, Drop)]
pub struct Grower {
    alloc: Global,
    refused: bool,
}

impl Model for Grower {
    ghost Value = { Bool };

    ghost view = { λ g. g.refused };
}

impl Grower {
    ghost use Rattle.std.specs.Prelude.{is_ok, if◌then◌else◌, vec_len, vec_capacity};

    /// No growth was refused yet.
    pub fn new(alloc: Global) -> Grower
        ensures { result ≡ false }
    {
        Grower {
            alloc,
            refused: false,
        }
    }

    /// A vector without elements. It takes no memory.
    pub fn empty<T>(&self) -> Vec<T>
        ensures { result.items ≡ [] }
    {
        Vec::new(self.alloc)
    }

    /// Notes that a growth was refused.
    fn note(&mut self) -> Memory
        ensures { self.new ≡ true }
    {
        self.refused = true;
        AllocError
    }

    /// Appends an element. After `Memory` the vector is as it was, and had no room for it.
    pub fn push<T: Drop>(&mut self, list: &mut Vec<T>, item: T) -> Result<(), Memory>
        ensures items { list.new.items ≡ (if is_ok result then list.old.items ++ item ∷ [] else list.old.items) }
        ensures full { OnErr result (vec_capacity list.old ≤ vec_len list.old) }
        ensures noted { IsNoted result self.old self.new }
    {
        if let Err(_) = list.push(item) {
            return Err(self.note());
        }
        Ok(())
    }

    /// Appends bytes. After `Memory` the vector is as it was, and had no room for them.
    pub fn append(&mut self, list: &mut Vec<u8>, bytes: &[u8]) -> Result<(), Memory>
        ensures items { list.new.items ≡ (if is_ok result then list.old.items ++ bytes.now else list.old.items) }
        ensures full { OnErr result (vec_capacity list.old < vec_len list.old + length bytes.now) }
        ensures noted { IsNoted result self.old self.new }
    {
        if let Err(_) = list.extend_from_slice(bytes) {
            return Err(self.note());
        }
        Ok(())
    }

    /// Makes room for so many more bytes. After `Memory` there was no room for them.
    pub fn reserve(&mut self, list: &mut Vec<u8>, more: usize) -> Result<(), Memory>
        ensures items { list.new.items ≡ list.old.items }
        ensures full { OnErr result (vec_capacity list.old < vec_len list.old + more) }
        ensures noted { IsNoted result self.old self.new }
    {
        if let Err(_) = list.reserve(more) {
            return Err(self.note());
        }
        Ok(())
    }

    /// The chain takes a page that may follow. After `Memory` it is as it was, and had no room for the page.
    pub fn take_page(&mut self, chain: &mut Chain, page: &Page<'_>) -> Result<(), Memory>
        requires fits { fault_of_page chain.old.chain page.now ≡ None }
        requires long { chain.old.chain.length_of + page_size page.now < 2 ^ 63 }
        ensures links { OnOk result ((links : List (List PageValue)) → chain.old.chain ≡ chain_state_of links
            → chain.new.chain ≡ chain_state_of (links_with links page.now)) }
        ensures after { OnOk result (chain.new.chain ≡ after_page chain.old.chain page.now) }
        ensures grows { OnOk result (chain.new.chain.length_of ≡ chain.old.chain.length_of + page_size page.now) }
        ensures same { OnErr result (chain.new.chain ≡ chain.old.chain) }
        ensures full { OnErr result (HasRoomFor chain.old page.now → ⊥) }
        ensures noted { IsNoted result self.old self.new }
    {
        if let Err(_) = chain.take_page(page) {
            return Err(self.note());
        }
        Ok(())
    }
}
