//! The good pages of damaged bytes.
ghost use Rattle.std.specs.Prelude.{◌≡◌, ◌<◌, ◌+◌, ◌++◌, List, IfOk, OnOk, OnErr, length, vec_len, vec_capacity};
ghost use Rattle.ogg_split.specs.Salvage.{AreGoodPages};
ghost use Rattle.ogg_split.specs.declared.salvaging.GoodPage.{GoodPage as GoodPageOf};

use crate::Memory;
use memchr::memmem;
use ogg_page::split_page;
use std::alloc::{AllocError, Global};

/// Where a good page stands.
#[derive(Clone, Copy, Debug, PartialEq, Eq)]
pub struct GoodPage {
    /// The offset of its first byte.
    pub offset: u64,
    /// How many bytes it has.
    pub length: u64,
}

/// The good pages of any bytes, in rising order (RFC 3533, section 6). At the first place where a page begins, that
/// page is listed, and the search goes on after it. What isn't a page is passed over, and so is a page inside another.
/// `Memory` is the answer if there is no room for the list.
pub fn salvage(alloc: Global, bytes: &[u8]) -> Result<Vec<GoodPage>, Memory>
    ensures pages { IfOk result (λ pages. AreGoodPages bytes.now pages.items) }
    // A list of no pages takes no memory.
    ensures memory { OnErr result ((good : List GoodPageOf) → AreGoodPages bytes.now good → 0 < length good) }
{
    let mut pages = Vec::new(alloc);
    match list_pages(bytes, &mut pages) {
        Ok(()) => Ok(pages),
        Err(memory) => Err(memory),
    }
}

/// Appends the good pages of any bytes. After `Memory` the first of them are appended.
fn list_pages(bytes: &[u8], pages: &mut Vec<GoodPage>) -> Result<(), Memory>
    ensures pages { OnOk result ((good : List GoodPageOf) × AreGoodPages bytes.now good
        × (pages.new.items ≡ pages.old.items ++ good)) }
    ensures full { OnErr result ((good : List GoodPageOf) → AreGoodPages bytes.now good
        → vec_capacity pages.old < vec_len pages.old + length good) }
{
    let mut rest = bytes;
    let mut offset = 0;
    while let Some(skipped) = memmem::find(rest, b"OggS") {
        let (_, front) = rest.split_at(skipped);
        offset += skipped as u64;
        match split_page(front) {
            Ok((page, others)) => {
                let length = page.whole().len() as u64;
                match pages.push(GoodPage { offset, length }) {
                    Ok(()) => {}
                    Err(_) => return Err(AllocError),
                }
                offset += length;
                rest = others;
            }
            Err(_) => {
                let (_, others) = front.split_at(1);
                offset += 1;
                rest = others;
            }
        }
    }
    Ok(())
}
