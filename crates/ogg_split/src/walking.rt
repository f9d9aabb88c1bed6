//! The pages of one stream written one after the other.
ghost use Rattle.std.specs.Prelude.{◌≡◌, ◌≢◌, ◌⊎◌, ◌≤◌, ◌<◌, ◌^◌, ◌-◌, List, None, Err, IfOk, OnErr, length};
ghost use Rattle.std.specs.List.{AllByRecursion};
ghost use Rattle.ogg_page.specs.Page.{Page as PageValue, IsPage, bytes_of_pages, page_size};
ghost use Rattle.ogg_page.specs.Window.{KeepsSource, left_of, HasFailed};
ghost use Rattle.link_chain.specs.Links.{pages_with};
ghost use Rattle.ogg_split.specs.Copying.{IsCopy, IsThere, stream_bytes};

use crate::fault::SplitFault;
use ogg_page::{Page, PageSource, PageVisitor, Visit, Window, split_page, walk, write_whole};
use std::io::Write;

/// Writes those of the pages that have the serial. The bytes are joined pages.
pub fn copy_pages<W: Write>(bytes: &[u8], serial: u32, out: &mut W) -> Result<u64, SplitFault>
    ensures copied { (pages : List PageValue) → AllByRecursion IsPage pages → bytes.now ≡ bytes_of_pages pages
        → IsCopy (W.contents out.old) (W.contents out.new) (bytes_of_pages (pages_with serial pages)) result }
    ensures sound { (pages : List PageValue) → AllByRecursion IsPage pages → bytes.now ≡ bytes_of_pages pages
        → result ≢ Err SplitFault.Source }
    ensures there { IsThere result }
{
    let mut rest = bytes;
    let mut count = 0;
    while !rest.is_empty() {
        let (page, others) = match split_page(rest) {
            Ok(split) => split,
            Err(_) => return Err(SplitFault::Source),
        };
        match copy_page(&page, serial, out) {
            Ok(size) => count += size,
            Err(fault) => return Err(fault),
        }
        rest = others;
    }
    Ok(count)
}

/// Writes those of the window's pages that have the serial.
pub fn copy_lent<S: PageSource, W: Write>(
    window: &mut Window<S>,
    serial: u32,
    out: &mut W,
) -> Result<u64, SplitFault>
    requires fresh { window.old.fault ≡ None }
    requires order { window.old.at ≤ window.old.to }
    requires short { window.old.to < 2 ^ 64 }
    ensures copied { (pages : List PageValue) → S.is_honest window.old.source → AllByRecursion IsPage pages
        → (left_of S.bytes window.old).bytes ≡ bytes_of_pages pages
        → IsCopy (W.contents out.old) (W.contents out.new) (bytes_of_pages (pages_with serial pages)) result }
    ensures cause { (pages : List PageValue) → S.is_honest window.old.source → AllByRecursion IsPage pages
        → (left_of S.bytes window.old).bytes ≡ bytes_of_pages pages → result ≡ Err SplitFault.Source
        → HasFailed (S.failures window.old.source) (S.failures window.new.source) }
    ensures later { S.failures window.old.source ≤ S.failures window.new.source }
    ensures source { KeepsSource S.bytes S.is_honest S.size S.only_reads window.old.source window.new.source }
    ensures there { IsThere result }
{
    let mut copier = Copier {
        serial,
        out,
        count: 0,
    };
    match walk(window, &mut copier) {
        Ok(visit) => match visit {
            Visit::GoesOn => Ok(copier.count),
            Visit::Ends => Err(SplitFault::Write),
        },
        Err(_) => Err(SplitFault::Source),
    }
}

/// Writes those of the pages it is shown that have the serial, up to the first that isn't written as a whole.
#[derive(Drop)]
struct Copier<'a, W: Write> {
    serial: u32,
    out: &'a mut W,
    count: u64,
}

impl<'a, W: Write> PageVisitor for Copier<'a, W> {
    ghost use Rattle.ogg_split.specs.Copying.{CopiesPart, stream_bytes};

    ghost sees = { CopiesPart W.contents (λ c. c.out) (λ c. c.count) (λ c. stream_bytes c.serial) };

    fn see(&mut self, _: u64, page: &Page<'_>) -> Visit {
        match copy_page(page, self.serial, self.out) {
            Ok(size) => {
                self.count = self.count.saturating_add(size);
                Visit::GoesOn
            }
            Err(_) => Visit::Ends,
        }
    }
}

/// Writes the page, if it has the serial.
fn copy_page<W: Write>(page: &Page<'_>, serial: u32, out: &mut W) -> Result<u64, SplitFault>
    ensures copied { IsCopy (W.contents out.old) (W.contents out.new) (stream_bytes serial page.now) result }
    ensures bound { IfOk result (λ size. size ≤ page_size page.now) }
    ensures err { OnErr result (result ≡ Err SplitFault.Write) }
{
    if page.serial() != serial {
        return Ok(0);
    }
    match write_whole(out, page.whole()) {
        Ok(()) => Ok(page.whole().len() as u64),
        Err(_) => Err(SplitFault::Write),
    }
}
