//! A page in bytes that somebody else owns.
ghost use Rattle.std.specs.Prelude.{◌≡◌};
ghost use Rattle.ogg_page.specs.LogicalStream.{is_continued, is_first, is_last};
ghost use Rattle.ogg_page.specs.Page.{IsPage, page_bytes, page_of};

use crate::head::{CONTINUED, FIRST, LAST, PageHead};
use std::marker::Model;

/// A page in borrowed bytes (RFC 3533, section 6). Its checksum is right. Nothing is copied.
#[derive(Debug, Drop)]
pub struct Page<'a> {
    head: PageHead,
    lacing: &'a [u8],
    body: &'a [u8],
    whole: &'a [u8],
}

impl<'a> Model for Page<'a> {
    ghost use Rattle.std.specs.Prelude.{◌≡◌};
    ghost use Rattle.ogg_page.specs.Page.{Page as PageValue, IsPage, page_bytes, page_of};

    ghost Value = { PageValue };

    ghost view = { λ p. page_of p.head p.lacing.now p.body.now };

    ghost invariant = { λ p. IsPage (page_of p.head p.lacing.now p.body.now) × (p.whole.now ≡ page_bytes (page_of p.head p.lacing.now p.body.now)) };
}

impl<'a> Page<'a> {
    /// A page, and its bytes.
    pub(crate) fn new(head: PageHead, lacing: &'a [u8], body: &'a [u8], whole: &'a [u8]) -> Page<'a>
        requires is_page { IsPage (page_of head lacing.now body.now) }
        requires bytes { whole.now ≡ page_bytes (page_of head lacing.now body.now) }
        ensures { result ≡ page_of head lacing.now body.now }
    {
        Page {
            head,
            lacing,
            body,
            whole,
        }
    }

    /// [`CONTINUED`], [`FIRST`] and [`LAST`], added up; other bits as they stand in the bytes.
    pub fn flags(&self) -> u8
        ensures { result ≡ self.now.flags }
    {
        self.head.flags
    }

    /// Whether the page begins with a continued packet.
    pub fn is_continued(&self) -> bool
        ensures { result ≡ is_continued self.now }
    {
        self.flags() & CONTINUED != 0
    }

    /// Whether the page is marked as its stream's first.
    pub fn is_first(&self) -> bool
        ensures { result ≡ is_first self.now }
    {
        self.flags() & FIRST != 0
    }

    /// Whether the page is marked as its stream's last.
    pub fn is_last(&self) -> bool
        ensures { result ≡ is_last self.now }
    {
        self.flags() & LAST != 0
    }

    /// The granule position of the last packet that ends in the page; all ones if none ends.
    pub fn position(&self) -> u64
        ensures { result ≡ self.now.position }
    {
        self.head.position
    }

    /// Which logical stream the page is of.
    pub fn serial(&self) -> u32
        ensures { result ≡ self.now.serial }
    {
        self.head.serial
    }

    /// The page's number within its stream.
    pub fn sequence(&self) -> u32
        ensures { result ≡ self.now.sequence }
    {
        self.head.sequence
    }

    /// The lacing values, at most 255.
    pub fn lacing(&self) -> &'a [u8]
        ensures { result.now ≡ self.now.lacing }
    {
        self.lacing
    }

    /// The body, as long as the lacing values add up to.
    pub fn body(&self) -> &'a [u8]
        ensures { result.now ≡ self.now.body }
    {
        self.body
    }

    /// The page's own bytes, from the capture pattern to the end of its body.
    pub fn whole(&self) -> &'a [u8]
        ensures bytes { result.now ≡ page_bytes self.now }
        ensures is_page { IsPage self.now }
    {
        self.whole
    }
}
