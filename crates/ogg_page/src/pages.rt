//! Bytes as pages, one after the other.
ghost use Rattle.std.specs.Prelude.{◌≡◌};

use crate::fault::PageFault;
use crate::page::Page;
use crate::reading::split_page;
use std::marker::Model;

/// The pages that bytes begin with, each with the offset of its first byte, as an iterator. If
/// bytes are left that begin with no page, their offset and the first fault come last. The iterator
/// ends at the end of the bytes or after its first fault, and then stays ended. No call takes
/// memory.
#[derive(Debug, Drop)]
pub struct Pages<'a> {
    rest: &'a [u8],
    offset: u64,
}

impl<'a> Model for Pages<'a> {
    ghost use Rattle.std.specs.Prelude.{◌<◌, ◌+◌, ◌^◌, length};
    ghost use Rattle.ogg_page.specs.Pages.{PagesLeft};

    ghost Value = { PagesLeft };

    ghost view = { λ p. record { offset = p.offset; bytes = p.rest.now } };

    ghost invariant = { λ p. p.offset + length p.rest.now < 2 ^ 64 };
}

impl<'a> Pages<'a> {
    /// The pages of these bytes, from the first byte on.
    pub fn of(bytes: &'a [u8]) -> Pages<'a>
        ensures { result ≡ record { offset = 0; bytes = bytes.now } }
    {
        Pages {
            rest: bytes,
            offset: 0,
        }
    }
}

impl<'a> Iterator for Pages<'a> {
    ghost use Rattle.std.specs.Prelude.{length};
    ghost use Rattle.std.specs.Iterator.{at_most};
    ghost use Rattle.ogg_page.specs.Pages.{NextPage};

    type Item = Result<(u64, Page<'a>), (u64, PageFault)>;

    ghost next_gives = { NextPage };

    ghost remaining = { λ p. at_most (length p.bytes) };

    fn next(&mut self) -> Option<Result<(u64, Page<'a>), (u64, PageFault)>> {
        if self.rest.is_empty() {
            return None;
        }
        let offset = self.offset;
        match split_page(self.rest) {
            Ok((page, rest)) => {
                self.offset += (self.rest.len() - rest.len()) as u64;
                self.rest = rest;
                Some(Ok((offset, page)))
            }
            Err(fault) => {
                self.rest = &[];
                Some(Err((offset, fault)))
            }
        }
    }
}
