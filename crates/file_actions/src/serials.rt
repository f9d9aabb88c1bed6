//! The serials of a cut: none stands in two of its links, if no Skeleton speaks of them. What goes on with a link has the
//! serials of that link.

use archive_cut::{Said, name_page, name_said, names_on, take_page};
use link_chain::StreamState;
use ogg_page::{FIXED_SIZE, LAST, Memory, PageHead, read_header, write_page};
use serve_live::{StreamName, open_streams};
use std::alloc::Global;

/// What the packet begins with that is the first of a Skeleton (Ogg Skeleton 3.0).
const SKELETON: &[u8] = b"fishead\0";

/// Why a page has no place in the cut.
#[derive(Clone, Copy, Debug, PartialEq, Eq)]
pub(crate) enum NoPlace {
    /// Memory was refused.
    Memory,
    /// It is no page, or no number is left for it.
    Page,
}

/// The serials of a cut that stand in it so far. A stream whose serial stands in a link before gets one that is free. A
/// Skeleton speaks of the serials of its link, so they stay as they are.
#[derive(Drop)]
pub(crate) struct Serials {
    alloc: Global,
    used: Vec<u32>,
    names: Vec<StreamName>,
    // the streams of the link as it is written
    streams: Vec<StreamState>,
    // none below is free
    next: u32,
    // the page before was a stream's first
    begins: bool,
    has_skeleton: bool,
}

impl Serials {
    /// No page was written yet.
    pub(crate) fn new(alloc: Global) -> Serials {
        Serials {
            alloc,
            used: Vec::new(alloc),
            names: Vec::new(alloc),
            streams: Vec::new(alloc),
            next: 0,
            begins: false,
            has_skeleton: false,
        }
    }

    /// The pages of the next file go on with the link. Its Begin, which is left out, left these streams.
    pub(crate) fn go_on(&mut self, begun: &[StreamState]) -> Result<(), Memory> {
        let begun = open_streams(self.alloc, begun)?;
        let first = open_streams(self.alloc, self.streams.as_slice())?;
        self.names = names_on(self.alloc, begun.as_slice(), first.as_slice())?;
        Ok(())
    }

    /// Changes the next page, of which this is said, into that of the cut, and returns what is said of it there.
    pub(crate) fn place(&mut self, said: Said, page: &mut [u8]) -> Result<Said, NoPlace> {
        self.pass(said, page)?;
        match name_page(self.names.as_slice(), said, page) {
            Some(named) => {
                let placed = self.at_last_position(named);
                if placed.position != named.position {
                    put_end(self.alloc, &placed, page)?;
                }
                self.note(placed)
            }
            None => Err(NoPlace::Page),
        }
    }

    /// What is said of the next page in the cut. `front` has the page's first bytes: its head, and of a stream's first page
    /// what its packet begins with.
    pub(crate) fn name(&mut self, said: Said, front: &[u8]) -> Result<Said, NoPlace> {
        self.pass(said, front)?;
        match name_said(self.names.as_slice(), said) {
            Some(named) => {
                let placed = self.at_last_position(named);
                self.note(placed)
            }
            None => Err(NoPlace::Page),
        }
    }

    /// A page that ends a stream and holds no packet has the position of the page before. In a file that goes on the stream
    /// may have had no page with one.
    fn at_last_position(&self, said: Said) -> Said {
        if said.begins || !said.is_empty || !said.ends {
            return said;
        }
        for stream in &self.streams {
            if stream.serial == said.serial {
                return Said {
                    position: stream.last_position.max(said.position),
                    ..said
                };
            }
        }
        said
    }

    /// Goes on to the next page.
    fn pass(&mut self, said: Said, front: &[u8]) -> Result<(), NoPlace> {
        if said.begins {
            self.begin(said.serial, is_skeleton(front))?;
        }
        self.begins = said.begins;
        Ok(())
    }

    /// A stream begins.
    fn begin(&mut self, serial: u32, is_skeleton: bool) -> Result<(), NoPlace> {
        if !self.begins {
            self.names.clear();
            self.has_skeleton = false;
        }
        self.has_skeleton = self.has_skeleton || is_skeleton;
        let name = if self.has_skeleton || !self.used.as_slice().contains(&serial) {
            serial
        } else {
            self.free().unwrap_or(serial)
        };
        let named = StreamName {
            serial,
            name,
            less: 0,
            more: 0,
        };
        match (self.used.push(name), self.names.push(named)) {
            (Ok(()), Ok(())) => Ok(()),
            _ => Err(NoPlace::Memory),
        }
    }

    /// A serial that doesn't stand in the cut, if one is left.
    fn free(&mut self) -> Option<u32> {
        for _ in 0..=self.used.len() {
            if !self.used.as_slice().contains(&self.next) {
                return Some(self.next);
            }
            self.next = self.next.checked_add(1)?;
        }
        None
    }

    /// Notes a page of the cut.
    fn note(&mut self, placed: Said) -> Result<Said, NoPlace> {
        match take_page(&placed, &mut self.streams) {
            Ok(()) => Ok(placed),
            Err(_) => Err(NoPlace::Memory),
        }
    }
}

/// Puts what is said of a page that holds no packet in its place.
fn put_end(alloc: Global, said: &Said, page: &mut [u8]) -> Result<(), NoPlace> {
    let head = PageHead {
        flags: LAST,
        position: said.position,
        serial: said.serial,
        sequence: said.number,
    };
    let mut text = Vec::new(alloc);
    if write_page(&head, &[], &[], &mut text).is_err() {
        return Err(NoPlace::Memory);
    }
    if text.len() != page.len() {
        return Err(NoPlace::Page);
    }
    page.copy_from_slice(text.as_slice());
    Ok(())
}

/// Whether the page's packet is the first of a Skeleton.
fn is_skeleton(page: &[u8]) -> bool {
    match read_header(page) {
        Ok(header) => {
            let (_, body) = page.split_at(FIXED_SIZE.saturating_add(header.values).min(page.len()));
            body.starts_with(SKELETON)
        }
        Err(_) => false,
    }
}
