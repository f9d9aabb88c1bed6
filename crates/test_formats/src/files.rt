//! Files that are written page by page, and sources over them.
use ogg_page::{Memory, PageBuffer, PageHead, PageSource, SourceFault, Window, write_page};
use std::alloc::Global;

/// The pieces, one after the other.
pub(crate) fn joined(alloc: Global, pieces: &[&[u8]]) -> Result<Vec<u8>, Memory> {
    let mut bytes = Vec::new(alloc);
    for piece in pieces {
        bytes.extend_from_slice(piece)?;
    }
    Ok(bytes)
}

/// Puts these values at these places.
pub(crate) fn change(bytes: &mut [u8], changes: &[(usize, u8)]) {
    for (place, value) in changes {
        if let Some(byte) = bytes.get_mut(*place) {
            *byte = *value;
        }
    }
}

/// What a page holds: no packet, a short one, the first 255 or 65,025 bytes of one that goes on, its last 4,975 bytes,
/// or an end of no bytes.
#[derive(Clone, Copy)]
pub(crate) enum Held {
    Nothing,
    Short(&'static [u8]),
    Open,
    Front,
    Rest,
    Empty,
}

/// A page: its flags, position, serial and number, and what it holds.
pub(crate) type PageSpec = (u8, u64, u32, u32, Held);

/// The lacing values of 4,975 bytes.
const REST_LACING: [u8; 20] = [
    255, 255, 255, 255, 255, 255, 255, 255, 255, 255, 255, 255, 255, 255, 255, 255, 255, 255, 255,
    130,
];

/// The bytes of the pages that have the serial, or of all.
pub(crate) fn file_of(
    alloc: Global,
    pages: &[PageSpec],
    only: Option<u32>,
) -> Result<Vec<u8>, Memory> {
    let mut bytes = Vec::new(alloc);
    for (flags, position, serial, sequence, held) in pages {
        if only.is_none_or(|only| only == *serial) {
            let head = PageHead {
                flags: *flags,
                position: *position,
                serial: *serial,
                sequence: *sequence,
            };
            write_held(alloc, &head, *held, &mut bytes)?;
        }
    }
    Ok(bytes)
}

/// Appends a page that holds this.
fn write_held(
    alloc: Global,
    head: &PageHead,
    held: Held,
    bytes: &mut Vec<u8>,
) -> Result<(), Memory> {
    match held {
        Held::Nothing => write_page(head, &[], b"", bytes),
        Held::Short(packet) => write_short(head, packet, bytes),
        Held::Open => write_page(head, &[255], &[7; 255], bytes),
        Held::Front => {
            let body = vec![in alloc; 7u8; 65_025]?;
            write_page(head, &[255; 255], body.as_slice(), bytes)
        }
        Held::Rest => {
            let body = vec![in alloc; 7u8; 4_975]?;
            write_page(head, &REST_LACING, body.as_slice(), bytes)
        }
        Held::Empty => write_page(head, &[0], b"", bytes),
    }
}

/// Appends a page that holds this packet, of at most 254 bytes.
pub(crate) fn write_short(
    head: &PageHead,
    packet: &[u8],
    bytes: &mut Vec<u8>,
) -> Result<(), Memory> {
    match u8::try_from(packet.len()) {
        Ok(len) => write_page(head, &[len], packet, bytes),
        Err(_) => Err(Memory),
    }
}

/// The file of these pages, made once more if memory is refused.
pub(crate) fn file_again(alloc: Global, pages: &[PageSpec]) -> Result<Vec<u8>, Memory> {
    match file_of(alloc, pages, None) {
        Ok(bytes) => Ok(bytes),
        Err(_) => file_of(alloc, pages, None),
    }
}

/// Bytes of which a read fails if it is longer than the longest page, and so does the read of this number, from 1 on;
/// at 0 no other read fails.
#[derive(Drop)]
pub(crate) struct Failing<'a> {
    bytes: &'a [u8],
    fails_at: u64,
    pub(crate) reads: u64,
    pub(crate) failures: u64,
}

impl<'a> Failing<'a> {
    /// Nothing is read yet.
    pub(crate) fn new(bytes: &'a [u8], fails_at: u64) -> Failing<'a> {
        Failing {
            bytes,
            fails_at,
            reads: 0,
            failures: 0,
        }
    }
}

impl<'a> PageSource for Failing<'a> {
    ghost use Rattle.std.specs.Prelude.{◌≡◌, length, refl};
    ghost use Rattle.std.proofs.Common.{◌∙◌};

    ghost bytes = { λ s. s.bytes.now };

    ghost size = { λ s. length s.bytes.now };

    ghost is_honest = { λ s. Unit {0} };

    ghost failures = { λ s. s.failures };

    ghost only_reads = { λ s t. s.bytes.now ≡ t.bytes.now };

    fn end(&self) -> u64 {
        self.bytes.len() as u64
    }

    fn read_at(&mut self, at: u64, buffer: &mut [u8]) -> Result<(), SourceFault> {
        self.reads = self.reads.saturating_add(1);
        if self.reads == self.fails_at || buffer.len() > 65_307 {
            self.failures = self.failures.saturating_add(1);
            return Err(SourceFault);
        }
        let (_, rest) = self.bytes.split_at(at as usize);
        buffer.copy_from_slice(rest.split_at(buffer.len()).0);
        Ok(())
    }

    ghost fits = { λ s h. refl };

    ghost reads_nothing = { λ s. refl };

    ghost reads_on = { λ s t u first second. first ∙ second };
}

/// A window over a range of a source, as far as the source has it.
pub(crate) fn over<S: PageSource>(source: S, buffer: PageBuffer, from: u64, to: u64) -> Window<S> {
    let end = to.min(source.end());
    Window::new(source, buffer, from.min(end), end)
}
