//! Listeners that join at each boundary, and pull while page after page is committed.
use crate::packets::are_right;
use crate::recording::{Joinable, Made};
use link_index::Index;
use ogg_page::{PageSource, Pages, Whole};
use serve_live::{JoinFault, Listener};
use std::alloc::{AllocError, Global};

/// How many bytes a listener pulls at once.
const PIECES: [usize; 7] = [1, 2, 26, 27, 28, 282, 65_536];

/// Whether a listener at each boundary hears what it should.
pub fn is_heard(alloc: Global, made: &Made, seed: u64) -> Result<bool, AllocError> {
    let ends = page_ends(alloc, &made.bytes)?;
    let mut turn = seed;
    for at in &made.boundaries {
        turn = turn.wrapping_add(1);
        // Short pieces of long files would take too long.
        let size = if made.bytes.len() > 30_000 {
            PIECES[(5 + turn % 2) as usize]
        } else {
            PIECES[(turn % 7) as usize]
        };
        // It joins at once, or when all of the link is committed.
        let joined = if turn % 2 == 0 {
            at.place.boundary
        } else {
            at.link_end
        };
        let Some(listener) = join(alloc, &made.bytes, at, joined)? else {
            return Ok(false);
        };
        let heard = pull_all(alloc, listener, &made.bytes, &ends, joined, size)?;
        if !are_right(alloc, &made.bytes, &heard, at)? {
            return Ok(false);
        }
    }
    Ok(true)
}

/// Where each page ends.
pub fn page_ends(alloc: Global, bytes: &[u8]) -> Result<Vec<u64>, AllocError> {
    let mut ends = Vec::new(alloc);
    for found in Pages::of(bytes) {
        if let Ok((offset, page)) = found {
            ends.push(offset.saturating_add(page.whole().len() as u64))?;
        }
    }
    Ok(ends)
}

/// A listener that joins when the bytes up to `joined` are committed.
pub fn join(
    alloc: Global,
    bytes: &[u8],
    at: &Joinable,
    joined: u64,
) -> Result<Option<Listener>, AllocError> {
    let end = (joined as usize).min(bytes.len());
    let Ok(index) = Index::scan(alloc, &bytes[..end]) else {
        return Ok(None);
    };
    let mut source = Whole::of(bytes);
    join_over(alloc, &mut source, at, joined, &index)
}

/// The same over any source. A fault of the source is met once: a second call joins.
pub fn join_over<S: PageSource>(
    alloc: Global,
    source: &mut S,
    at: &Joinable,
    joined: u64,
    index: &Index,
) -> Result<Option<Listener>, AllocError> {
    for _ in 0..2 {
        match Listener::join(alloc, source, at.place, joined, index.last_streams()) {
            Ok(listener) => return Ok(Some(listener)),
            Err(JoinFault::Source) => {}
            Err(JoinFault::Memory) => return Err(AllocError),
        }
    }
    Ok(None)
}

/// What a listener hears in pieces of this size, while page after page is committed.
pub fn pull_all(
    alloc: Global,
    listener: Listener,
    bytes: &[u8],
    ends: &[u64],
    joined: u64,
    size: usize,
) -> Result<Vec<u8>, AllocError> {
    let mut listener = listener;
    let mut heard = Vec::new(alloc);
    let mut buffer = vec![in alloc; 0u8; size]?;
    for end in ends {
        if *end >= joined && *end as usize <= bytes.len() {
            let mut source = Whole::of(&bytes[..*end as usize]);
            pull_to(&mut listener, &mut source, *end, &mut buffer, &mut heard)?;
        }
    }
    Ok(heard)
}

/// Pulls until nothing is left of what is committed. The first pull that fails is made again.
pub fn pull_to<S: PageSource>(
    listener: &mut Listener,
    source: &mut S,
    end: u64,
    buffer: &mut Vec<u8>,
    heard: &mut Vec<u8>,
) -> Result<(), AllocError> {
    let mut faults = 0;
    for _ in 0..u64::MAX {
        match listener.pull(source, end, buffer.as_mut_slice()) {
            Ok(0) => break,
            Ok(count) => heard.extend_from_slice(&buffer[..count.min(buffer.len())])?,
            Err(_) if faults == 0 => faults = 1,
            Err(_) => break,
        }
    }
    Ok(())
}
