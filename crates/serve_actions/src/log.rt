//! What a station tells: where it can be reached, and its log, which has a line for each connection at its end, and two
//! for each source.
ghost use Rattle.std.specs.Prelude.{◌≤◌, length};

use crate::lines::{SourceCounts, begin_line, end_line, foreign_line, serving_line};
use ogg_page::write_whole;
use record_actions::Told;
use serve_sources::FULL;
use serve_texts::Visit;
use station_sources::Counts;
use std::alloc::{AllocError, Global};
use std::net::SocketAddr;

/// The greatest length of an address that is told. None is longer.
const LONGEST_ADDRESS: usize = 64;

/// Tells that the station can be reached at this address. Nobody is told of a standard error that takes no more.
pub fn tell_serving(rt: &HostRuntime, address: SocketAddr) {
    if let Ok(address) = address.to_string(rt.alloc()) {
        let line = serving_line(shown(address.as_bytes()));
        let _ = write_whole(&mut rt.stderr(), line.as_slice());
    }
}

/// Tells that a source was turned away, since its stream isn't Ogg: standard input, or a connection, whose address is
/// known unless it is closed.
pub fn tell_foreign(
    rt: &HostRuntime,
    told: &mut Told<'_>,
    is_input: bool,
    address: Option<SocketAddr>,
) {
    match address {
        Some(address) => tell_foreign_from(address.to_string(rt.alloc()), told),
        None if is_input => told.turned_away(foreign_line(b"input").as_slice()),
        None => told.turned_away(foreign_line(b"a connection").as_slice()),
    }
}

/// The same of a connection from this address. It isn't told without memory for its text.
fn tell_foreign_from(address: Result<String, AllocError>, told: &mut Told<'_>) {
    match address {
        Ok(address) => told.turned_away(foreign_line(shown(address.as_bytes())).as_slice()),
        Err(_) => told.turned_away(foreign_line(b"a connection").as_slice()),
    }
}

/// An address as it is told.
fn shown(address: &[u8]) -> &[u8]
    ensures { length result.now ≤ 64 }
{
    &address[..address.len().min(LONGEST_ADDRESS)]
}

/// What is told of connections and of sources, if anything is. Nobody is told where memory is refused.
#[derive(Drop)]
pub struct Log {
    alloc: Global,
    is_on: bool,
    // the lines that aren't told yet
    lines: Vec<u8>,
    // what had been counted when the source began that was told last
    begun: Counts,
}

impl Log {
    /// Nothing is told yet, and this is counted already.
    pub fn new(alloc: Global, is_on: bool, begun: Counts) -> Log {
        Log {
            alloc,
            is_on,
            lines: Vec::new(alloc),
            begun,
        }
    }

    /// A connection from this address has ended at this second, counted from 1970.
    pub fn visited(&mut self, address: SocketAddr, visit: &Visit, seconds: u64) {
        if let Ok(address) = address.ip().to_string(self.alloc) {
            let _ = visit.append_line(&mut self.lines, address.as_bytes(), seconds);
        }
    }

    /// A connection from this address was refused at this second, since there are too many.
    pub fn refused(&mut self, address: SocketAddr, seconds: u64) {
        if self.is_on {
            let mut visit = Visit::new(self.alloc);
            visit.sent(FULL);
            self.visited(address, &visit, seconds);
        }
    }

    /// If a source has begun since this was asked before, that is told. Its address is known of a connection.
    pub fn source(&mut self, counts: Counts, address: Option<SocketAddr>) {
        if counts.sources == self.begun.sources {
            return;
        }
        self.begun = counts;
        match address {
            Some(address) => self.source_from(address.to_string(self.alloc)),
            None => self.source_begun(b"input"),
        }
    }

    /// A source has begun that comes from this address.
    fn source_from(&mut self, address: Result<String, AllocError>) {
        if let Ok(address) = address {
            self.source_begun(address.as_bytes());
        }
    }

    /// A source has begun that comes from this address.
    fn source_begun(&mut self, address: &[u8]) {
        self.add(begin_line(self.begun.sources, shown(address)).as_slice());
    }

    /// The source has ended, and this is counted by now.
    pub fn source_ended(&mut self, counts: Counts) {
        let begun = self.begun;
        let line = end_line(SourceCounts {
            number: begun.sources,
            links: counts.links.saturating_sub(begun.links),
            packets: counts.packets.saturating_sub(begun.packets),
            mends: counts.mends.all().saturating_sub(begun.mends.all()),
        });
        self.add(line.as_slice());
    }

    fn add(&mut self, line: &[u8]) {
        if self.is_on {
            let _ = self.lines.extend_from_slice(line);
        }
    }

    /// Tells what has come since this was asked before.
    pub fn tell(&mut self, told: &mut Told<'_>) {
        if !self.lines.is_empty() {
            told.tell(self.lines.as_slice());
            self.lines.clear();
        }
    }
}
