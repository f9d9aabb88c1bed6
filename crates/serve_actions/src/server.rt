//! The commands that serve a file over HTTP, one connection after the other.

use crate::connections::{live_next, serve_next, unless};
use crate::feeds::{FileFeed, is_lost, open_feed, record_rest};
use crate::hubs::{close, open_grouped, open_hub};
use disk_model::FileDisk;
use fault_lines::Fault;
use ogg_serve::Hub;
use std::io;
use std::net::{TcpListener, TcpStream};
use std::time::Duration;

/// For how many seconds a client may neither send nor take a byte.
const PATIENCE: u64 = 30;

/// Serves the file for this many connections to the address.
pub fn serve(rt: &HostRuntime, file: &str, address: &str, count: u32) -> Result<(), Fault> {
    let mut opened = open_hub(rt, file)?;
    let served = serve_to(rt, &mut opened.hub, address, count);
    let (closed, _) = close(opened, served);
    closed
}

/// Serves this many connections to the address.
fn serve_to(
    rt: &HostRuntime,
    hub: &mut Hub<FileDisk>,
    address: &str,
    count: u32,
) -> Result<(), Fault> {
    let listener = listen(rt, address)?;
    unless(serve_each(hub, &listener, count))
}

/// Serves this many connections. Returns the first fault.
fn serve_each(hub: &mut Hub<FileDisk>, listener: &TcpListener, count: u32) -> Option<Fault> {
    let mut met = None;
    for _ in 0..count {
        // A connection that isn't accepted, or is cut, is no fault.
        if let Ok(stream) = accept(listener) {
            met = serve_next(hub, &mut &stream, &mut &stream, met);
        }
    }
    met
}

/// Serves the file for this many connections to the address, and records the feed into it meanwhile.
pub fn live(
    rt: &HostRuntime,
    file: &str,
    address: &str,
    feed: &str,
    count: u32,
    most: u32,
) -> Result<(), Fault> {
    let mut opened = open_grouped(rt, file, most)?;
    let served = live_to(rt, &mut opened.hub, address, feed, count);
    let (closed, _) = close(opened, served);
    closed
}

/// Serves this many connections to the address, and records the feed meanwhile.
fn live_to(
    rt: &HostRuntime,
    hub: &mut Hub<FileDisk>,
    address: &str,
    feed: &str,
    count: u32,
) -> Result<(), Fault> {
    let mut feed = open_feed(rt, feed)?;
    live_with(rt, hub, address, &mut feed, count)
}

/// Serves this many connections to the address, and records all of this feed.
fn live_with(
    rt: &HostRuntime,
    hub: &mut Hub<FileDisk>,
    address: &str,
    feed: &mut FileFeed,
    count: u32,
) -> Result<(), Fault> {
    let listener = listen(rt, address)?;
    let met = live_each(hub, &listener, feed, count);
    unless(record_rest(hub, feed, met))
}

/// Serves this many connections, unless the file is lost, and records the feed meanwhile. Returns the first fault.
fn live_each(
    hub: &mut Hub<FileDisk>,
    listener: &TcpListener,
    feed: &mut FileFeed,
    count: u32,
) -> Option<Fault> {
    let mut met = None;
    for _ in 0..count {
        if is_lost(feed) {
            break;
        }
        if let Ok(stream) = accept(listener) {
            met = live_next(hub, &mut &stream, &mut &stream, feed, met);
        }
    }
    met
}

/// Listens to an address.
fn listen(rt: &HostRuntime, address: &str) -> Result<TcpListener, Fault> {
    match TcpListener::bind(rt, address) {
        Ok(listener) => Ok(listener),
        Err(_) => Err(Fault::Net),
    }
}

/// The next connection, which is cut if its client is silent for too long.
fn accept(listener: &TcpListener) -> io::Result<TcpStream> {
    let (stream, _) = listener.accept()?;
    limit(&stream)?;
    Ok(stream)
}

/// Has the connection cut if its client is silent for too long.
fn limit(stream: &TcpStream) -> io::Result<()> {
    let patience = Some(Duration::from_secs(PATIENCE));
    stream.set_read_timeout(patience)?;
    stream.set_write_timeout(patience)
}
