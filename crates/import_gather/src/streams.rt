//! What is kept of the last link's streams, searched.
ghost use Rattle.std.specs.Prelude.{◌≡◌, ◌<◌, ◌^◌, true, nat_eq, nat_lt, IfOk, length, map};
ghost use Rattle.std.specs.List.{list_any, position};
ghost use Rattle.import_gather.specs.Kept.{KeptStream, TakenBy, has_kept, is_ready, is_waiting, kept_bytes, rest_of, without_rest};
ghost use Rattle.import_gather.specs.Limits.{most_kept};
ghost use Rattle.import_gather.specs.Refusals.{IsNoted};

use crate::grower::Grower;
use crate::kept::Kept;
use crate::limits::MOST_KEPT;
use ogg_command::{Listed, Memory};
use ogg_page::Page;

/// How many bytes of an unfinished packet are kept for the stream with this serial.
pub fn rest_len(streams: &[Kept], serial: u32) -> usize
    ensures value { result ≡ length (rest_of serial streams.now) }
    ensures bound { result < 2 ^ 63 }
{
    for stream in streams {
        if stream.serial() == serial {
            return stream.rest_len();
        }
    }
    0
}

/// Drops the unfinished packet of the stream with this serial.
pub fn drop_rest(streams: &mut [Kept], serial: u32)
    ensures { streams.new ≡ map (without_rest serial) streams.old }
{
    for stream in streams.iter_mut() {
        stream.drop_rest(serial);
    }
}

/// The place of the stream with this serial.
fn place_of(streams: &[Kept], serial: u32) -> Option<usize>
    ensures { result ≡ position (λ (stream : KeptStream). nat_eq stream.serial serial) streams.now }
{
    streams.iter().position(|stream| stream.serial() == serial)
}

/// The page's stream takes the page, and gives back the packets that end in it and aren't kept as headers.
pub fn take_page(
    grower: &mut Grower,
    streams: &mut [Kept],
    page: &Page<'_>,
    begun: bool,
) -> Result<Vec<Listed<u8>>, Memory>
    ensures noted { IsNoted result grower.old grower.new }
    ensures takes { IfOk result (λ later. has_kept page.now.serial streams.old ≡ true
        → TakenBy begun page.now streams.old streams.new later.items) }
{
    match place_of(streams, page.serial()) {
        Some(place) => {
            let stream = &mut streams[place];
            let later = stream.take_page(grower, page, begun)?;
            Ok(later)
        }
        None => Ok(grower.empty()),
    }
}

/// Whether a link of these streams can begin.
pub fn is_ready(streams: &[Kept]) -> bool
    ensures { result ≡ is_ready streams.now }
{
    !is_waiting(streams) || keeps_much(streams)
}

/// Whether one of the streams hasn't ended and wants further headers.
fn is_waiting(streams: &[Kept]) -> bool
    ensures { result ≡ list_any is_waiting streams.now }
{
    streams.iter().any(|stream| stream.is_waiting())
}

/// Whether the headers have more bytes together than they may have.
fn keeps_much(streams: &[Kept]) -> bool
    ensures { result ≡ nat_lt most_kept (kept_bytes streams.now) }
{
    let mut left = MOST_KEPT;
    for stream in streams {
        match stream.left_behind(left) {
            Some(less) => left = less,
            None => return true,
        }
    }
    false
}
