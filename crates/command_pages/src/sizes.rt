//! How many bytes the pages of a new link have.
ghost use Rattle.std.specs.Prelude.{◌≡◌, ◌≤◌, ◌+◌, ◌*◌, ◌++◌, false, length, sum_by, take, drop, IfSome};
ghost use Rattle.std.specs.List.{list_any, flat_map};
ghost use Rattle.link_chain.specs.Size.{has_no_number, size_of_pages};
ghost use Rattle.command_pages.specs.Encoding.{first_pages, header_pages, pages_of_begin};
ghost use Rattle.command_pages.specs.Fits.{header_bytes, has_many_headers, BeginFits};
ghost use Rattle.command_pages.specs.Limits.{longest_batch, longest_headers, longest_begin, most_headers, most_streams, most_for_each};

use crate::skeleton::size_of_skeleton;
use ogg_command::{Listed, NewStream, SkeletonHead};
use packetiser::size_of_run;

/// A stream's first header, if it has one, and its other headers.
pub fn split_headers(headers: &[Listed<u8>]) -> (&[Listed<u8>], &[Listed<u8>])
    ensures first { result.0.now ≡ take 1 headers.now }
    ensures others { result.1.now ≡ drop 1 headers.now }
{
    headers.split_at(headers.len().min(1))
}

/// How many bytes the first page and the other header pages of a stream have.
fn size_of_stream(stream: &NewStream) -> u64
    requires short { header_bytes stream.now ≤ longest_batch }
    requires few { length stream.now.headers ≤ most_headers }
    ensures value { result ≡ size_of_pages (first_pages stream.now) + size_of_pages (header_pages stream.now) }
    ensures small { result ≤ most_for_each * (header_bytes stream.now + length stream.now.headers) }
{
    let (first, others) = split_headers(stream.headers.as_slice());
    size_of_run(first) + size_of_run(others)
}

/// How many bytes the pages of a new link's streams have.
pub fn size_of_streams(streams: &[NewStream]) -> u64
    requires short { sum_by header_bytes streams.now ≤ longest_batch }
    requires few { list_any has_many_headers streams.now ≡ false }
    requires links { length streams.now ≤ most_streams }
    ensures value { result ≡ size_of_pages (flat_map first_pages streams.now ++ flat_map header_pages streams.now) }
    ensures numbered { list_any has_no_number (flat_map first_pages streams.now ++ flat_map header_pages streams.now) ≡ false }
    ensures small { result ≤ longest_headers }
{
    let mut size = 0;
    for stream in streams {
        size += size_of_stream(stream);
    }
    size
}

/// How many bytes the pages of a new link have.
pub fn size_of_begin(skeleton: Option<SkeletonHead>, streams: &[NewStream]) -> u64
    requires fits { BeginFits skeleton streams.now }
    ensures value { result ≡ size_of_pages (pages_of_begin skeleton streams.now) }
    ensures numbered { list_any has_no_number (pages_of_begin skeleton streams.now) ≡ false }
    ensures small { result ≤ longest_begin }
    ensures time { IfSome skeleton (λ head. length head.utc ≡ 20) }
{
    match skeleton {
        None => size_of_streams(streams),
        Some(head) => size_of_streams(streams) + size_of_skeleton(&head, streams),
    }
}
