//! The pages of a link's Skeleton.
ghost use Rattle.std.specs.Prelude.{◌≡◌, ◌≤◌, ◌+◌, ◌*◌, ℕ, List, [], ◌∷◌, false, length};
ghost use Rattle.std.specs.List.{list_any};
ghost use Rattle.packetiser.specs.Run.{pages_of_run};
ghost use Rattle.skeleton3.specs.Fisbone.{fisbone_of as lent_fisbone};
ghost use Rattle.command_pages.specs.Limits.{longest_skeleton, most_headers, most_streams, longest_fishead_page, longest_fisbone_page};
ghost use Rattle.command_pages.specs.Fits.{has_many_headers, has_long_message};
ghost use Rattle.command_pages.specs.Encoding.{header, fishead_of, fisbone_of, fisbone_packet, fishead_pages, fisbone_pages, skeleton_end};
ghost use Rattle.link_chain.specs.Size.{size_of_pages};
ghost use Rattle.ogg_page.specs.Sizes.{empty_packet_page, longest_whole};

use ogg_command::{NewStream, SkeletonHead};
use packetiser::{size_of, values_of};
use skeleton3::{Fisbone, Fishead};

/// What a link's Skeleton says of the whole link.
pub fn fishead_of(head: &SkeletonHead) -> Fishead
    ensures value { result ≡ fishead_of head.now }
    ensures time { length head.now.utc ≡ 20 }
{
    Fishead {
        presentation: head.presentation,
        base: head.base,
        utc: head.utc,
    }
}

/// What a link's Skeleton says of a stream.
pub fn fisbone_of(stream: &NewStream) -> Fisbone<'_>
    requires { length stream.now.headers ≤ most_headers }
    ensures { lent_fisbone result ≡ fisbone_of stream.now }
{
    Fisbone {
        serial: stream.serial,
        headers: stream.headers.len() as u32,
        rate: stream.rate,
        base_granule: stream.base_granule,
        preroll: stream.preroll,
        shift: stream.shift,
        media: stream.media.as_slice(),
    }
}

/// How many bytes the page of a packet of `len` bytes has, at position 0.
fn size_of_packet(len: u64) -> u64
    requires { len ≤ longest_whole }
    ensures value { (serial first : ℕ) (packet : List ℕ) → length packet ≡ len
        → result ≡ size_of_pages (pages_of_run serial first (header packet ∷ [])) }
    ensures small { result ≤ empty_packet_page + 2 * len }
{
    size_of(values_of(len), len)
}

/// How many bytes the first page of a Skeleton has.
fn size_of_fishead(head: &SkeletonHead) -> u64
    ensures value { result ≡ size_of_pages (fishead_pages head.now) }
    ensures small { result ≤ longest_fishead_page }
    ensures time { length head.now.utc ≡ 20 }
{
    size_of_packet(fishead_of(head).size())
}

/// How many bytes the page of a stream's fisbone has.
fn size_of_fisbone(stream: &NewStream) -> u64
    requires few { length stream.now.headers ≤ most_headers }
    requires message { has_long_message stream.now ≡ false }
    ensures value { (serial first : ℕ) → result ≡ size_of_pages (pages_of_run serial first (header (fisbone_packet stream.now) ∷ [])) }
    ensures small { result ≤ longest_fisbone_page }
{
    size_of_packet(fisbone_of(stream).size_with(stream.fields.as_slice()))
}

/// How many bytes the last page of a Skeleton has.
fn size_of_skeleton_end() -> u64
    ensures value { (serial first : ℕ) → result ≡ size_of_pages (skeleton_end serial first) }
    ensures small { result ≤ empty_packet_page }
{
    size_of_packet(0)
}

/// How many bytes the pages of the fisbones of streams have.
fn size_of_fisbones(streams: &[NewStream]) -> u64
    requires links { length streams.now ≤ most_streams }
    requires few { list_any has_many_headers streams.now ≡ false }
    requires message { list_any has_long_message streams.now ≡ false }
    ensures value { (serial : ℕ) → result ≡ size_of_pages (fisbone_pages serial 1 streams.now) }
    ensures small { result ≤ longest_fisbone_page * most_streams }
{
    let mut size = 0;
    for stream in streams {
        size += size_of_fisbone(stream);
    }
    size
}

/// How many bytes the pages of a Skeleton have.
pub fn size_of_skeleton(head: &SkeletonHead, streams: &[NewStream]) -> u64
    requires links { length streams.now ≤ most_streams }
    requires few { list_any has_many_headers streams.now ≡ false }
    requires message { list_any has_long_message streams.now ≡ false }
    ensures value { result ≡ size_of_pages (fishead_pages head.now)
        + size_of_pages (fisbone_pages head.now.serial 1 streams.now)
        + size_of_pages (skeleton_end head.now.serial (length streams.now + 1)) }
    ensures small { result ≤ longest_skeleton }
    ensures time { length head.now.utc ≡ 20 }
{
    size_of_fishead(head) + size_of_fisbones(streams) + size_of_skeleton_end()
}
