//! The place in the file of what a request names.
ghost use Rattle.std.specs.Prelude.{◌≡◌, ℕ, List};
ghost use Rattle.std.specs.Option.{option_and_then};
ghost use Rattle.ogg_page.specs.Page.{Page};
ghost use Rattle.link_chain.specs.Links.{AreLinks};
ghost use Rattle.link_index.specs.Adding.{IsIndexOf};
ghost use Rattle.link_index.specs.Listing.{listing};
ghost use Rattle.ogg_http.specs.Target.{resource_of};
ghost use Rattle.ogg_http.specs.declared.target.Resource.TheVariants.{Link as LinkOf, Stream as StreamOf};
ghost use Rattle.serve_responses.specs.Response.{content_of};
ghost use Rattle.serve_sending.specs.Answering.{IsFound, bytes_with};

use link_index::{Index, StreamInfo};
use ogg_http::Resource;

/// What a resource has. Places and counts are in bytes.
#[derive(Clone, Copy, Debug, PartialEq, Eq)]
pub enum Found {
    /// The listing.
    Listing,
    /// This many bytes of the file, from the place on.
    File(u64, u64),
    /// The pages with this serial from the page at the place on, this many bytes of them.
    Pages(u32, u64, u64),
}

/// Finds what the target of a request names (RFC 9110, section 7.1).
pub fn find(index: &Index, target: &[u8]) -> Option<Found>
    ensures { (committed : List ℕ) (links : List (List Page)) → AreLinks committed links → IsIndexOf links index.now
        → IsFound committed (listing index.now.chain.chain.length_of index.now.entries)
        (option_and_then (content_of links) (resource_of target.now)) result }
{
    match Resource::of(target) {
        Some(resource) => find_resource(index, resource),
        None => None,
    }
}

fn find_resource(index: &Index, resource: Resource) -> Option<Found>
    ensures { (committed : List ℕ) (links : List (List Page)) → AreLinks committed links → IsIndexOf links index.now
        → IsFound committed (listing index.now.chain.chain.length_of index.now.entries) (content_of links resource) result }
{
    match resource {
        Resource::List => Some(Found::Listing),
        Resource::All => Some(Found::File(0, index.end())),
        Resource::Link(number) => find_link(index, number),
        Resource::Stream(number, serial) => find_stream(index, number, serial),
    }
}

fn find_link(index: &Index, number: u32) -> Option<Found>
    ensures { (committed text : List ℕ) (links : List (List Page)) → AreLinks committed links → IsIndexOf links index.now
        → IsFound committed text (content_of links (LinkOf number)) result }
{
    let end = index.end();
    match index.link(number) {
        Some(link) => {
            // The file ends at a `u64`, so each place in the link is one.
            if link.start > end || link.length > end - link.start {
                return None;
            }
            Some(Found::File(link.start, link.length))
        }
        None => None,
    }
}

fn find_stream(index: &Index, number: u32, serial: u32) -> Option<Found>
    ensures { (committed text : List ℕ) (links : List (List Page)) → AreLinks committed links → IsIndexOf links index.now
        → IsFound committed text (content_of links (StreamOf number serial)) result }
{
    match index.link(number) {
        Some(link) => match index.streams(number) {
            Some(streams) => match bytes_with(streams, serial) {
                Some(bytes) => Some(Found::Pages(serial, link.start, bytes)),
                None => None,
            },
            None => None,
        },
        None => None,
    }
}

/// How many bytes the first of the streams with this serial has.
fn bytes_with(streams: &[StreamInfo], serial: u32) -> Option<u64>
    ensures { result ≡ bytes_with serial streams.now }
{
    let mut rest = streams;
    while let Some((stream, others)) = rest.split_first() {
        if stream.serial == serial {
            return Some(stream.bytes);
        }
        rest = others;
    }
    None
}
