//! What always holds of responses.
ghost use Rattle.std.specs.Prelude.{◌≡◌, ℕ, List, Option, Some, drop, length, slice_get, take, true};
ghost use Rattle.ogg_page.specs.Page.{Page, bytes_of_pages};
ghost use Rattle.link_chain.specs.Links.{AreLinks, has_stream, pages_with};
ghost use Rattle.link_index.specs.Index.{LinkEntry, index_of};
ghost use Rattle.link_index.specs.Listing.{listing};
ghost use Rattle.ogg_http.specs.declared.target.Resource.TheVariants.{List as ListingOf, All as AllOf, Link as LinkOf, Stream as StreamOf};
ghost use Rattle.serve_responses.specs.Framing.{IsFramedFor};
ghost use Rattle.serve_responses.specs.Response.{Asked, Content, Pages, Text, IsResponse, content_of, response_of};

use link_chain::bytes_are_one_chain;
use link_index::index_tells_places;
use ogg_http::ranges_lie_inside;

/// Over the same committed bytes, what was received has one response at most.
pub fn responses_are_unambiguous()
    ensures { (committed received some other : List ℕ) → IsResponse committed received some
        → IsResponse committed received other → some ≡ other }
{
    bytes_are_one_chain();
}

/// What a resource has lies in the committed bytes. The file is all of them, a link lies at the place that their
/// index says, and a stream is its pages in its link. The listing shows their length and their index.
pub fn contents_lie_in_the_file()
    ensures all { (committed : List ℕ) (links : List (List Page)) → AreLinks committed links
        → content_of links AllOf ≡ Some (Pages committed) }
    ensures link { (committed : List ℕ) (links : List (List Page)) (number : ℕ) (content : Content)
        → AreLinks committed links → content_of links (LinkOf number) ≡ Some content
        → (entry : LinkEntry) × (slice_get (index_of links) number ≡ Some entry)
        × (content ≡ Pages (take entry.info.length (drop entry.info.start committed))) }
    ensures stream { (committed : List ℕ) (links : List (List Page)) (number serial : ℕ) (content : Content)
        → AreLinks committed links → content_of links (StreamOf number serial) ≡ Some content
        → (link : List Page) × (slice_get links number ≡ Some link) × (has_stream link serial ≡ true)
        × (content ≡ Pages (bytes_of_pages (pages_with serial link))) }
    ensures list { (committed : List ℕ) (links : List (List Page)) → AreLinks committed links
        → content_of links ListingOf ≡ Some (Text (listing (length committed) (index_of links))) }
{
    index_tells_places();
}

/// The content that follows a response's head is as long as the head states, and none follows that of a response to
/// HEAD (RFC 9112, section 6.3).
pub fn responses_are_framed()
    ensures { (links : List (List Page)) (asked : Option Asked) → IsFramedFor asked (response_of links asked) }
{
    ranges_lie_inside();
}
