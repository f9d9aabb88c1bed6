//! What always holds of the rests of responses that are kept as places.
ghost use Rattle.std.specs.Prelude.{◌≡◌, ◌≢◌, ◌+◌, ◌<◌, ◌≤◌, ◌++◌, ℕ, List, Some, length, take, drop, slice_get};
ghost use Rattle.ogg_page.specs.Page.{Page, AreBytes, IsPage, bytes_of_pages, page_bytes};
ghost use Rattle.link_chain.specs.Links.{AreLinks, pages_with};
ghost use Rattle.serve_machine.specs.Places.{part_at, BeginsWithLink, LiesIn, IsStreamRest, stream_rest};

use ogg_page::{
    longest_prefix_of_pages_is_unique, page_bytes_are_prefix_free, pages_are_found_in_turn,
};

/// A part of the committed bytes stays as it is while they grow; its front is a part, and so is what follows its
/// front.
pub fn parts_are_places()
    ensures stays { (place count : ℕ) (committed more : List ℕ) → LiesIn place count committed
        → part_at place count (committed ++ more) ≡ part_at place count committed }
    ensures front { (place n left : ℕ) (committed : List ℕ)
        → take n (part_at place (n + left) committed) ≡ part_at place n committed }
    ensures rest { (place n left : ℕ) (committed : List ℕ)
        → drop n (part_at place (n + left) committed) ≡ part_at (place + n) left committed }
{}

/// The rest of a stream stays as it is while the committed bytes grow, and its place moves on page by page. A page of
/// another stream is passed over, and so is one of the stream's own that lies before the rest. Of any other page the
/// next bytes are given.
pub fn stream_rests_are_places()
    ensures stays { (committed more : List ℕ) (serial place skip count : ℕ) (rest : List ℕ)
        → IsStreamRest committed serial place skip count rest
        → IsStreamRest (committed ++ more) serial place skip count rest }
    ensures other { (committed : List ℕ) (serial place skip count : ℕ) (rest : List ℕ) (page : Page) (more : List ℕ)
        → IsStreamRest committed serial place skip count rest
        → 0 < count → IsPage page → drop place committed ≡ page_bytes page ++ more → page.serial ≢ serial
        → IsStreamRest committed serial (place + length (page_bytes page)) skip count rest }
    ensures passed { (committed : List ℕ) (serial place skip count : ℕ) (rest : List ℕ) (page : Page) (more : List ℕ)
        → IsStreamRest committed serial place (length (page_bytes page) + skip) count rest
        → 0 < count → IsPage page → drop place committed ≡ page_bytes page ++ more → page.serial ≡ serial
        → IsStreamRest committed serial (place + length (page_bytes page)) skip count rest }
    ensures given { (committed : List ℕ) (serial place skip n left : ℕ) (rest : List ℕ) (page : Page) (more : List ℕ)
        → IsStreamRest committed serial place skip (n + left) rest
        → 0 < n + left → IsPage page → drop place committed ≡ page_bytes page ++ more → page.serial ≡ serial
        → skip + n ≤ length (page_bytes page)
        → (take n rest ≡ part_at skip n (page_bytes page))
        × IsStreamRest committed serial place (skip + n) left (drop n rest) }
{
    // For the proof alone.
    page_bytes_are_prefix_free();
}

/// The rest of a stream is the one that `stream_rest` finds at its place.
pub fn stream_rests_are_found()
    ensures { (committed : List ℕ) (serial place skip count : ℕ) (rest : List ℕ)
        → AreBytes committed → IsStreamRest committed serial place skip count rest
        → stream_rest committed serial place skip count ≡ rest }
{
    // For the proof alone.
    longest_prefix_of_pages_is_unique();
    pages_are_found_in_turn();
}

/// Any part of a stream is a rest that begins where the index says that its link begins.
pub fn stream_rests_begin_with_links()
    ensures { (committed : List ℕ) (links : List (List Page)) (number : ℕ) (link : List Page) (serial skip count : ℕ)
        → AreLinks committed links → slice_get links number ≡ Some link
        → skip + count ≤ length (bytes_of_pages (pages_with serial link))
        → BeginsWithLink committed links number link serial skip count }
{}
