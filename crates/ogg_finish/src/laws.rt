//! What always holds of finished links.
ghost use Rattle.std.specs.Prelude.{◌≡◌, ◌++◌, List, [], ◌∷◌, ℕ, true, false};
ghost use Rattle.std.specs.List.{flat_map, AllByRecursion};
ghost use Rattle.ogg_page.specs.Page.{Page, IsPage, bytes_of_pages};
ghost use Rattle.ogg_page.specs.LogicalStream.{is_last};
ghost use Rattle.link_chain.specs.ChainState.{last_position};
ghost use Rattle.link_chain.specs.Links.{AreLinks, IsLink, pages_with, has_ended};
ghost use Rattle.link_chain.specs.Recording.{Recording, HoldsLinks};
ghost use Rattle.ogg_finish.specs.Ended.{EndsFull};
ghost use Rattle.ogg_finish.specs.Finishing.{finished_links, finished_link, finished_stream};

/// Finished links are a chain of links, and hold the recording that the links held before.
pub fn finished_links_hold_the_same()
    ensures links { (bytes : List ℕ) (links : List (List Page)) → AreLinks bytes links →
        AreLinks (flat_map bytes_of_pages (finished_links links)) (finished_links links) }
    ensures holds { (bytes : List ℕ) (links : List (List Page)) (recording : Recording) → AreLinks bytes links
        → HoldsLinks links recording →
        HoldsLinks (finished_links links) recording }
    // Each stream is finished for itself, in the order that the link has.
    ensures streams { (link : List Page) (serial : ℕ) → pages_with serial (finished_link link) ≡ finished_stream (pages_with serial link) }
    // Each stream reaches the same position.
    ensures positions { (link : List Page) (serial : ℕ) → IsLink link → AllByRecursion IsPage link →
        last_position (pages_with serial (finished_link link)) ≡ last_position (pages_with serial link) }
    // A stream that has ended ends on a marked page with lacing values, or is as it was for a reason.
    ensures ends { (link : List Page) (serial : ℕ) → IsLink link → AllByRecursion IsPage link → has_ended link serial ≡ true →
        EndsFull (pages_with serial link) (pages_with serial (finished_link link)) }
{}

/// The first page of a link with more pages than one isn't marked as last (RFC 3533, section 4). So the mark never
/// moves to a stream's first page, since that may be the link's.
pub fn link_goes_on_after_its_first_page()
    ensures { (page next : Page) (pages : List Page) → IsLink (page ∷ next ∷ pages) → is_last page ≡ false }
{}
