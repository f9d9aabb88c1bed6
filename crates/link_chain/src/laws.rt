//! What always holds of the pages that a chain takes.
ghost use Rattle.std.specs.Prelude.{◌≡◌, ◌↔◌, None, List, [], ℕ};
ghost use Rattle.std.specs.List.{AllByRecursion};
ghost use Rattle.ogg_page.specs.Page.{Page, IsPage, IsByte, bytes_of_pages};
ghost use Rattle.link_chain.specs.Links.{AreLinks};
ghost use Rattle.link_chain.specs.Recording.{Recording, HoldsLinks, Holds};
ghost use Rattle.link_chain.specs.ChainState.{chain_state_of};
ghost use Rattle.link_chain.specs.Taking.{AreTaken, unfinished_stream};

/// The pages of a list are taken in turn, from no links on, exactly if their bytes are a chain of
/// links, and then the links are these (RFC 3533, section 4).
pub fn pages_in_turn_are_links()
    ensures { (pages : List Page) (links : List (List Page)) → AllByRecursion IsPage pages →
        AreTaken [] pages links ↔ AreLinks (bytes_of_pages pages) links }
{}

/// Links in which no packet is left unfinished hold a recording: what their streams' lacing values
/// and bodies spell (RFC 3533, section 5).
pub fn links_left_whole_hold_a_recording()
    ensures { (bytes : List ℕ) (links : List (List Page)) → AreLinks bytes links → unfinished_stream (chain_state_of links) ≡ None →
        (recording : Recording) × HoldsLinks links recording }
{}

/// The same bytes are one chain of links at most, and hold one recording at most; the bytes of links
/// are below 256.
pub fn bytes_are_one_chain()
    ensures links { (bytes : List ℕ) (links others : List (List Page)) → AreLinks bytes links → AreLinks bytes others → links ≡ others }
    ensures recording { (bytes : List ℕ) (recording other : Recording) → Holds bytes recording → Holds bytes other → recording ≡ other }
    ensures bytes { (bytes : List ℕ) (links : List (List Page)) → AreLinks bytes links → AllByRecursion IsByte bytes }
{}
