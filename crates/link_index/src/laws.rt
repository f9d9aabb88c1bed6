//! What always holds of indexes.
ghost use Rattle.std.specs.Prelude.{◌≡◌, ℕ, List, [], take, drop, length, Result, Ok, Err, Some, ⊤, slice_get};
ghost use Rattle.std.specs.List.{concat};
ghost use Rattle.ogg_page.specs.Page.{Page, bytes_of_pages};
ghost use Rattle.link_chain.specs.Links.{AreLinks};
ghost use Rattle.link_index.specs.declared.fault.IndexFault.{IndexFault as IndexFaultOf};
ghost use Rattle.link_index.specs.declared.fault.IndexFault.TheVariants.{Memory as NoMemory};
ghost use Rattle.link_index.specs.Adding.{AddsPages, IndexState, IsIndexOf};
ghost use Rattle.link_index.specs.Index.{LinkEntry, index_of};
ghost use Rattle.link_index.specs.Pieces.{AreAdded};

/// Bytes that were added as a whole are joined links, and the index is that of these links. If the bytes are joined
/// links, all of them are added, unless memory is refused.
pub fn links_are_indexed()
    ensures added { (bytes : List ℕ) (index : IndexState) → AddsPages [] bytes index (Ok tt) → (links : List (List Page)) × AreLinks bytes links
        × IsIndexOf links index × (index.chain.chain.length_of ≡ length bytes) }
    ensures each { (bytes : List ℕ) (links : List (List Page)) (index : IndexState) (fault : IndexFaultOf) → AreLinks bytes links
        → AddsPages [] bytes index (Err fault) → fault ≡ NoMemory }
{}

/// Pieces that join to the same bytes make the same index, however the bytes are cut between pages: that of the links
/// that they are.
pub fn pieces_give_one_index()
    ensures links { (pieces : List (List ℕ)) (links : List (List Page)) → AreAdded [] pieces links → AreLinks (concat pieces) links }
    ensures same { (pieces others : List (List ℕ)) (links other_links : List (List Page)) → AreAdded [] pieces links → AreAdded [] others other_links
        → concat pieces ≡ concat others → index_of links ≡ index_of other_links }
{}

/// A link's bytes are at the place that the index says.
pub fn index_tells_places()
    ensures { (bytes : List ℕ) (links : List (List Page)) (number : ℕ) (link : List Page) → AreLinks bytes links → slice_get links number ≡ Some link
        → (entry : LinkEntry) × (slice_get (index_of links) number ≡ Some entry)
        × (take entry.info.length (drop entry.info.start bytes) ≡ bytes_of_pages link) }
{}
