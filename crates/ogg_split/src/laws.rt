//! What always holds of streams in an index, and of good pages.
ghost use Rattle.std.specs.Prelude.{◌≡◌, List, ℕ, Some, slice_get};
ghost use Rattle.ogg_page.specs.Page.{Page};
ghost use Rattle.link_chain.specs.Links.{AreLinks, has_stream};
ghost use Rattle.link_index.specs.Index.{LinkEntry, index_of};
ghost use Rattle.ogg_split.specs.Asked.{has_serial};
ghost use Rattle.ogg_split.specs.Salvage.{AreGoodPages};
ghost use Rattle.ogg_split.specs.declared.salvaging.GoodPage.{GoodPage as GoodPageOf};

/// The index has a stream with a serial in the entry of a link if, and only if, the link has such a stream.
pub fn index_has_the_streams()
    ensures { (bytes : List ℕ) (links : List (List Page)) (number serial : ℕ) (pages : List Page) (entry : LinkEntry)
        → AreLinks bytes links → slice_get links number ≡ Some pages → slice_get (index_of links) number ≡ Some entry
        → has_serial entry.streams serial ≡ has_stream pages serial }
{}

/// Bytes have exactly one list of good pages.
pub fn good_pages_are_one_list()
    ensures { (bytes : List ℕ) (ranges others : List GoodPageOf) → AreGoodPages bytes ranges → AreGoodPages bytes others → ranges ≡ others }
{}
