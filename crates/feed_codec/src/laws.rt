//! What always holds of records.
ghost use Rattle.std.specs.Prelude.{◌≡◌, ◌++◌, Bool, true, List, ℕ, Option, Some, None};
ghost use Rattle.std.specs.Io.KnownBytes.{Consumes, IsAtEnd};
ghost use Rattle.feed_records.specs.Record.{HasItem, HasRecord, IsFeed, item_bytes, record_of};
ghost use Rattle.feed_codec.specs.Feed.{HasFault};
ghost use Rattle.feed_replies.specs.declared.fault.FeedFault.{FeedFault};
ghost use Rattle.feed_records.specs.declared.item.Item.{Item};
ghost use Rattle.feed_records.specs.declared.item.Record.{Record};
ghost use Rattle.feed_records.specs.declared.version.Version.{Version};

/// If two records of one version begin the same bytes, they are one record, and the same bytes follow. So no record's
/// bytes are a proper prefix of another's, nor of the announcement's.
pub fn records_are_prefix_free()
    ensures { (version : Version) (a b : Item) (x y : List ℕ) → HasItem true version a → HasItem true version b
        → item_bytes version a ++ x ≡ item_bytes version b ++ y → (a ≡ b) × (x ≡ y) }
{}

/// A record is read back. Bytes that begin with a record aren't the feed's end and have no fault. They are read as no
/// other record, and only the bytes after the record are left.
pub fn records_are_read_back()
    ensures not_the_end { (version : Version) (given : Record) (rest : List ℕ) → ¬ IsAtEnd (Some (record_of version given ++ rest)) }
    ensures no_fault { (version : Version) (given : Record) (rest : List ℕ) (fault : FeedFault) → HasRecord version given
        → ¬ HasFault (Some version) (Some (record_of version given ++ rest)) fault }
    ensures same { (version : Version) (given other : Record) (rest new : List ℕ) → HasRecord version given → HasRecord version other
        → Consumes (Some (record_of version given ++ rest)) (Some new) (record_of version other) → (other ≡ given) × (new ≡ rest) }
{}

/// A feed's bytes determine its version, its records, and the rest after them.
pub fn feeds_are_unambiguous()
    ensures { (bytes : List ℕ) (v w : Version) (cs ds : List Record) (x y : List ℕ) → IsFeed bytes v cs x → IsFeed bytes w ds y
        → (v ≡ w) × (cs ≡ ds) × (x ≡ y) }
{}
