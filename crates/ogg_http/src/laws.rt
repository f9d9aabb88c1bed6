//! What always holds of ranges.
ghost use Rattle.std.specs.Prelude.{List, ℕ};
ghost use Rattle.ogg_http.specs.Range.{LiesIn, range_of};

/// If a `Range` field asks for a part of a representation of this length in bytes, each byte of the part is in the
/// representation (RFC 9110, section 14.1.2).
pub fn ranges_lie_inside()
    ensures { (text : List ℕ) (len : ℕ) → LiesIn len (range_of text len) }
{}
