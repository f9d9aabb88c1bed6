//! What always holds of responses that get a field.
ghost use Rattle.std.specs.Prelude.{◌≡◌, ◌++◌, ℕ, List};
ghost use Rattle.serve_origins.specs.Added.{AreWritten, Writing, end_of, left_of, own_of, with_field, written_of};
ghost use Rattle.serve_origins.specs.declared.added.Added.TheVariants.{Nothing};

/// However a response is written, piece by piece, what was written is the front of the response with the field after its first
/// line, and what is left to be written follows, whatever else comes of it.
pub fn responses_have_their_field()
    ensures { (field : List ℕ) (writings : List Writing) (more : List ℕ) → AreWritten field Nothing writings
        → with_field field (own_of writings ++ more) ≡ written_of field Nothing writings ++ left_of (end_of Nothing writings) field more }
{}
