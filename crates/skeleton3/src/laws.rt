//! What always holds of media types and message fields.
ghost use Rattle.std.specs.Prelude.{◌≡◌, ℕ, List, IsTrue};
ghost use Rattle.std.specs.List.{AllByRecursion};
ghost use Rattle.skeleton3.specs.Fields.{NamedValue, IsField, IsFieldValue, is_field, is_media_type};
ghost use Rattle.skeleton3.specs.Fisbone.{Fisbone as FisboneValue, HoldsFisbone, fisbone_bytes_with};

/// A media type is a value that a message field can carry, so it is read as it was written.
pub fn media_types_are_field_values()
    ensures { (media : List ℕ) → IsTrue (is_media_type media) → IsFieldValue media }
{}

/// A field that a command may have is one that a packet can carry, so it is read as it was written.
pub fn fields_of_commands_are_fields()
    ensures { (field : NamedValue) → IsTrue (is_field field) → IsField field }
{}

/// A packet that is written with message fields holds the same fisbone as without them.
pub fn fisbones_with_fields_are_held()
    ensures { (packet : List ℕ) (fisbone : FisboneValue) (fields : List NamedValue) → IsFieldValue fisbone.media
        → AllByRecursion IsField fields → packet ≡ fisbone_bytes_with fields fisbone → HoldsFisbone packet fisbone }
{}
