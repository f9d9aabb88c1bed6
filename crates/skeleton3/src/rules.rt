//! Which media types and fields a command may have.
ghost use Rattle.std.specs.Prelude.{◌≡◌, ◌&&◌, nat_eq, nat_le};
ghost use Rattle.std.specs.List.{list_all, list_any};
ghost use Rattle.skeleton3.specs.Fields.{is_media_type, is_name_byte, is_field_name, is_field};

use crate::field::Field;
use crate::fields::is_content_type;

/// The most bytes of a media type, and of a field's value, in a command.
pub const LONGEST_VALUE: usize = 255;

/// The most bytes of a field's name in a command.
pub const LONGEST_NAME: usize = 64;

/// The most message fields that a command may have for a stream, without that of its media type.
pub const MOST_FIELDS: usize = 16;

/// Whether a text has only printing characters.
fn is_printing(text: &[u8]) -> bool
    ensures { result ≡ list_all (λ c. nat_le 0x20 c && nat_le c 0x7e) text.now }
{
    text.iter().all(|c| 0x20 <= *c && *c <= 0x7e)
}

/// Whether there is a space in a text.
fn has_space(text: &[u8]) -> bool
    ensures { result ≡ list_any (nat_eq 0x20) text.now }
{
    text.iter().any(|c| 0x20 == *c)
}

/// Whether a command with a Skeleton may name this media type: 1 to 255 printing ASCII characters, with no space
/// at the ends. No memory is taken.
pub fn is_media_type(media: &[u8]) -> bool
    ensures { result ≡ is_media_type media.now }
{
    if media.is_empty() || media.len() > LONGEST_VALUE {
        return false;
    }
    let (first, _) = media.split_at(1);
    let (_, last) = media.split_at(media.len() - 1);
    is_printing(media) && !has_space(first) && !has_space(last)
}

/// Whether a byte is an ASCII letter, a digit or `-`.
fn is_name_byte(c: u8) -> bool
    ensures { result ≡ is_name_byte c }
{
    0x41 <= c && c <= 0x5a || 0x61 <= c && c <= 0x7a || 0x30 <= c && c <= 0x39 || c == 0x2d
}

fn has_name_bytes(name: &[u8]) -> bool
    ensures { result ≡ list_all is_name_byte name.now }
{
    name.iter().all(|c| is_name_byte(*c))
}

/// Whether a command may name a field so: 1 to 64 ASCII letters, digits and `-`, and not `Content-Type`.
fn is_field_name(name: &[u8]) -> bool
    ensures { result ≡ is_field_name name.now }
{
    if name.is_empty() || name.len() > LONGEST_NAME {
        return false;
    }
    has_name_bytes(name) && !is_content_type(name)
}

/// Whether a command with a Skeleton may have this field: its name is 1 to 64 ASCII letters, digits and `-`, and not
/// `Content-Type` in any case, and its value follows the rule for media types. No memory is taken.
pub fn is_field(field: &Field) -> bool
    ensures { result ≡ is_field field.now }
{
    is_field_name(field.name()) && is_media_type(field.value())
}
