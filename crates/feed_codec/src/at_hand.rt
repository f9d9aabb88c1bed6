//! What of a feed lies whole in bytes that were read ahead.
ghost use Rattle.std.specs.Prelude.{IfSome};
ghost use Rattle.feed_codec.specs.Reading.{BeginsWithPut};

use crate::head::{Head, RecordKind, head_of};
use crate::payload::is_payload;
use feed_records::{HEAD, Version};

/// The payload of the put at the front, if all of it is there and well-formed. What it may be otherwise isn't said.
pub fn put_at_front(version: Version, bytes: &[u8]) -> Option<&[u8]>
    ensures { IfSome result (λ payload. BeginsWithPut version bytes.now payload.now) }
{
    let (head, rest) = bytes.split_first_chunk::<HEAD>()?;
    let length = match head_of(false, head) {
        Ok(
            Head {
                kind: RecordKind::Put,
                length,
            },
        ) => length,
        _ => return None,
    };
    let (payload, _) = rest.split_at_checked(length)?;
    if is_payload(version, RecordKind::Put, payload) {
        Some(payload)
    } else {
        None
    }
}
