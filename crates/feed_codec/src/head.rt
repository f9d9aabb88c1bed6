//! The head of a record: its kind, and how long its payload is.
ghost use Rattle.std.specs.Prelude.{◌≡◌, IsTrue, MatchOption, MatchResult, Some, false};
ghost use Rattle.feed_codec.specs.Feed.{is_kind, head_fault};
ghost use Rattle.feed_codec.specs.RecordKind.{number_of};
ghost use Rattle.feed_codec.specs.Reading.{IsHead, head_bytes};

use feed_records::{HEAD, MOST_PAYLOAD};
use feed_replies::FeedFault;
use ogg_page::{take_u8, take_u32};

/// What a record holds.
#[derive(Clone, Copy, Debug, PartialEq, Eq)]
pub enum RecordKind {
    Announcement,
    Begin,
    Put,
    End,
    Flush,
}

/// A record's head.
#[derive(Clone, Copy, Debug, PartialEq, Eq)]
pub struct Head {
    pub kind: RecordKind,
    pub length: usize,
}

/// The kind with this number, if there is one. Only the first record of a feed may be an announcement.
fn kind_of(first: bool, number: u8) -> Option<RecordKind>
    ensures { MatchOption result (is_kind first number ≡ false)
        (λ kind. (number_of kind ≡ number) × IsTrue (is_kind first number)) }
{
    match number {
        0 if first => Some(RecordKind::Announcement),
        1 => Some(RecordKind::Begin),
        2 => Some(RecordKind::Put),
        3 => Some(RecordKind::End),
        4 => Some(RecordKind::Flush),
        _ => None,
    }
}

/// The head that these bytes are, of the first record of a feed or of a later one.
pub fn head_of(first: bool, bytes: &[u8; HEAD]) -> Result<Head, FeedFault>
    ensures { MatchResult result (λ head. IsHead first head × (bytes.now ≡ head_bytes head))
        (λ fault. head_fault first bytes.now ≡ Some fault) }
{
    let (number, rest) = take_u8(bytes);
    let (length, _) = take_u32(rest);
    let length = length as usize;
    match kind_of(first, number) {
        None => Err(FeedFault::Kind),
        Some(_) if length > MOST_PAYLOAD => Err(FeedFault::Length),
        Some(kind) => Ok(Head { kind, length }),
    }
}
