//! A time that a person asks for.
ghost use Rattle.std.specs.Prelude.{◌≡◌, ◌≢◌, ◌∷◌, ◌+◌, ◌*◌, ℕ, List, ℤ, Err, IfSome, MatchOption, None, Ok, Some, slice_index};
ghost use Rattle.jiff.specs.Words.{parse_timestamp, plain_zone};
ghost use Rattle.jiff_core.specs.declared.error.Error.{Error as ErrorOf};
ghost use Rattle.archive_clock.specs.Asked.{IsNotShown, IsShown, lacks_offset, millisecond_of};
ghost use Rattle.archive_clock.specs.Span.{IsSpan, nothing};

use crate::span::read_back;
use jiff::civil::DateTime;
use jiff::error::Part;
use jiff::tz::TimeZone;
use jiff::{Error, Timestamp};

/// No span of time: what lies so far back is now.
const NOTHING: &[u8] = b"0s";

fn millisecond_of(instant: Timestamp) -> Option<u64>
    ensures { result ≡ millisecond_of instant.nanosecond }
{
    let nanosecond = instant.as_nanosecond();
    if nanosecond < 0 {
        return None;
    }
    Some((nanosecond / 1_000_000) as u64)
}

/// The time of a text without an offset, as a clock of this zone shows it.
fn read_local(text: &str, zone: &TimeZone) -> Option<u64>
    ensures { MatchOption result (IsNotShown (plain_zone zone.now) text.now) (IsShown (plain_zone zone.now) text.now) }
{
    // The name of another zone isn't looked up.
    if text.as_bytes().contains(&b'[') {
        return None;
    }
    match text.parse::<DateTime>() {
        Ok(datetime) => match zone.to_timestamp(datetime) {
            Ok(instant) => millisecond_of(instant),
            Err(_) => None,
        },
        Err(_) => None,
    }
}

/// A time in milliseconds since 1970: an RFC 3339 text, the same without an offset in this zone, or a span back from
/// now; `-0s` is now.
pub fn read_time(text: &str, now: u64, zone: &TimeZone) -> Option<u64>
    ensures instant { (nanosecond : ℤ) → slice_index text.now 0 ≢ 45 → parse_timestamp text.now ≡ Ok nanosecond
        → result ≡ millisecond_of nanosecond }
    ensures refused { (error : ErrorOf) → slice_index text.now 0 ≢ 45 → parse_timestamp text.now ≡ Err error
        → error ≢ lacks_offset → result ≡ None }
    ensures local { slice_index text.now 0 ≢ 45 → parse_timestamp text.now ≡ Err lacks_offset
        → MatchOption result (IsNotShown (plain_zone zone.now) text.now) (IsShown (plain_zone zone.now) text.now) }
    ensures now { text.now ≡ 45 ∷ nothing → result ≡ Some now }
    ensures back { (span : List ℕ) (seconds time : ℕ) → text.now ≡ 45 ∷ span → span ≢ nothing → IsSpan span seconds
        → time + seconds * 1000 ≡ now → result ≡ Some time }
    ensures only { (span : List ℕ) → text.now ≡ 45 ∷ span → span ≢ nothing
        → IfSome result (λ time. (seconds : ℕ) × IsSpan span seconds × (time + seconds * 1000 ≡ now)) }
{
    if let [b'-', span @ ..] = text.as_bytes() {
        return if span == NOTHING {
            Some(now)
        } else {
            read_back(span, now)
        };
    }
    match text.parse::<Timestamp>() {
        Ok(instant) => millisecond_of(instant),
        Err(Error::Missing(Part::Offset)) => read_local(text, zone),
        Err(_) => None,
    }
}
