//! Spans of time.
ghost use Rattle.std.specs.Prelude.{◌≡◌, ◌+◌, ◌*◌, ◌↔◌, ◌++◌, ◌∷◌, [], ℕ, decimal, IfSome, IsTrue, MatchOption, Some};
ghost use Rattle.archive_clock.specs.Span.{IsSpan, seconds_in};

use archive_times::number_at_front;
use itoa::Buffer;

/// The seconds of one unit, or 0 for a letter that names none.
fn seconds_in(letter: u8) -> u64
    ensures { result ≡ seconds_in letter }
{
    match letter {
        b's' => 1,
        b'm' => 60,
        b'h' => 3600,
        b'd' => 86_400,
        b'w' => 604_800,
        _ => 0,
    }
}

/// Whether these are the digits of a number, without zeros in front.
fn is_decimal(digits: &[u8], number: u64) -> bool
    ensures { IsTrue result ↔ (digits.now ≡ decimal number) }
{
    let mut buffer = Buffer::new();
    buffer.format(number).as_bytes() == digits
}

/// What stands before the last byte, and that byte.
fn split_last(text: &[u8]) -> Option<(&[u8], u8)>
    ensures { MatchOption result (text.now ≡ []) (λ (front, last). text.now ≡ front.now ++ last ∷ []) }
{
    match text {
        [front @ .., last] => Some((front, *last)),
        [] => None,
    }
}

/// The seconds of a span.
pub fn read_span(text: &[u8]) -> Option<u64>
    // Exactly the spans are read whose seconds fit.
    ensures span { IfSome result (λ seconds. IsSpan text.now seconds) }
    ensures each { (seconds : ℕ) → IsSpan text.now seconds → result ≡ Some seconds }
{
    let (digits, letter) = split_last(text)?;
    let (number, _) = number_at_front(text);
    if !is_decimal(digits, number) {
        return None;
    }
    let seconds = number.checked_mul(seconds_in(letter))?;
    if seconds > 0 { Some(seconds) } else { None }
}

/// The time that lies a span before now, in milliseconds since 1970.
pub fn read_back(text: &[u8], now: u64) -> Option<u64>
    ensures time { IfSome result (λ time. (seconds : ℕ) × IsSpan text.now seconds × (time + seconds * 1000 ≡ now)) }
    ensures each { (seconds time : ℕ) → IsSpan text.now seconds → time + seconds * 1000 ≡ now → result ≡ Some time }
{
    match read_span(text) {
        Some(seconds) if seconds <= now / 1000 => Some(now - seconds * 1000),
        _ => None,
    }
}
