//! The times that a target has.
ghost use Rattle.std.specs.Prelude.{◌≡◌, ◌<◌, ◌≤◌, [], ℕ, Option, None, false, true, length, IfSome};
ghost use Rattle.jiff.specs.Words.{plain_zone};
ghost use Rattle.percent_encoding.specs.Percent.{percent_decode};
ghost use Rattle.archive_fetch.specs.Moments.{IsReadAs, IsShortText, past, time_text, without_name};

use archive_clock::read_time;
use arrayvec::ArrayVec;
use jiff::tz::TimeZone;
use percent_encoding::percent_decode;
use std::str;

/// The greatest length of a time's text, in bytes.
const LONGEST: usize = 64;

/// The time's text, which may be the value `at` of a form.
fn without_name(text: &[u8]) -> &[u8]
    ensures { result.now ≡ without_name text.now }
{
    if text.starts_with(b"?at=") {
        &text[4..]
    } else {
        text
    }
}

/// Puts the bytes of a text with what is escaped in it where nothing is. False if there is no room for them.
fn decode(text: &[u8], plain: &mut ArrayVec<u8, LONGEST>) -> bool
    requires { plain.old.items ≡ [] }
    ensures whole { result ≡ true → plain.new.items ≡ percent_decode text.now }
    ensures fits { result ≡ true → length (percent_decode text.now) ≤ 64 }
    ensures long { result ≡ false → 64 < length (percent_decode text.now) }
{
    for byte in percent_decode(text) {
        match plain.try_push(byte) {
            Ok(()) => {}
            Err(_) => return false,
        }
    }
    true
}

/// The time of a text, if it isn't yet to come.
fn read_past(plain: &str, now: u64, zone: &TimeZone) -> Option<u64>
    ensures { (found : Option ℕ) × IsReadAs now (plain_zone zone.now) plain.now found × (result ≡ past now found) }
{
    match read_time(plain, now, zone) {
        Some(time) if time <= now => Some(time),
        _ => None,
    }
}

/// The time that a part of a path asks for, in milliseconds since 1970: as `cut` reads it, without an offset in this zone,
/// and with what is escaped in it (RFC 3986, section 2.1). It may be the value `at` of a form. None if it isn't one, or is yet
/// to come.
pub fn past_time(text: &[u8], now: u64, zone: &TimeZone) -> Option<u64>
    ensures read { IsShortText (time_text text.now) → (found : Option ℕ) × IsReadAs now (plain_zone zone.now) (time_text text.now) found
        × (result ≡ past now found) }
    ensures other { (IsShortText (time_text text.now) → ⊥) → result ≡ None }
    ensures past { IfSome result (λ time. time ≤ now) }
{
    let mut plain = ArrayVec::<u8, LONGEST>::new();
    if !decode(without_name(text), &mut plain) {
        return None;
    }
    match str::from_utf8(plain.as_slice()) {
        Ok(plain) => read_past(plain, now, zone),
        Err(_) => None,
    }
}
