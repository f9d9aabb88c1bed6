//! The credentials that a source gives: Basic, as in RFC 7617.
ghost use Rattle.std.specs.Prelude.{◌≡◌, ◌≤◌, length, option_copied, IfSome};
ghost use Rattle.std.specs.Str.{bytes_eq};
ghost use Rattle.serve_sources.specs.Credentials.{has_password, token_of, value_authorizes, without_spaces};

use crate::places::{place_of, place_of_other};
use base64::engine::general_purpose::STANDARD;

/// The greatest number of bytes of a pair whose Base64 lies in a head.
const MOST_PAIR: usize = 6144;

/// Whether both are the same. The number of steps follows from their lengths alone, so that the time which this takes
/// doesn't tell where they differ.
fn is_same(given: &[u8], kept: &[u8]) -> bool
    ensures { result ≡ bytes_eq given.now kept.now }
{
    if given.len() != kept.len() {
        return false;
    }
    let mut difference = 0;
    for i in 0..given.len() {
        difference |= given[i] ^ kept[i];
    }
    difference == 0
}

fn has_password(pair: &[u8], password: &[u8]) -> bool
    ensures { result ≡ has_password pair.now password.now }
{
    match place_of(b':', pair) {
        Some(colon) => is_same(&pair[colon + 1..], password),
        None => false,
    }
}

fn without_spaces(text: &[u8]) -> &[u8]
    ensures { result.now ≡ without_spaces text.now }
{
    match place_of_other(b' ', text) {
        Some(at) => &text[at..],
        None => b"",
    }
}

fn token_of(value: &[u8]) -> Option<&[u8]>
    ensures same { option_copied result ≡ token_of value.now }
    ensures short { IfSome result (λ token. length token.now ≤ length value.now) }
{
    if value.len() >= 6 && value[..6].eq_ignore_ascii_case(b"basic ") {
        Some(without_spaces(&value[6..]))
    } else {
        None
    }
}

/// Whether the value of an `Authorization` field gives this password, with any user name.
pub fn value_authorizes(value: &[u8], password: &[u8]) -> bool
    requires { length value.now ≤ 8192 }
    ensures { result ≡ value_authorizes value.now password.now }
{
    let Some(token) = token_of(value) else {
        return false;
    };
    let mut pair = [0; MOST_PAIR];
    match STANDARD.decode_slice_unchecked(token, &mut pair) {
        Ok(count) => has_password(&pair[..count], password),
        Err(_) => false,
    }
}
