//! The request by which a browser asks first what it may ask for.
ghost use Rattle.std.specs.Prelude.{◌≡◌, ◌≤◌, ℕ, List, length, true};
ghost use Rattle.httparse.specs.Grammar.{RequestHead, ReadsRequest};
ghost use Rattle.ogg_http.specs.Head.{IsAwaited, head_bytes, most_fields};
ghost use Rattle.serve_origins.specs.Preflights.{IsNone, IsPreflight, is_options, may_be_options};

use ogg_http::{HeadRead, read_head};

/// The answer to it, before the field of the origin is added: what may be asked for, and that it holds for a day.
pub const PREFLIGHT: &[u8] = b"HTTP/1.1 204 No Content\r\n\
    Allow: GET, HEAD, OPTIONS\r\n\
    Access-Control-Allow-Methods: GET, HEAD\r\n\
    Access-Control-Allow-Headers: Range, If-None-Match\r\n\
    Access-Control-Max-Age: 86400\r\n\
    Connection: close\r\n\r\n";

/// Whether bytes hold such a request.
#[derive(Clone, Copy, Debug, PartialEq, Eq)]
pub enum Preflight {
    /// They don't, whatever follows.
    No,
    /// More bytes may make it one.
    More,
    Yes,
}

fn is_options(front: &[u8]) -> bool
    ensures { result ≡ is_options front.now }
{
    front.starts_with(b"OPTIONS ")
}

fn may_be_options(front: &[u8]) -> bool
    ensures { result ≡ may_be_options front.now }
{
    b"OPTIONS ".starts_with(front) || is_options(front)
}

/// Whether the first bytes of a connection hold it.
pub fn preflight_in(front: &[u8]) -> Preflight
    ensures yes { result ≡ Preflight.Yes → (is_options front.now ≡ true) × IsPreflight front.now }
    ensures each { (head : RequestHead) (rest : List ℕ) → is_options front.now ≡ true
        → ReadsRequest (head_bytes front.now) head rest → length head.fields ≤ most_fields → result ≡ Preflight.Yes }
    ensures more { result ≡ Preflight.More → (may_be_options front.now ≡ true) × IsAwaited front.now }
    ensures no { result ≡ Preflight.No → IsNone front.now }
{
    match read_head(front) {
        HeadRead::Whole(_) if is_options(front) => Preflight::Yes,
        HeadRead::Whole(_) => Preflight::No,
        HeadRead::Partial if may_be_options(front) => Preflight::More,
        HeadRead::Partial => Preflight::No,
        HeadRead::Bad => Preflight::No,
    }
}
